//! Reading texts of frames.

ghost use Rattle.std.specs.Prelude.{◌≡◌, ◌+◌, ◌*◌, ◌<◌, ◌≤◌, ◌++◌, ◌∷◌, [], ℕ, List, IfOk, IfErr, IfSome, IfNone, IsTrue, MatchResult, length, ◌↔◌};
ghost use Rattle.formats.specs.Bytes.{letter_h, letter_l};
ghost use Rattle.formats.specs.declared.frame.Frame.{Frame as AFrame};
ghost use Rattle.formats.specs.declared.frame.FrameLineFault.{FrameLineFault};
ghost use Rattle.formats.specs.declared.frame.TheConstants.{FRAMES_LIMIT, FRAME_LIMIT};
ghost use Rattle.formats.specs.Frames.{edge, width};
ghost use Rattle.formats.specs.FrameTexts.{IsAfter, IsElement, IsRefused, IsTextOf, MayBegin, next_start};
ghost use Rattle.formats.specs.FrameTexts.Next.{Fall, NextFrame, Rise};
ghost use Rattle.irig_frames.specs.declared.fault.FrameFault.TheVariants.{NoMemory};
ghost use Rattle.irig_frames.specs.Reading.{GoesOn, HasRefusedLine, IsElementAt, IsFaultAt, IsFaultFrom, IsFaultOf};

use crate::FrameFault;
use crate::edge::edge_in;
use crate::told::second_of;
use arrayvec::ArrayVec;
use civil::Civil;
use formats::{ELEMENT_TIME, ELEMENTS, FRAME_LIMIT, FRAME_TIME, Frame, MOST_FRAMES};
use std::alloc::Global;

/// Reads a text of frames, of at most 8,000,000 bytes. The first bad line decides; on one line `Shape` goes before
/// `TooManyFrames`, then come `Timing` and `Meaning`. `NoMemory` comes only for want of memory.
pub fn read_frames(alloc: Global, civil: &Civil, bytes: &[u8]) -> Result<Vec<Frame>, FrameFault>
    requires { length bytes.now ≤ FRAMES_LIMIT }

    // What is read is written as this text; a fault names the first bad line and says how it is bad.
    ensures accepted { IfOk result (λ frames. IsTextOf frames.items bytes.now) }
    ensures refused { IfErr result (IsFaultOf bytes.now) }

    // The text of any frames in order is read, and each other text is refused for its first bad line, unless memory runs
    // out.
    ensures every_text { (frames : List AFrame) → IsTextOf frames bytes.now
        → MatchResult result (λ read. read.items ≡ frames) (λ fault. fault ≡ NoMemory) }
    ensures every_fault { (line : ℕ) (fault : FrameLineFault) → IsRefused bytes.now line fault
        → MatchResult result (λ _. ⊥) (HasRefusedLine line fault) }
{
    read_all(alloc, civil, bytes)
}

// The frames of the text.
fn read_all(alloc: Global, civil: &Civil, bytes: &[u8]) -> Result<Vec<Frame>, FrameFault>
    requires { length bytes.now ≤ FRAMES_LIMIT }
    ensures accepted { IfOk result (λ frames. IsTextOf frames.items bytes.now) }
    ensures refused { IfErr result (IsFaultOf bytes.now) }
{
    let mut frames = Vec::new(alloc);
    let mut rest = bytes;
    while !rest.is_empty() {
        let (frame, more) = read_frame(civil, frames.as_slice(), rest)?;
        frames.push(frame)?;
        rest = more;
    }
    Ok(frames)
}

// The frame with which the rest of a text begins, behind these frames, and the text after it.
fn read_frame<'a>(
    civil: &Civil,
    frames: &[Frame],
    text: &'a [u8],
) -> Result<(Frame, &'a [u8]), FrameFault>
    requires few { length frames.now ≤ MOST_FRAMES }
    requires some { 0 < length text.now }
    ensures read { IfOk result (λ found.
        GoesOn frames.now NextFrame text.now (frames.now ++ found.0 ∷ []) NextFrame found.1.now) }
    ensures shorter { IfOk result (λ found. length found.1.now < length text.now) }
    ensures refused { IfErr result (IsFaultFrom frames.now NextFrame text.now) }
{
    let (start, after) = first_rise(frames, text)?;
    let mut rest = after;
    let mut over = ArrayVec::<u8, ELEMENTS>::new();
    while over.len() + 1 < ELEMENTS {
        let (element, low) = fall(frames, start, over.as_slice(), rest)?;
        over.push(element);
        rest = rise(frames, start, over.as_slice(), low)?;
    }
    let (element, low) = fall(frames, start, over.as_slice(), rest)?;
    let number = line_number(frames.len(), 2 * over.len() + 1);
    over.push(element);
    let Some((minute, second)) = second_of(civil, over.as_slice()) else {
        return Err(FrameFault::Meaning { line: number });
    };
    let frame = Frame {
        at: start,
        minute,
        second,
    };
    Ok((frame, low))
}

// The number of the line behind so many frames and lines.
fn line_number(frames: usize, lines: usize) -> u32
    requires few { frames ≤ MOST_FRAMES }
    requires short { lines < 2 * ELEMENTS }
    ensures { result ≡ 2 * ELEMENTS * frames + lines + 1 }
{
    (2 * ELEMENTS * frames + lines + 1) as u32
}

// When a frame begins, and the text after its first line.
fn first_rise<'a>(frames: &[Frame], text: &'a [u8]) -> Result<(u64, &'a [u8]), FrameFault>
    requires few { length frames.now ≤ MOST_FRAMES }
    requires some { 0 < length text.now }
    ensures begins { IfOk result (λ found. MayBegin frames.now found.0) }
    ensures edge { IfOk result (λ found. text.now ≡ edge letter_h found.0 ++ found.1.now) }
    ensures refused { IfErr result (IsFaultAt frames.now NextFrame text.now) }
{
    let number = line_number(frames.len(), 0);
    let Some((ms, rest)) = edge_in(text, b'H') else {
        return Err(FrameFault::Shape { line: number });
    };
    if frames.len() >= MOST_FRAMES {
        return Err(FrameFault::TooManyFrames { line: number });
    }
    if ms >= FRAME_LIMIT {
        return Err(FrameFault::Timing { line: number });
    }
    if !is_after(frames, ms) {
        return Err(FrameFault::Timing { line: number });
    }
    Ok((ms, rest))
}

// Whether the millisecond is a second or more after the begin of the last frame.
fn is_after(frames: &[Frame], ms: u64) -> bool
    requires { ms < FRAME_LIMIT }
    ensures { IsTrue result ↔ IsAfter frames.now ms }
{
    match frames.split_last() {
        Some((last, _)) => last.at <= ms && ms - last.at >= FRAME_TIME,
        None => true,
    }
}

// The text after the line with which the next element becomes high.
fn rise<'a>(
    frames: &[Frame],
    start: u64,
    over: &[u8],
    text: &'a [u8],
) -> Result<&'a [u8], FrameFault>
    requires few { length frames.now ≤ MOST_FRAMES }
    requires start { start < FRAME_LIMIT }
    requires short { length over.now < ELEMENTS }
    ensures edge { IfOk result (λ rest. text.now ≡ edge letter_h (next_start start over.now) ++ rest.now) }
    ensures refused { IfErr result (IsFaultAt frames.now (Rise start over.now) text.now) }
{
    let number = line_number(frames.len(), 2 * over.len());
    let Some((ms, rest)) = edge_in(text, b'H') else {
        return Err(FrameFault::Shape { line: number });
    };
    if ms != start + ELEMENT_TIME * over.len() as u64 {
        return Err(FrameFault::Timing { line: number });
    }
    Ok(rest)
}

// The next element, by the time at which it becomes low, and the text after that line.
fn fall<'a>(
    frames: &[Frame],
    start: u64,
    over: &[u8],
    text: &'a [u8],
) -> Result<(u8, &'a [u8]), FrameFault>
    requires few { length frames.now ≤ MOST_FRAMES }
    requires start { start < FRAME_LIMIT }
    requires short { length over.now < ELEMENTS }
    ensures element { IfOk result (λ found. IsElement found.0) }
    ensures edge { IfOk result (λ found.
        text.now ≡ edge letter_l (next_start start over.now + width found.0) ++ found.1.now) }
    ensures refused { IfErr result (IsFaultAt frames.now (Fall start over.now) text.now) }
{
    let number = line_number(frames.len(), 2 * over.len() + 1);
    let Some((ms, rest)) = edge_in(text, b'L') else {
        return Err(FrameFault::Shape { line: number });
    };
    let Some(element) = element_at(start + ELEMENT_TIME * over.len() as u64, ms) else {
        return Err(FrameFault::Timing { line: number });
    };
    Ok((element, rest))
}

// The element that begins and becomes low at these milliseconds.
fn element_at(begin: u64, low: u64) -> Option<u8>
    ensures element { IfSome result (IsElementAt begin low) }
    ensures none { IfNone result ((element : ℕ) → ¬ (IsElementAt begin low element)) }
{
    if low < begin {
        return None;
    }
    match low - begin {
        2 => Some(0),
        5 => Some(1),
        8 => Some(2),
        _ => None,
    }
}

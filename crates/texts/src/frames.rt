//! What is told of a text of frames that was read: the second of each frame, or why it is refused.

ghost use Rattle.std.specs.Prelude.{◌≡◌, ◌<◌, ◌≤◌, All, length};
ghost use Rattle.bank_files.specs.Told.{output_name};
ghost use Rattle.bank_files.specs.Seen.{Writes};
ghost use Rattle.definitions.specs.time.Calendar.{century_minutes};
ghost use Rattle.formats.specs.declared.frame.TheConstants.{MOST_FRAMES};
ghost use Rattle.formats.specs.Frames.{frame_line, frame_list};
ghost use Rattle.formats.specs.Refusals.{frame_fault_line, frame_fault_text, frames_too_large};
ghost use Rattle.texts.specs.declared.frames.TheConstants.{LIST_ROOM};

use crate::page::{LINE_ROOM, Line};
use crate::pieces::push_minute;
use arrayvec::ArrayString;
use bank_files::{Failed, Files, OUTPUT, Text, push_number, write_all, write_text};
use civil::Civil;
use formats::{Frame, FrameLineFault, MOST_FRAMES};

/// The most bytes of the lines of frames.
pub const LIST_ROOM: usize = LINE_ROOM * MOST_FRAMES;

// The lines of frames.
type List = ArrayString<LIST_ROOM>;

/// Writes a line for each of at most 1,200 frames to standard output: when it begins, and which second it tells. All lines
/// are one text, which takes no memory, and are written at once.
pub fn write_frame_list<F: Files>(
    files: &mut F,
    civil: &Civil,
    frames: &[Frame],
) -> Result<(), Failed>
    requires few { length frames.now ≤ MOST_FRAMES }
    requires minutes { All (λ frame. frame.minute < century_minutes) frames.now }
    ensures { Writes output_name (F.view files.old) (F.view files.new) (frame_list frames.now) result }
{
    let list = list_of(civil, frames);
    write_all(files, OUTPUT, list.as_str().as_bytes())
}

fn list_of(civil: &Civil, frames: &[Frame]) -> List
    requires few { length frames.now ≤ MOST_FRAMES }
    requires minutes { All (λ frame. frame.minute < century_minutes) frames.now }
    ensures { result.bytes ≡ frame_list frames.now }
{
    let mut list = List::new();
    for i in 0..frames.len() {
        list.push_str(frame_line(civil, &frames[i]).as_str());
    }
    list
}

// The line of a frame.
fn frame_line(civil: &Civil, frame: &Frame) -> Line
    requires { frame.now.minute < century_minutes }
    ensures { result.bytes ≡ frame_line frame.now }
{
    let mut text = Line::new();
    text.push_str("at ");
    push_number(&mut text, frame.at);
    text.push_str(" ");
    push_minute(&mut text, civil, frame.minute);
    text.push_str(" ");
    push_number(&mut text, frame.second as u64);
    text.push_str("\n");
    text
}

/// Writes the line of a text of frames that is too large to standard output.
pub fn write_large_frames<F: Files>(files: &mut F) -> Result<(), Failed>
    ensures { Writes output_name (F.view files.old) (F.view files.new) frames_too_large result }
{
    write_text(files, OUTPUT, &large_frames())
}

fn large_frames() -> Text
    ensures { result.bytes ≡ frames_too_large }
{
    let mut text = Text::new();
    text.push_str("frames: too large\n");
    text
}

/// Writes which line of a text of frames is bad, counted from 1, and in what way, to standard output.
pub fn write_bad_frame<F: Files>(
    files: &mut F,
    line: u32,
    fault: FrameLineFault,
) -> Result<(), Failed>
    ensures { Writes output_name (F.view files.old) (F.view files.new) (frame_fault_line line fault) result }
{
    write_text(files, OUTPUT, &bad_frame(line, fault))
}

fn bad_frame(line: u32, fault: FrameLineFault) -> Text
    ensures { result.bytes ≡ frame_fault_line line fault }
{
    let mut text = Text::new();
    text.push_str("frames: line ");
    push_number(&mut text, line as u64);
    text.push_str(": ");
    text.push_str(words_of(fault));
    text.push_str("\n");
    text
}

// In what way a line is bad.
fn words_of(fault: FrameLineFault) -> &'static str
    ensures words { result.now ≡ frame_fault_text fault }
    ensures short { length result.now ≤ 32 }
{
    match fault {
        FrameLineFault::Shape => "shape",
        FrameLineFault::TooManyFrames => "too many frames",
        FrameLineFault::Timing => "timing",
        FrameLineFault::Meaning => "meaning",
    }
}

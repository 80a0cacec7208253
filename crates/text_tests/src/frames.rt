//! Texts of frames that are written and read again, and what becomes of those with a fault. The elements and the lines
//! were worked out from the published table, apart from this project.

ghost use Rattle.std.specs.Prelude.{◌<◌};
ghost use Rattle.formats.specs.declared.frame.TheConstants.{FRAME_LIMIT};
ghost use Rattle.formats.specs.FrameTexts.{IsSecond};

use crate::made::check_at;
use bank_files::{Failed, MemoryFiles, OUTPUT};
use civil::Civil;
use formats::FRAMES_LIMIT;
use irig_frames::{Frame, FrameFault, elements, read_frames, write_frame};
use std::alloc::{AllocError, Global};
use std::process::Abort;
use std::test::Fail;

// 2024-06-10T06:16Z.
const MORNING: u32 = 8_927 * 1_440 + 376;

fn read(
    rt: &(impl Abort + AllocGlobal),
    civil: &Civil,
    text: &[u8],
) -> Result<Vec<Frame>, FrameFault> {
    assert!(rt; text.len() as u64 <= FRAMES_LIMIT);
    read_frames(rt.alloc(), civil, text)
}

// Why a text is refused.
fn fault_in(rt: &(impl Abort + AllocGlobal), civil: &Civil, text: &[u8]) -> Option<FrameFault> {
    read(rt, civil, text).err()
}

// The frame of the n-th second from 06:16Z on.
#[tactic(auto, using(irig_frames::proofs::ToldLaws::first_sixty))]
fn frame_of(n: u16) -> Frame
    ensures start { result.at < FRAME_LIMIT }
    ensures second { IsSecond result.minute result.second }
{
    Frame {
        at: n as u64 * 1_000,
        minute: MORNING + n as u32 / 60,
        second: (n % 60) as u8,
    }
}

// Writes the first so many of them.
fn write_frames(files: &mut MemoryFiles, civil: &Civil, count: u16) -> Result<(), Failed> {
    for n in 0..count {
        write_frame(files, OUTPUT, civil, &frame_of(n))?;
    }
    Ok(())
}

fn written(alloc: Global, files: &MemoryFiles) -> Result<Vec<u8>, AllocError> {
    match files.contents(OUTPUT) {
        Some(text) => text.to_vec(alloc),
        None => Ok(Vec::new(alloc)),
    }
}

// The text of this many of them.
fn made(alloc: Global, civil: &Civil, count: u16) -> Result<Vec<u8>, Fail> {
    let mut files = MemoryFiles::make(alloc);
    write_frames(&mut files, civil, count)?;
    Ok(written(alloc, &files)?)
}

// The same, for which there is memory.
fn text_of(rt: &(impl Abort + AllocGlobal), civil: &Civil, count: u16) -> Vec<u8> {
    match made(rt.alloc(), civil, count) {
        Ok(text) => text,
        Err(_) => panic!(rt; "no text of {count} frames"),
    }
}

fn elements_of_a_second(rt: &impl Abort, civil: &Civil) {
    let want =
        b"M00000000M011001000M011000000M010000110M100000000M001000100M000000000M000000000M000001000M001101000M";
    let found = elements(civil, MORNING, 0);
    for i in 0..100 {
        let sign = match found[i] {
            0 => b'0',
            1 => b'1',
            _ => b'M',
        };
        check_at(rt, sign == want[i], i as u64);
    }
}

fn count_of_lines(text: &[u8]) -> usize {
    text.iter().filter(|byte| **byte == b'\n').count()
}

fn are_the_first(rt: &impl Abort, frames: &[Frame]) {
    assert!(rt; frames.len() == 120);
    for n in 0..120 {
        check_at(rt, frames.get(n as usize) == Some(&frame_of(n)), n as u64);
    }
}

fn two_minutes_read_again(rt: &(impl Abort + AllocGlobal), civil: &Civil, text: &[u8]) {
    assert!(rt; count_of_lines(text) == 24_000);
    assert!(rt; text.starts_with(b"0 H\n8 L\n10 H\n12 L\n"));
    match read(rt, civil, text) {
        Ok(frames) => are_the_first(rt, &frames),
        Err(_) => panic!(rt; "two minutes are refused"),
    }
}

// What becomes of the text where one byte is another.
fn fault_with(
    rt: &(impl Abort + AllocGlobal),
    civil: &Civil,
    text: &mut [u8],
    at: usize,
    byte: u8,
) -> Option<FrameFault> {
    assert!(rt; at < text.len());
    let own = text[at];
    text[at] = byte;
    let fault = fault_in(rt, civil, text);
    text[at] = own;
    fault
}

// What becomes of the text without so many bytes at its end.
fn fault_without(
    rt: &(impl Abort + AllocGlobal),
    civil: &Civil,
    text: &[u8],
    bytes: usize,
) -> Option<FrameFault> {
    assert!(rt; bytes <= text.len());
    fault_in(rt, civil, &text[..text.len() - bytes])
}

// Line 2 is `9 L`, and line 4 `15 L`.
fn refuses_the_first_bad_line(rt: &(impl Abort + AllocGlobal), civil: &Civil, text: &mut [u8]) {
    let timing = fault_with(rt, civil, text, 4, b'9');
    assert!(rt; timing == Some(FrameFault::Timing { line: 2 }));
    let meaning = fault_with(rt, civil, text, 14, b'5');
    assert!(rt; meaning == Some(FrameFault::Meaning { line: 200 }));
}

// The last line, `119998 L`, is missing, and then its LF alone.
fn refuses_a_missing_line(rt: &(impl Abort + AllocGlobal), civil: &Civil, text: &[u8]) {
    let shape = Some(FrameFault::Shape { line: 24_000 });
    for (bytes, due) in [(0, None), (9, shape), (1, shape)] {
        let fault = fault_without(rt, civil, text, bytes);
        check_at(rt, fault == due, bytes as u64);
    }
}

fn two_minutes(rt: &(impl Abort + AllocGlobal), civil: &Civil) {
    let mut text = text_of(rt, civil, 120);
    two_minutes_read_again(rt, civil, &text);
    refuses_the_first_bad_line(rt, civil, &mut text);
    refuses_a_missing_line(rt, civil, &text);
}

// How many frames are read of the text of so many, or why it is refused.
fn read_of(
    rt: &(impl Abort + AllocGlobal),
    civil: &Civil,
    count: u16,
) -> Result<usize, FrameFault> {
    let text = text_of(rt, civil, count);
    match read(rt, civil, &text) {
        Ok(frames) => Ok(frames.len()),
        Err(fault) => Err(fault),
    }
}

fn reads_the_most_frames(rt: &(impl Abort + AllocGlobal), civil: &Civil) {
    let too_many = FrameFault::TooManyFrames { line: 240_001 };
    assert!(rt; read_of(rt, civil, 1_201) == Err(too_many));
    assert!(rt; read_of(rt, civil, 1_200) == Ok(1_200));
}

// The text of a frame at millisecond 0 with these elements.
fn text_with(alloc: Global, elements: &[u8]) -> Result<String, AllocError> {
    let mut text = String::new(alloc);
    let mut ms = 0u64;
    for element in elements {
        let high: u64 = match *element {
            0 => 2,
            1 => 5,
            _ => 8,
        };
        write!(text, "{ms} H\n{} L\n", ms.saturating_add(high))?;
        ms = ms.saturating_add(10);
    }
    Ok(text)
}

// The second that a text of one frame tells, or why it is refused.
fn second_in(
    rt: &(impl Abort + AllocGlobal),
    civil: &Civil,
    text: &[u8],
) -> Result<Option<(u32, u8)>, FrameFault> {
    match read(rt, civil, text) {
        Ok(frames) => Ok(frames.first().map(|frame| (frame.minute, frame.second))),
        Err(fault) => Err(fault),
    }
}

// The second that a frame of these elements tells, or why its text is refused.
fn told_by(
    rt: &(impl Abort + AllocGlobal),
    civil: &Civil,
    elements: &[u8],
) -> Result<Option<(u32, u8)>, FrameFault> {
    match text_with(rt.alloc(), elements) {
        Ok(text) => second_in(rt, civil, text.as_bytes()),
        Err(_) => panic!(rt; "no memory for a text"),
    }
}

// The elements that tell another day where they are wrong, with what they then are and the minute that is told.
const OTHER_DAYS: [(usize, u8, u32); 14] = [
    (30, 1, 8_928 * 1_440 + 376),
    (31, 0, 8_925 * 1_440 + 376),
    (32, 1, 8_931 * 1_440 + 376),
    (35, 1, 8_937 * 1_440 + 376),
    (36, 0, 8_907 * 1_440 + 376),
    (37, 0, 8_887 * 1_440 + 376),
    (40, 0, 8_827 * 1_440 + 376),
    (41, 1, 9_127 * 1_440 + 376),
    (50, 1, 9_293 * 1_440 + 376),
    (51, 1, 9_658 * 1_440 + 376),
    (52, 0, 7_466 * 1_440 + 376),
    (55, 1, 12_580 * 1_440 + 376),
    (56, 0, 1_622 * 1_440 + 376),
    (57, 1, 23_537 * 1_440 + 376),
];

// What becomes of a text where this element is that one.
fn due_where(place: usize, wrong: u8) -> Result<Option<(u32, u8)>, FrameFault> {
    for (at, element, minute) in &OTHER_DAYS {
        if *at == place && *element == wrong {
            return Ok(Some((*minute, 0)));
        }
    }
    Err(FrameFault::Meaning { line: 200 })
}

// A wrong element of the time of day is at odds with the straight binary seconds; one of the day or of the year tells
// another day, where there is such a day.
fn each_element_wrong_in_turn(rt: &(impl Abort + AllocGlobal), civil: &Civil) {
    let mut found = elements(civil, MORNING, 0);
    for i in 0..100 {
        let right = found[i];
        for wrong in 0..3u8 {
            if wrong != right {
                found[i] = wrong;
                let is_so = told_by(rt, civil, &found) == due_where(i, wrong);
                check_at(rt, is_so, i as u64);
            }
        }
        found[i] = right;
    }
}

// The elements of seconds at the ends of days, of years and of the century, and of leap seconds, after which 86,400 seconds of
// the day are over. Two have a second 60 where there is none.
const SECONDS: [(&[u8; 100], Option<(u32, u8)>); 11] = [
    (
        b"M10010101M100101010M110000100M011000110M110000000M011001000M000000000M000000000M111111101M000101010M",
        Some((8_942_399, 59)),
    ),
    (
        b"M00000011M100101010M110000100M011000110M110000000M011001000M000000000M000000000M000000011M000101010M",
        Some((8_942_399, 60)),
    ),
    (
        b"M00000000M000000000M000000000M100000000M000000000M111001000M000000000M000000000M000000000M000000000M",
        Some((8_942_400, 0)),
    ),
    (
        b"M00000011M100101010M110000100M100000001M100000000M101001000M000000000M000000000M000000011M000101010M",
        Some((8_150_399, 60)),
    ),
    (
        b"M00000000M000000000M000000000M100000000M000000000M000000000M000000000M000000000M000000000M000000000M",
        Some((0, 0)),
    ),
    (
        b"M00000110M000000000M010001000M000000110M000000000M001000100M000000000M000000000M011110110M001010100M",
        Some((12_708_720, 30)),
    ),
    (
        b"M00000000M000000000M000000000M100000110M000000000M001000100M000000000M000000000M000000000M000000000M",
        Some((12_709_440, 0)),
    ),
    (
        b"M10010101M100101010M110000100M011000110M110000000M001000100M000000000M000000000M111111101M000101010M",
        Some((13_150_079, 59)),
    ),
    (
        b"M00000011M100101010M110000100M101000110M110000000M100101001M000000000M000000000M000000011M000101010M",
        Some((52_595_999, 60)),
    ),
    (
        b"M00000011M011001000M011000000M010000110M100000000M001000100M000000000M000000000M001110100M001101000M",
        None,
    ),
    (
        b"M00000011M100101010M110000100M010000110M100000000M001000100M000000000M000000000M000000011M000101010M",
        None,
    ),
];

// The elements that these signs stand for.
fn elements_in(signs: &[u8; 100]) -> [u8; 100] {
    let mut found = [0u8; 100];
    for i in 0..100 {
        found[i] = match signs[i] {
            b'0' => 0,
            b'1' => 1,
            _ => 2,
        };
    }
    found
}

fn seconds_at_the_ends_of_days(rt: &(impl Abort + AllocGlobal), civil: &Civil) {
    for (signs, second) in &SECONDS {
        let want = match second {
            Some(told) => Ok(Some(*told)),
            None => Err(FrameFault::Meaning { line: 200 }),
        };
        assert!(rt; told_by(rt, civil, &elements_in(signs)) == want);
    }
}

// Behind each of its lines, and before the end of each. Only whole frames are read.
fn refuses_a_text_cut_at_every_line(rt: &(impl Abort + AllocGlobal), civil: &Civil, text: &[u8]) {
    let mut line = 1u32;
    for end in 0..text.len() {
        if text[end] == b'\n' {
            let shape = Some(FrameFault::Shape { line });
            check_at(rt, fault_in(rt, civil, &text[..end]) == shape, line as u64);
            line = line.saturating_add(1);
            let due = if line == 201 || line == 401 {
                None
            } else {
                Some(FrameFault::Shape { line })
            };
            check_at(
                rt,
                fault_in(rt, civil, &text[..end + 1]) == due,
                line as u64,
            );
        }
    }
    assert!(rt; line == 401);
}

fn two_frames(rt: &(impl Abort + AllocGlobal), civil: &Civil) {
    let text = text_of(rt, civil, 2);
    refuses_a_text_cut_at_every_line(rt, civil, &text);
}

fn check_frames(rt: &(impl Abort + AllocGlobal), civil: &Civil) {
    elements_of_a_second(rt, civil);
    two_minutes(rt, civil);
    reads_the_most_frames(rt, civil);
    each_element_wrong_in_turn(rt, civil);
    seconds_at_the_ends_of_days(rt, civil);
    two_frames(rt, civil);
}

// One table of days is made for all of it, and each function owns little: each place at which what is owned may be dropped is
// proved.
#[test]
fn frames_and_their_texts(rt: HostRuntime) -> Result<(), Fail> {
    let civil = Civil::make(rt.alloc())?;
    check_frames(&rt, &civil);
    Ok(())
}

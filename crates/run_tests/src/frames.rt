//! Runs of the commands of frames over files in memory, with ample memory. The texts are worked out by hand from
//! docs/FORMATS.md.

use crate::made::{JJY, MINUTES, MSF, MSF_WAVES, files_of, heard, printed, words};
use bank_files::{MemoryFiles, OneByte};
use formats::FRAMES_LIMIT;
use frame_runs::irig;
use std::alloc::{AllocError, Global};
use std::test::Fail;
use std::thread::Threads;
use workers::NoGate;

// The log of a receiver that hears the first two minutes from millisecond 0 on.
fn clean_log(alloc: Global) -> Result<String, AllocError> {
    let mut text = String::new(alloc);
    let mut ms = 0u64;
    for minute in &MINUTES[..2] {
        for symbol in minute.bytes() {
            // Never reached: it bounds the sums.
            if ms > 1_000_000 {
                return Ok(text);
            }
            let fall = match symbol {
                b'0' => ms + 800,
                b'1' => ms + 500,
                _ => ms + 200,
            };
            write!(text, "{ms} H\n{fall} L\n")?;
            ms += 1_000;
        }
    }
    write!(text, "{ms} H\n")?;
    Ok(text)
}

// The hour of the two minutes.
const HOUR: &str =
    "irig k.toml --seconds 120 --from 2024-06-10T06:00Z --to 2024-06-10T06:59Z --workers 2";

// The status of a run over a configuration and its log, and what it printed.
fn run<R: Threads + Sync + AllocGlobal>(
    rt: &R,
    config: &str,
    log: &str,
    line: &str,
) -> Result<(u8, Vec<u8>), Fail> {
    let mut files = files_of(rt.alloc(), config, log)?;
    let words = words(rt.alloc(), line)?;
    let status = irig(rt, rt.alloc(), &words, &mut files, &NoGate);
    Ok((status, output_of(rt.alloc(), &files)?))
}

// The same of a run that is asked what these bytes tell.
fn run_read<R: Threads + Sync + AllocGlobal>(rt: &R, bytes: &[u8]) -> Result<(u8, Vec<u8>), Fail> {
    let mut files = MemoryFiles::make(rt.alloc());
    files.put("f.txt", bytes)?;
    let words = words(rt.alloc(), "irig-read f.txt")?;
    let status = irig(rt, rt.alloc(), &words, &mut files, &NoGate);
    Ok((status, output_of(rt.alloc(), &files)?))
}

fn output_of(alloc: Global, files: &MemoryFiles) -> Result<Vec<u8>, AllocError> {
    files.contents("-").unwrap_or(b"").to_vec(alloc)
}

// What is printed of the two minutes, for other runs to read.
fn two_minutes<R: Threads + Sync + AllocGlobal>(rt: &R) -> Result<Vec<u8>, Fail> {
    let log = clean_log(rt.alloc())?;
    let (_, text) = run(rt, JJY, &log, HOUR)?;
    Ok(text)
}

// Whether a run over a configuration and its log ends with this status, and prints this text.
fn tells<R: Threads + Sync + AllocGlobal>(
    rt: &R,
    config: &str,
    log: &str,
    line: &str,
    status: u8,
    text: &str,
) -> Result<bool, Fail> {
    let (ended, found) = run(rt, config, log, line)?;
    Ok(ended == status && found.as_slice() == text.as_bytes())
}

// The status of a run that is asked what these bytes tell, and whether it printed this text.
fn reads<R: Threads + Sync + AllocGlobal>(
    rt: &R,
    bytes: &[u8],
    text: &str,
) -> Result<(u8, bool), Fail> {
    let (status, found) = run_read(rt, bytes)?;
    Ok((status, found.as_slice() == text.as_bytes()))
}

#[test]
fn prints_the_frames_of_two_minutes(rt: HostRuntime) -> Result<(), Fail> {
    let log = clean_log(rt.alloc())?;
    let (status, text) = run(&rt, JJY, &log, HOUR)?;
    assert_eq!(rt; status, 0);
    let front = b"0 H\n8 L\n10 H\n12 L\n";
    let end = b"\n119990 H\n119998 L\n";
    assert!(rt; has_lines(&text, 24_000, front, end));
    Ok(())
}

#[test]
fn reads_what_was_printed(rt: HostRuntime) -> Result<(), Fail> {
    let text = two_minutes(&rt)?;
    let (status, list) = run_read(&rt, &text)?;
    assert_eq!(rt; status, 0);
    let front = b"at 0 2024-06-10T06:16Z 0\nat 1000 2024-06-10T06:16Z 1\n";
    let end = b"\nat 119000 2024-06-10T06:17Z 59\n";
    assert!(rt; has_lines(&list, 120, front, end));
    Ok(())
}

// Whether a text has so many lines, this front and this end.
fn has_lines(text: &[u8], count: usize, front: &[u8], end: &[u8]) -> bool {
    text.iter().filter(|byte| **byte == b'\n').count() == count
        && text.starts_with(front)
        && text.ends_with(end)
}

// The minutes of MSF from 2016-12-31T23:59Z on. The first of them has 61 seconds, of which the one behind second 16 is inserted.
const LEAP: [&str; 2] = [
    "M000000000000000000002022200002000002000000000000000002333320",
    "M00000000000000000002022200002000002000000000000000202333220",
];

// What frames of two minutes tell, of which the first has the leap second.
fn told_of_the_leap_second(alloc: Global) -> Result<String, AllocError> {
    let mut text = String::new(alloc);
    for second in 0..61u32 {
        write!(text, "at {} 2016-12-31T23:59Z {second}\n", 1_000 * second)?;
    }
    for second in 0..59u32 {
        write!(
            text,
            "at {} 2017-01-01T00:00Z {second}\n",
            61_000 + 1_000 * second
        )?;
    }
    Ok(text)
}

#[test]
fn prints_the_frame_of_a_leap_second(rt: HostRuntime) -> Result<(), Fail> {
    let log = heard(rt.alloc(), &MSF_WAVES, &LEAP)?;
    let line = "irig k.toml --seconds 120 --from 2016-12-31T23:50Z --to 2017-01-01T00:09Z";
    let (status, text) = run(&rt, MSF, &log, line)?;
    assert_eq!(rt; status, 0);
    let front = b"0 H\n8 L\n10 H\n12 L\n";
    let end = b"\n119990 H\n119998 L\n";
    assert!(rt; has_lines(&text, 24_000, front, end));
    let told = told_of_the_leap_second(rt.alloc())?;
    assert_eq!(rt; reads(&rt, &text, &told)?, (0, true));
    Ok(())
}

#[test]
fn refuses_the_first_bad_line(rt: HostRuntime) -> Result<(), Fail> {
    let text = two_minutes(&rt)?;
    for (place, was, byte, told) in [
        // Line 2 is `9 L`.
        (4, b'8', b'9', "frames: line 2: timing\n"),
        // Line 4 is `15 L`.
        (14, b'2', b'5', "frames: line 200: meaning\n"),
    ] {
        assert!(rt;
            tells_a_change(&rt, &text, place, was, byte, told)?,
            "{told}"
        );
    }
    // The last line, `119998 L`, is missing.
    let front = &text[..text.len().saturating_sub(9)];
    let told = "frames: line 24000: shape\n";
    assert_eq!(rt; reads(&rt, front, told)?, (10, true));
    Ok(())
}

// Whether a run over the text in which a byte is another than it was refuses it with this line.
fn tells_a_change<R: Threads + Sync + AllocGlobal>(
    rt: &R,
    text: &[u8],
    place: usize,
    was: u8,
    byte: u8,
    told: &str,
) -> Result<bool, Fail> {
    let mut changed = text.to_vec(rt.alloc())?;
    if changed.get(place).copied() != Some(was) {
        return Ok(false);
    }
    changed[place] = byte;
    Ok(reads(rt, &changed, told)? == (10, true))
}

#[test]
fn reads_a_text_without_frames(rt: HostRuntime) -> Result<(), Fail> {
    assert_eq!(rt; reads(&rt, b"", "")?, (0, true));
    Ok(())
}

#[test]
fn reads_no_more_than_the_limit(rt: HostRuntime) -> Result<(), Fail> {
    let large = vec![in rt.alloc(); b'7'; FRAMES_LIMIT as usize + 1]?;
    assert_eq!(rt; reads(&rt, &large, "frames: too large\n")?, (10, true));
    let whole = vec![in rt.alloc(); b'7'; FRAMES_LIMIT as usize]?;
    assert_eq!(rt; reads(&rt, &whole, "frames: line 1: shape\n")?, (10, true));
    Ok(())
}

#[test]
fn refuses_words(rt: HostRuntime) -> Result<(), Fail> {
    for (line, text) in [
        ("irig", "words: usage\n"),
        ("irig k.toml --leap 1", "words: usage\n"),
        ("irig k.toml --seconds 59", "words: bad --seconds\n"),
        ("irig-read", "words: usage\n"),
        ("irig-read f.txt --seconds 60", "words: usage\n"),
        ("irig-read -", "words: usage\n"),
        ("follow k.toml", "words: usage\n"),
        ("decode k.toml", "words: usage\n"),
    ] {
        assert!(rt; tells(&rt, JJY, "", line, 3, text)?, "{line}");
    }
    Ok(())
}

#[test]
fn reports_what_is_not_decided(rt: HostRuntime) -> Result<(), Fail> {
    let line = "irig k.toml --seconds 60 --from 2024-06-10T00:00Z --to 2024-06-10T00:01Z";
    let text =
        "undecided 0\nphase 0\nsequence 2024-06-10T00:00Z 0 no\nsequence 2024-06-10T00:01Z 0 no\n";
    assert!(rt; tells(&rt, JJY, "", line, 1, text)?);
    Ok(())
}

// Nothing but a sequence that fits is admitted, and the hour behind the minutes has none.
#[test]
fn reports_that_nothing_is_admitted(rt: HostRuntime) -> Result<(), Fail> {
    let config = "ceiling = 0\nstation = \"jjy\"\n[[receiver]]\nname = \"a\"\nlog = \"a.log\"\n";
    let log = clean_log(rt.alloc())?;
    let line = "irig k.toml --seconds 120 --from 2024-06-10T07:00Z --to 2024-06-10T07:09Z";
    assert!(rt; tells(&rt, config, &log, line, 2, "none\nphase 0\n")?);
    Ok(())
}

#[test]
fn refuses_a_configuration_and_a_log(rt: HostRuntime) -> Result<(), Fail> {
    for (config, log, status, text) in [
        ("", "", 4, "configuration: missing station\n"),
        (JJY, "5 H\n5 L\n", 5, "log 1 a: line 2: not rising\n"),
    ] {
        assert!(rt; tells(&rt, config, log, HOUR, status, text)?, "{text}");
    }
    Ok(())
}

// The configuration is read in two calls, the clean log in two, and each frame is written in one.
#[test]
fn ends_at_a_failing_file(rt: HostRuntime) -> Result<(), Fail> {
    let log = clean_log(rt.alloc())?;
    let whole = two_minutes(&rt)?;
    for call in [4, 5, 124] {
        assert!(rt; ends_at(&rt, &log, &whole, call)?, "call {call}");
    }
    Ok(())
}

// Whether a run whose call of this number fails ends with 6, and printed the text without its end.
fn ends_at<R: Threads + Sync + AllocGlobal>(
    rt: &R,
    log: &str,
    whole: &[u8],
    call: u64,
) -> Result<bool, Fail> {
    let mut files = files_of(rt.alloc(), JJY, log)?;
    files.fail(call)?;
    let words = words(rt.alloc(), HOUR)?;
    let status = irig(rt, rt.alloc(), &words, &mut files, &NoGate);
    let front = files.contents("-").unwrap_or(b"");
    Ok(status == 6 && front.len() < whole.len() && whole.starts_with(front))
}

// A text of frames is read in two calls, and what it tells is written in one.
#[test]
fn ends_at_a_failing_text(rt: HostRuntime) -> Result<(), Fail> {
    for call in 1..4 {
        assert!(rt; ends_at_the_text(&rt, call)?, "call {call}");
    }
    Ok(())
}

// Whether a run that reads frames, and whose call of this number fails, ends with 6 and prints nothing.
fn ends_at_the_text<R: Threads + Sync + AllocGlobal>(rt: &R, call: u64) -> Result<bool, Fail> {
    let mut files = MemoryFiles::make(rt.alloc());
    files.put("f.txt", b"0 L\n")?;
    files.fail(call)?;
    let words = words(rt.alloc(), "irig-read f.txt")?;
    let status = irig(rt, rt.alloc(), &words, &mut files, &NoGate);
    Ok(status == 6 && printed(&files, ""))
}

#[test]
fn ends_at_a_missing_file(rt: HostRuntime) -> Result<(), Fail> {
    for line in ["irig k.toml", "irig-read f.txt"] {
        assert!(rt; ends_without_files(&rt, line)?, "{line}");
    }
    Ok(())
}

// Whether a run without any file ends with 6 and prints nothing.
fn ends_without_files<R: Threads + Sync + AllocGlobal>(rt: &R, line: &str) -> Result<bool, Fail> {
    let mut files = MemoryFiles::make(rt.alloc());
    let words = words(rt.alloc(), line)?;
    let status = irig(rt, rt.alloc(), &words, &mut files, &NoGate);
    Ok(status == 6 && printed(&files, ""))
}

// Files that read and write a byte a call.
#[test]
fn prints_the_same_byte_by_byte(rt: HostRuntime) -> Result<(), Fail> {
    let whole = two_minutes(&rt)?;
    assert!(rt; prints_byte_by_byte(&rt, &whole)?);
    Ok(())
}

fn prints_byte_by_byte<R: Threads + Sync + AllocGlobal>(
    rt: &R,
    whole: &[u8],
) -> Result<bool, Fail> {
    let log = clean_log(rt.alloc())?;
    let words = words(rt.alloc(), HOUR)?;
    let inner = files_of(rt.alloc(), JJY, &log)?;
    let mut files = OneByte { inner };
    let status = irig(rt, rt.alloc(), &words, &mut files, &NoGate);
    Ok(status == 0 && files.inner.contents("-") == Some(whole))
}

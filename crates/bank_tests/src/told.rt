//! What is told of the seconds of a decided window, over files in memory, with ample memory. The texts are worked out by hand from
//! docs/FORMATS.md and the code descriptions.

ghost use Rattle.std.specs.Prelude.{◌≤◌};

use crate::made::{JJY, MINUTES, clean_log, files_of, files_of_two, printed, words};
use bank_files::MemoryFiles;
use heard::run;
use std::alloc::{AllocError, Global};
use std::process::Abort;
use std::test::Fail;
use std::thread::Threads;
use workers::NoGate;

// The hour of the two minutes.
const HOUR: &str = "k.toml --seconds 120 --from 2024-06-10T06:00Z --to 2024-06-10T06:59Z";

// The log of a receiver that hears the two minutes from millisecond 0 on. In second 3 it hears the start 100 ms late, and in
// second 4 it doesn't know the last tenth.
fn disturbed_log(alloc: Global) -> Result<String, AllocError> {
    let mut text = String::new(alloc);
    push_disturbed(&mut text)?;
    Ok(text)
}

// Adds its records.
fn push_disturbed(text: &mut String) -> Result<(), AllocError> {
    let mut second = 0u64;
    for minute in MINUTES {
        for symbol in minute.bytes() {
            // Never reached: it bounds the sums.
            if second >= 1000 {
                return Ok(());
            }
            push_second(text, symbol, second)?;
            second += 1;
        }
    }
    text.push_str("120000 H\n")
}

fn push_second(text: &mut String, symbol: u8, second: u64) -> Result<(), AllocError>
    requires { second ≤ 1000 }
{
    let high = match symbol {
        b'0' => 800,
        b'1' => 500,
        _ => 200,
    };
    let begin = 1000 * second;
    let late = if second == 3 { 100 } else { 0 };
    let end = begin + high;
    let start = begin + late;
    write!(text, "{start} H\n{end} L\n")?;
    if second == 4 {
        let unknown = begin + 900;
        write!(text, "{unknown} X\n")?;
    }
    Ok(())
}

// A configuration and the disturbed log a.log.
fn disturbed(alloc: Global, config: &str) -> Result<MemoryFiles, Fail> {
    let log = disturbed_log(alloc)?;
    files_of(alloc, config, &log)
}

// What is told of the disturbed log: 100 ms of second 3 are low where a 1 is high.
fn told(alloc: Global) -> Result<String, AllocError> {
    let mut text = String::new(alloc);
    push_told(&mut text)?;
    Ok(text)
}

fn push_told(text: &mut String) -> Result<(), AllocError> {
    let mut slot = 0u32;
    for i in 0..2usize {
        for symbol in MINUTES[i].chars() {
            push_slot(text, 16 + i, slot, symbol)?;
            slot = slot.wrapping_add(1);
        }
    }
    text.push_str("sum receiver 1 unknown 1 cost 100\nnext 1300\n")
}

fn push_slot(text: &mut String, minute: usize, slot: u32, symbol: char) -> Result<(), AllocError> {
    let second = slot % 60;
    let cost = if slot == 3 { 100 } else { 0 };
    let unknown = if slot == 4 { 1 } else { 0 };
    write!(
        text,
        "slot {slot} 2024-06-10T06:{minute}Z {second} jjy sent {symbol} cost {cost} best {symbol} cost {cost}\nreceiver 1 unknown {unknown} cost {cost}\n"
    )
}

// The status that a run of `heard` for the words of this line ends with.
fn status_of<R: Threads + Sync + AllocGlobal>(
    rt: &R,
    files: &mut MemoryFiles,
    line: &str,
) -> Result<u8, Fail> {
    let words = words(rt.alloc(), line)?;
    Ok(run(rt, rt.alloc(), &words, files, &NoGate))
}

// Tells whether such a run ends with this status and prints this text.
fn tells<R: Threads + Sync + AllocGlobal>(
    rt: &R,
    files: &mut MemoryFiles,
    line: &str,
    status: u8,
    text: &str,
) -> Result<bool, Fail> {
    let ended = status_of(rt, files, line)?;
    Ok(ended == status && printed(files, text))
}

#[test]
fn tells_two_minutes(rt: HostRuntime) -> Result<(), Fail> {
    let mut files = disturbed(rt.alloc(), JJY)?;
    let text = told(rt.alloc())?;
    assert!(rt; tells(&rt, &mut files, HOUR, 0, &text)?);
    Ok(())
}

// Receivers of two stations in mixed order, of which the second and the third heard nothing.
const THREE: &str =
    "station = \"jjy\"\n[[receiver]]\nname = \"a\"\nlog = \"a.log\"\n[[receiver]]\nname = \"b\"\nlog = \"b.log\"\nstation = \"dcf77\"\n[[receiver]]\nname = \"c\"\nlog = \"b.log\"\n";

// Each minute of DCF77 begins with a 0.
const FIRST: &str =
    "slot 0 2024-06-10T06:16Z 0 dcf77 sent 0 cost 0 best 0 cost 0\nreceiver 2 unknown 10 cost 0\nslot 0 2024-06-10T06:16Z 0 jjy sent M cost 0 best M cost 0\nreceiver 1 unknown 0 cost 0\nreceiver 3 unknown 10 cost 0\n";

const LAST: &str =
    "sum receiver 1 unknown 1 cost 100\nsum receiver 2 unknown 1200 cost 0\nsum receiver 3 unknown 1200 cost 0\nnext 1300\n";

fn files_of_three(alloc: Global) -> Result<MemoryFiles, Fail> {
    let mut files = disturbed(alloc, THREE)?;
    files.put("b.log", b"")?;
    Ok(files)
}

#[test]
fn numbers_receivers_as_the_configuration_does(rt: HostRuntime) -> Result<(), Fail> {
    let mut files = files_of_three(rt.alloc())?;
    assert_eq!(rt; status_of(&rt, &mut files, HOUR)?, 0);
    are_numbered(&rt, &files);
    Ok(())
}

fn are_numbered(rt: &impl Abort, files: &MemoryFiles) {
    assert!(rt;
        files
            .contents("-")
            .is_some_and(|found| found.starts_with(FIRST.as_bytes()))
    );
    assert!(rt;
        files
            .contents("-")
            .is_some_and(|found| found.ends_with(LAST.as_bytes()))
    );
}

// Two receivers: a second costs the first 150 at the most, and the second, by a table of its own, 60, three times.
const BOUNDED: &str =
    "station = \"jjy\"\n[table]\nsecond = 150\n[[receiver]]\nname = \"a\"\nlog = \"a.log\"\n[[receiver]]\nname = \"b\"\nlog = \"b.log\"\nweight = 3\n[receiver.table]\nsecond = 60\n";

// The first minute, but that in second 3, which is a 1, the first receiver heard a 0 and the second an M.
fn files_of_bounded(alloc: Global) -> Result<MemoryFiles, Fail> {
    let minute = MINUTES[0];
    let first = minute.replacen(alloc, "M001", "M000", 1)?;
    let second = minute.replacen(alloc, "M001", "M00M", 1)?;
    let log = clean_log(alloc, &[&first], 0)?;
    let other = clean_log(alloc, &[&second], 0)?;
    files_of_two(alloc, BOUNDED, &log, &other)
}

// What is told of them. In second 3 another symbol than was heard costs the first receiver 150 and the second 60, which counts 180.
fn told_of_bounded(alloc: Global, next: &str) -> Result<String, AllocError> {
    let mut text = String::new(alloc);
    let mut slot = 0u32;
    for symbol in MINUTES[0].chars() {
        let (cost, best, least, first, second) = match slot {
            3 => (330, 'M', 150, 150, 180),
            _ => (0, symbol, 0, 0, 0),
        };
        write!(
            text,
            "slot {slot} 2024-06-10T06:16Z {slot} jjy sent {symbol} cost {cost} best {best} cost {least}\nreceiver 1 unknown 0 cost {first}\nreceiver 2 unknown 0 cost {second}\n"
        )?;
        slot = slot.wrapping_add(1);
    }
    write!(
        text,
        "sum receiver 1 unknown 0 cost 150\nsum receiver 2 unknown 0 cost 180\nnext {next}\n"
    )?;
    Ok(text)
}

// Tells whether this is told of them under this ceiling, and this cost as the next.
fn tells_of_bounded<R: Threads + Sync + AllocGlobal>(
    rt: &R,
    ceiling: u32,
    next: &str,
) -> Result<bool, Fail> {
    let mut files = files_of_bounded(rt.alloc())?;
    let config = format!(in rt.alloc(); "ceiling = {ceiling}\n{BOUNDED}")?;
    files.put("k.toml", config.as_bytes())?;
    let text = told_of_bounded(rt.alloc(), next)?;
    let line = "k.toml --seconds 60 --from 2024-06-10T06:00Z --to 2024-06-10T06:59Z";
    tells(rt, &mut files, line, 0, &text)
}

// 06:06 tells a 0 in second 3, which costs 180 there, and another parity, which costs 150 and 180.
#[test]
fn tells_what_bounded_seconds_cost(rt: HostRuntime) -> Result<(), Fail> {
    for (ceiling, next) in [(510, "510"), (509, "none")] {
        assert!(rt; tells_of_bounded(&rt, ceiling, next)?, "{ceiling}");
    }
    Ok(())
}

// Files whose log was emptied.
fn emptied(alloc: Global) -> Result<MemoryFiles, Fail> {
    let mut files = disturbed(alloc, JJY)?;
    files.put("a.log", b"")?;
    Ok(files)
}

#[test]
fn reports_a_tie(rt: HostRuntime) -> Result<(), Fail> {
    let mut files = emptied(rt.alloc())?;
    assert!(rt;
        tells(
            &rt,
            &mut files,
            "k.toml --seconds 60 --from 2024-06-10T00:00Z --to 2024-06-10T00:01Z",
            1,
            "undecided 0\nphase 0\nsequence 2024-06-10T00:00Z 0 no\nsequence 2024-06-10T00:01Z 0 no\n",
        )?
    );
    Ok(())
}

// Tells whether a run over no files refuses this line with this text.
fn refuses<R: Threads + Sync + AllocGlobal>(rt: &R, line: &str, text: &str) -> Result<bool, Fail> {
    let mut files = MemoryFiles::make(rt.alloc());
    tells(rt, &mut files, line, 3, text)
}

const REFUSED_LINES: [(&str, &str); 4] = [
    ("decode k.toml", "words: usage\n"),
    ("k.toml --workers 2", "words: usage\n"),
    ("k.toml --seconds 59 --certificate x", "words: usage\n"),
    ("k.toml --seconds 59", "words: bad --seconds\n"),
];

#[test]
fn refuses_words(rt: HostRuntime) -> Result<(), Fail> {
    for (line, text) in REFUSED_LINES {
        assert!(rt; refuses(&rt, line, text)?, "{line}");
    }
    Ok(())
}

// Tells whether a run over the disturbed log ends as a file fails at this call, and has printed this text.
fn ends_at<R: Threads + Sync + AllocGlobal>(rt: &R, call: u64, text: &str) -> Result<bool, Fail> {
    let mut files = files_that_fail(rt.alloc(), call)?;
    tells(rt, &mut files, HOUR, 6, text)
}

fn files_that_fail(alloc: Global, call: u64) -> Result<MemoryFiles, Fail> {
    let mut files = disturbed(alloc, JJY)?;
    files.fail(call)?;
    Ok(files)
}

// The configuration is read in two calls, the log in two, and each slot is written in one. What was written before a call
// that fails stays.
const FAILING_CALLS: [(u64, &str); 4] = [
    (2, ""),
    (4, ""),
    (5, ""),
    (
        7,
        "slot 0 2024-06-10T06:16Z 0 jjy sent M cost 0 best M cost 0\nreceiver 1 unknown 0 cost 0\nslot 1 2024-06-10T06:16Z 1 jjy sent 0 cost 0 best 0 cost 0\nreceiver 1 unknown 0 cost 0\n",
    ),
];

#[test]
fn ends_at_a_failing_file(rt: HostRuntime) -> Result<(), Fail> {
    for (call, text) in FAILING_CALLS {
        assert!(rt; ends_at(&rt, call, text)?, "call {call}");
    }
    Ok(())
}

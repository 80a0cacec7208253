//! What runs over files in memory are given, and how it is told what they print.

ghost use Rattle.std.specs.Prelude.{◌≤◌};

use bank::{CertificateGate, run};
use bank_files::{Files, MemoryFiles};
use std::alloc::{AllocError, Global};
use std::test::Fail;
use std::thread::Threads;
use workers::{Gate, NoGate};

// The words of a line that parts them by spaces.
pub(crate) fn words(alloc: Global, line: &str) -> Result<Vec<String>, AllocError> {
    let mut words = Vec::new(alloc);
    for word in line.split(' ') {
        words.push(word.to_string(alloc)?)?;
    }
    Ok(words)
}

// The status that a run of `bank` for the words of this line ends with.
pub(crate) fn status_of<
    R: Threads + Sync + AllocGlobal,
    F: Files,
    G: Gate + CertificateGate + Sync,
>(rt: &R, files: &mut F, line: &str, gate: &G) -> Result<u8, Fail> {
    let words = words(rt.alloc(), line)?;
    Ok(run(rt, rt.alloc(), &words, files, gate))
}

// Tells whether such a run ends with this status and prints this text.
pub(crate) fn tells<R: Threads + Sync + AllocGlobal>(
    rt: &R,
    files: &mut MemoryFiles,
    line: &str,
    status: u8,
    text: &str,
) -> Result<bool, Fail> {
    let ended = status_of(rt, files, line, &NoGate)?;
    Ok(ended == status && printed(files, text))
}

// The same of a run over a configuration and its log a.log.
pub(crate) fn tells_over<R: Threads + Sync + AllocGlobal>(
    rt: &R,
    config: &str,
    log: &str,
    line: &str,
    status: u8,
    text: &str,
) -> Result<bool, Fail> {
    let mut files = files_of(rt.alloc(), config, log)?;
    tells(rt, &mut files, line, status, text)
}

// And over the log of a receiver that hears the two minutes from millisecond 0 on.
pub(crate) fn tells_minutes<R: Threads + Sync + AllocGlobal>(
    rt: &R,
    config: &str,
    line: &str,
    status: u8,
    text: &str,
) -> Result<bool, Fail> {
    let log = clean_log(rt.alloc(), &MINUTES, 0)?;
    tells_over(rt, config, &log, line, status, text)
}

pub(crate) fn printed(files: &MemoryFiles, text: &str) -> bool {
    files
        .contents("-")
        .is_some_and(|found| found == text.as_bytes())
}

// The two minutes from 2024-06-10T06:16Z on, as JJY sends them.
pub(crate) const MINUTES: [&str; 2] = [
    "M00100110M000100101M000100110M001000110M000100100M001000000M",
    "M00100111M000100101M000100110M001000100M000100100M001000000M",
];

// Adds a record, where the level changes.
pub(crate) fn push_record(text: &mut String, ms: u64, level: &str) -> Result<(), AllocError> {
    write!(text, "{ms} {level}\n")
}

// The log of a receiver that hears minutes of JJY from this millisecond on.
pub(crate) fn clean_log(alloc: Global, minutes: &[&str], late: u64) -> Result<String, AllocError>
    requires { late ≤ 1000 }
{
    let mut text = String::new(alloc);
    push_minutes(&mut text, minutes, late)?;
    Ok(text)
}

// Adds its records.
fn push_minutes(text: &mut String, minutes: &[&str], late: u64) -> Result<(), AllocError>
    requires { late ≤ 1000 }
{
    push_record(text, late, "H")?;
    let mut second = 0u64;
    for minute in minutes {
        for symbol in minute.bytes() {
            // Never reached: it bounds the sums.
            if second >= 1000 {
                return Ok(());
            }
            push_second(text, symbol, late, second)?;
            second += 1;
        }
    }
    push_record(text, late + 1000 * second.min(1000), "H")
}

fn push_second(text: &mut String, symbol: u8, late: u64, second: u64) -> Result<(), AllocError>
    requires late { late ≤ 1000 }
    requires second { second ≤ 1000 }
{
    let low = match symbol {
        b'0' => 800,
        b'1' => 500,
        _ => 200,
    };
    if second > 0 {
        push_record(text, late + 1000 * second, "H")?;
    }
    push_record(text, late + 1000 * second + low, "L")
}

// A station with its one receiver, named a, whose log is a.log.
pub(crate) const JJY: &str = "station = \"jjy\"\n[[receiver]]\nname = \"a\"\nlog = \"a.log\"\n";

pub(crate) const DCF77: &str = "station = \"dcf77\"\n[[receiver]]\nname = \"a\"\nlog = \"a.log\"\n";

// A receiver of JJY, and behind it one of DCF77.
pub(crate) const TWO_STATIONS: &str =
    "station = \"jjy\"\n[[receiver]]\nname = \"a\"\nlog = \"a.log\"\n[[receiver]]\nname = \"b\"\nlog = \"b.log\"\nstation = \"dcf77\"\n";

// The report of the clean log, by hand.
pub(crate) const REPORT: &str =
    "decided 0\nphase 0\nsequence 2024-06-10T06:16Z 0 no\nnext 1200\nminute 2024-06-10T06:16Z at 0\nminute 2024-06-10T06:17Z at 60000\n";

// The sentences of the clean log.
pub(crate) const SENTENCES: &str =
    "$GPZDA,061600.00,10,06,2024,00,00*64\r\n$GPZDA,061700.00,10,06,2024,00,00*65\r\n";

// A configuration and its log a.log.
pub(crate) fn files_of(alloc: Global, config: &str, log: &str) -> Result<MemoryFiles, Fail> {
    let mut files = MemoryFiles::make(alloc);
    files.put("k.toml", config.as_bytes())?;
    files.put("a.log", log.as_bytes())?;
    Ok(files)
}

// The same, where the log is that of the two minutes.
pub(crate) fn files_of_minutes(alloc: Global, config: &str) -> Result<MemoryFiles, Fail> {
    let log = clean_log(alloc, &MINUTES, 0)?;
    files_of(alloc, config, &log)
}

// A configuration and its logs a.log and b.log.
pub(crate) fn files_of_two(
    alloc: Global,
    config: &str,
    log: &str,
    other: &str,
) -> Result<MemoryFiles, Fail> {
    let mut files = files_of(alloc, config, log)?;
    files.put("b.log", other.as_bytes())?;
    Ok(files)
}

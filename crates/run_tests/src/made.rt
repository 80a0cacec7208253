//! What runs over files in memory are given, and how it is told what they print.

use bank_files::MemoryFiles;
use std::alloc::{AllocError, Global};
use std::test::Fail;

// The words of a line that parts them by spaces.
pub(crate) fn words(alloc: Global, line: &str) -> Result<Vec<String>, AllocError> {
    let mut words = Vec::new(alloc);
    for word in line.split(' ') {
        words.push(word.to_string(alloc)?)?;
    }
    Ok(words)
}

pub(crate) fn printed(files: &MemoryFiles, text: &str) -> bool {
    files
        .contents("-")
        .is_some_and(|found| found == text.as_bytes())
}

// A station with its one receiver, named a, whose log is a.log.
pub(crate) const JJY: &str = "station = \"jjy\"\n[[receiver]]\nname = \"a\"\nlog = \"a.log\"\n";

pub(crate) const DCF77: &str = "station = \"dcf77\"\n[[receiver]]\nname = \"a\"\nlog = \"a.log\"\n";

pub(crate) const MSF: &str = "station = \"msf\"\n[[receiver]]\nname = \"a\"\nlog = \"a.log\"\n";

// What is low and high in the ten tenths of a second, by symbol.
pub(crate) const JJY_WAVES: [(u8, &str); 3] = [
    (b'0', "HHHHHHHHLL"),
    (b'1', "HHHHHLLLLL"),
    (b'M', "HHLLLLLLLL"),
];

pub(crate) const DCF77_WAVES: [(u8, &str); 3] = [
    (b'0', "LHHHHHHHHH"),
    (b'1', "LLHHHHHHHH"),
    (b'-', "HHHHHHHHHH"),
];

pub(crate) const MSF_WAVES: [(u8, &str); 5] = [
    (b'0', "LHHHHHHHHH"),
    (b'1', "LHLHHHHHHH"),
    (b'2', "LLHHHHHHHH"),
    (b'3', "LLLHHHHHHH"),
    (b'M', "LLLLLHHHHH"),
];

pub(crate) const WWVB_WAVES: [(u8, &str); 3] = [
    (b'0', "LLHHHHHHHH"),
    (b'1', "LLLLLHHHHH"),
    (b'M', "LLLLLLLLHH"),
];

// How many tenths a log has at most.
const MOST_TENTHS: u64 = 12_000;

fn wave_of(waves: &[(u8, &'static str)], symbol: u8) -> &'static str {
    for wave in waves {
        if wave.0 == symbol {
            return wave.1;
        }
    }
    "XXXXXXXXXX"
}

fn name_of(level: u8) -> &'static str {
    match level {
        b'L' => "L",
        b'H' => "H",
        _ => "X",
    }
}

// The log of a receiver without noise that hears these minutes from millisecond 0 on.
pub(crate) fn heard(
    alloc: Global,
    waves: &[(u8, &'static str)],
    minutes: &[&str],
) -> Result<String, AllocError> {
    let mut text = String::new(alloc);
    let mut tenth = 0u64;
    let mut last = b'-';
    for minute in minutes {
        for symbol in minute.bytes() {
            for level in wave_of(waves, symbol).bytes() {
                // Never reached: it bounds the sums.
                if tenth >= MOST_TENTHS {
                    return Ok(text);
                }
                if level != last {
                    let name = name_of(level);
                    write!(text, "{} {name}\n", 100 * tenth)?;
                }
                last = level;
                tenth += 1;
            }
        }
    }
    write!(text, "{} X\n", 100 * tenth.min(MOST_TENTHS))?;
    Ok(text)
}

// The three minutes from 2024-06-10T06:16Z on, as JJY sends them.
pub(crate) const MINUTES: [&str; 3] = [
    "M00100110M000100101M000100110M001000110M000100100M001000000M",
    "M00100111M000100101M000100110M001000100M000100100M001000000M",
    "M00101000M000100101M000100110M001000100M000100100M001000000M",
];

// A configuration and its log a.log.
pub(crate) fn files_of(alloc: Global, config: &str, log: &str) -> Result<MemoryFiles, Fail> {
    let mut files = MemoryFiles::make(alloc);
    files.put("k.toml", config.as_bytes())?;
    files.put("a.log", log.as_bytes())?;
    Ok(files)
}

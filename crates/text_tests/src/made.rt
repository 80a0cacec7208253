//! What several modules go by: a log that is read, windows and sequences, and files that fail.

ghost use Rattle.std.specs.Prelude.{◌≡◌};

use bank_files::{MemoryFiles, OUTPUT};
use civil::parse_minute;
use definitions::CENTURY_MINUTES;
use formats::LOG_LIMIT;
use pulse_log::{Log, LogFault, read_log};
use sequence::Sequence;
use signal_base::{Station, Stations, Window};
use std::alloc::Global;
use std::process::Abort;
use std::test::Fail;

// The log of a text that isn't too long for one.
pub(crate) fn log_in(rt: &(impl Abort + AllocGlobal), text: &[u8]) -> Result<Log, LogFault> {
    assert!(rt; text.len() as u64 <= LOG_LIMIT);
    read_log(rt.alloc(), text)
}

// The last minute of June 2015, 23:59 of the 5,659th day after 2000-01-01.
pub(crate) const JUNE_2015: u32 = 5_659 * 1_440 + 1_439;

// So many seconds of JJY, from any minute of the century on.
pub(crate) fn window_of(seconds: u16) -> Window
    ensures { result.seconds ≡ seconds }
{
    Window {
        stations: Stations::one(Station::Jjy),
        start: 0,
        phase: 0,
        seconds,
        from: 0,
        to: CENTURY_MINUTES,
    }
}

// The sequence from a second of a minute on.
pub(crate) fn sequence_from(minute: &str, second: u8, announced: bool) -> Option<Sequence> {
    Some(Sequence {
        first: parse_minute(minute)?,
        second,
        announced,
    })
}

// Files of which only the first call succeeds.
pub(crate) fn one_call(alloc: Global) -> Result<MemoryFiles, Fail> {
    let mut files = MemoryFiles::make(alloc);
    for call in [2, 3, 4] {
        files.fail(call)?;
    }
    Ok(files)
}

pub(crate) fn printed(files: &MemoryFiles, text: &str) -> bool {
    files
        .contents(OUTPUT)
        .is_some_and(|bytes| bytes == text.as_bytes())
}

// The two parts of a row of a table.
pub(crate) fn parted<'a>(rt: &impl Abort, row: &'a str) -> (&'a str, &'a str) {
    match row.split_once('|') {
        Some(parts) => parts,
        None => panic!(rt; "no row: {row}"),
    }
}

// Ends a test where what is due of a row isn't so. Its text is proved here alone, and not in each test.
pub(crate) fn check_row(rt: &impl Abort, is_so: bool, row: &str) {
    assert!(rt; is_so, "at '{row}'");
}

// The same of what has a number.
pub(crate) fn check_at(rt: &impl Abort, is_so: bool, number: u64) {
    assert!(rt; is_so, "at {number}");
}

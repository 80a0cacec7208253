//! Reading a log's text.

ghost use Rattle.std.specs.Prelude.{◌≡◌, ℕ, ◌≤◌, ◌<◌, ◌↔◌, length, IsTrue, IfOk, IfErr};
ghost use Rattle.definitions.specs.heard.Logs.{Records};
ghost use Rattle.formats.specs.declared.fault.LineFault.{LineFault as Fault};
ghost use Rattle.formats.specs.LogLines.{IsLater, IsLog, IsRefused};
ghost use Rattle.pulse_log.specs.Reading.{HasReadLog, HasRefusedLine, IsFaultOf};

use crate::line::{Line, first_line, line_says};
use crate::{Log, LogFault};
use definitions::Level;
use formats::{LOG_LIMIT, MOST_RECORDS, log_has_one_outcome};
use std::alloc::Global;

// Whether the time is above that of the last record.
fn is_later(records: &[(u64, Level)], time: u64) -> bool
    ensures { IsTrue result ↔ IsLater records.now time }
{
    match records.split_last() {
        Some((last, _)) => last.0 < time,
        None => true,
    }
}

// The records of the text.
fn read_records(alloc: Global, bytes: &[u8]) -> Result<Vec<(u64, Level)>, LogFault>
    requires { length bytes.now ≤ LOG_LIMIT }
    ensures accepted { IfOk result (λ records. IsLog bytes.now records.items) }
    ensures refused { IfErr result (λ fault. IsFaultOf bytes.now fault) }
{
    let mut records = Vec::new(alloc);
    let mut rest = bytes;
    let mut number = 0;
    while !rest.is_empty() {
        let (line, more) = first_line(rest);
        rest = more;
        number += 1;
        match line_says(line) {
            Line::Skipped => {}
            Line::Malformed => return Err(LogFault::Shape { line: number }),
            Line::Record(time, level) => {
                if !is_later(records.as_slice(), time) {
                    return Err(LogFault::NotRising { line: number });
                }
                if records.len() >= MOST_RECORDS {
                    return Err(LogFault::TooManyRecords { line: number });
                }
                records.push((time, level))?;
            }
        }
    }
    Ok(records)
}

/// Reads a log's text, of at most 8,000,000 bytes. The first bad line decides; on one line `Shape` goes before
/// `NotRising`, and that before `TooManyRecords`. `NoMemory` comes only for want of memory.
pub fn read_log(alloc: Global, bytes: &[u8]) -> Result<Log, LogFault>
    requires { length bytes.now ≤ LOG_LIMIT }

    // What is read is a log of these records; a fault names the first bad line and says how it is bad.
    ensures accepted { IfOk result (λ log. IsLog bytes.now log) }
    ensures refused { IfErr result (λ fault. IsFaultOf bytes.now fault) }

    // Each log is read and each other text is refused for its first bad line, unless memory runs out.
    ensures every_log { (log : Records) → IsLog bytes.now log → HasReadLog result log }
    ensures every_fault { (line : ℕ) (fault : Fault) → IsRefused bytes.now line fault → HasRefusedLine result line fault }
{
    log_has_one_outcome();
    Ok(Log::of_records(read_records(alloc, bytes)?))
}

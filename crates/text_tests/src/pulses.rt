//! Worked logs, and what becomes of each.

use crate::made::{check_at, check_row, log_in};
use formats::LOG_LIMIT;
use pulse_log::{Level, Log, LogFault};
use std::alloc::{AllocError, Global};
use std::process::Abort;
use std::test::Fail;

// A text of this many records, `0 H` to `n - 1 H`.
fn records_text(alloc: Global, n: u32) -> Result<String, AllocError> {
    let mut text = String::new(alloc);
    for time in 0..n {
        write!(text, "{time} H\n")?;
    }
    Ok(text)
}

// What is wrong with a text.
fn fault_in(rt: &(impl Abort + AllocGlobal), text: &[u8]) -> Option<LogFault> {
    log_in(rt, text).err()
}

fn fault_of_records(
    rt: &(impl Abort + AllocGlobal),
    n: u32,
) -> Result<Option<LogFault>, AllocError> {
    let many = records_text(rt.alloc(), n)?;
    Ok(fault_in(rt, many.as_bytes()))
}

fn fault_of_digits(
    rt: &(impl Abort + AllocGlobal),
    count: usize,
) -> Result<Option<LogFault>, AllocError> {
    let digits = vec![in rt.alloc(); b'7'; count]?;
    Ok(fault_in(rt, &digits))
}

const SHAPE: LogFault = LogFault::Shape { line: 1 };

const REFUSED: [(&str, LogFault); 9] = [
    ("12 L\n12 H\n", LogFault::NotRising { line: 2 }),
    ("0 H\n0 L\n", LogFault::NotRising { line: 2 }),
    ("# x\n\n5 H\n4 Q", LogFault::Shape { line: 4 }),
    ("012 L\n", SHAPE),
    ("1000000000000 H\n", SHAPE),
    ("5  H\n", SHAPE),
    ("5 h\n", SHAPE),
    ("+5 H\n", SHAPE),
    ("5 H\r\r\n", SHAPE),
];

#[test]
fn refuses_the_first_bad_line(rt: HostRuntime) -> Result<(), Fail> {
    for (text, fault) in &REFUSED {
        check_row(&rt, fault_in(&rt, text.as_bytes()) == Some(*fault), text);
    }
    assert!(rt; fault_of_digits(&rt, 7_999_999)? == Some(SHAPE));
    let too_many = Some(LogFault::TooManyRecords { line: 200_001 });
    assert!(rt; fault_of_records(&rt, 200_001)? == too_many);
    Ok(())
}

fn has_records(rt: &impl Abort, log: &Log, records: &[(u64, Level)]) {
    assert!(rt; log.len() == records.len());
    for i in 0..log.len() {
        check_at(rt, Some(log.entry(i)) == records.get(i).copied(), i as u64);
    }
}

fn reads(
    rt: &(impl Abort + AllocGlobal),
    text: &[u8],
    records: &[(u64, Level)],
) -> Result<(), LogFault> {
    let log = log_in(rt, text)?;
    has_records(rt, &log, records);
    Ok(())
}

// A comment that is as long as a log may be has no records.
fn reads_a_comment(rt: &(impl Abort + AllocGlobal)) -> Result<(), Fail> {
    let comment = vec![in rt.alloc(); b'#'; LOG_LIMIT as usize]?;
    reads(rt, &comment, &[])?;
    Ok(())
}

#[test]
fn reads_each_log(rt: HostRuntime) -> Result<(), Fail> {
    reads(&rt, b"5 H\r\n7 L", &[(5, Level::High), (7, Level::Low)])?;
    reads(
        &rt,
        b"#\xff\n\r\n999999999999 H\n",
        &[(999_999_999_999, Level::High)],
    )?;
    reads_a_comment(&rt)?;
    Ok(())
}

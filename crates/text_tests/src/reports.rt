//! What no clause says of the texts: how they look, and that each is one append, so that a reader who stops after the
//! first line makes no fault.

use crate::made::{JUNE_2015, one_call, printed, window_of};
use bank_files::{Failed, MemoryFiles};
use civil::Civil;
use formats::{LineFault, Name, Refusal};
use sequence::{Answer, Sequence};
use std::process::Abort;
use std::test::Fail;
use texts::{write_refusal, write_report};

// What is reported where two sequences cost the least.
const UNDECIDED: &str =
    "undecided 0\nphase 0\nsequence 2015-06-30T23:59Z 29 no\nsequence 2015-06-30T23:59Z 30 yes\n";

fn reports_once(rt: &impl Abort, files: &mut MemoryFiles, civil: &Civil) {
    let window = window_of(60);
    let sequence = Sequence {
        first: JUNE_2015,
        second: 29,
        announced: false,
    };
    let other = Sequence {
        first: JUNE_2015,
        second: 30,
        announced: true,
    };
    let answer = Answer::Undecided {
        cost: 0,
        sequence,
        other,
    };
    let first = write_report(files, civil, &window, &answer, &[]);
    assert!(rt; first == Ok(()) && printed(files, UNDECIDED));
    let second = write_report(files, civil, &window, &answer, &[]);
    assert!(rt; second == Err(Failed));
}

#[test]
fn a_report_is_one_append(rt: HostRuntime) -> Result<(), Fail> {
    let civil = Civil::make(rt.alloc())?;
    let mut files = one_call(rt.alloc())?;
    reports_once(&rt, &mut files, &civil);
    Ok(())
}

fn refuses_once(rt: &impl Abort, files: &mut MemoryFiles) {
    let refusal = Refusal::LogLine {
        receiver: 1,
        name: Name::new("a"),
        line: 2,
        fault: LineFault::NotRising,
    };
    let first = write_refusal(files, &refusal);
    assert!(rt; first == Ok(()) && printed(files, "log 1 a: line 2: not rising\n"));
    let second = write_refusal(files, &refusal);
    assert!(rt; second == Err(Failed));
}

#[test]
fn a_refusal_is_one_append(rt: HostRuntime) -> Result<(), Fail> {
    let mut files = one_call(rt.alloc())?;
    refuses_once(&rt, &mut files);
    Ok(())
}

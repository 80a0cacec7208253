//! Summaries of a trial with each kind of answer.

ghost use Rattle.definitions.specs.sequences.Walks.{IsSequence};
ghost use Rattle.texts.specs.Reportable.{NamesSequences};

use crate::made::{JUNE_2015, one_call};
use bank_files::OUTPUT;
use civil::Civil;
use sequence::{Answer, Sequence};
use signal_base::Station;
use std::alloc::Global;
use std::process::Abort;
use std::test::Fail;
use texts::write_trial;

// The beginning of each summary.
const SENT: &str = "trial 5\nstation msf\nreceivers 2\nsent 2009-07-04T05:35Z 5 no\n";

// What the trial of number 5 sends: from 05:35 of the 3,472nd day after 2000-01-01 on.
fn sent() -> Sequence
    ensures { IsSequence result }
{
    Sequence {
        first: 3_472 * 1_440 + 335,
        second: 5,
        announced: false,
    }
}

// From the leap second of June 2015 on.
fn from_leap_second() -> Sequence
    ensures { IsSequence result }
{
    Sequence {
        first: JUNE_2015,
        second: 60,
        announced: true,
    }
}

// The summary of an answer has these lines behind its beginning, and is one append.
fn is_summed_up(alloc: Global, civil: &Civil, answer: &Answer, lines: &str) -> Result<bool, Fail>
    requires { NamesSequences answer.now }
{
    let mut files = one_call(alloc)?;
    let written = write_trial(&mut files, civil, 5, Station::Msf, 2, &sent(), answer);
    let text = files
        .contents(OUTPUT)
        .and_then(|bytes| bytes.strip_prefix(SENT.as_bytes()));
    Ok(written == Ok(()) && text == Some(lines.as_bytes()))
}

fn check_summaries(rt: &(impl Abort + AllocGlobal), civil: &Civil) -> Result<(), Fail> {
    let decided = Answer::Decided {
        cost: 17,
        sequence: sent(),
        next: Some(400),
    };
    let undecided = Answer::Undecided {
        cost: 17,
        sequence: sent(),
        other: from_leap_second(),
    };
    let first = "decided\nfirst 2009-07-04T05:35Z 5 no\n";
    let two = "undecided\nfirst 2009-07-04T05:35Z 5 no\nother 2015-06-30T23:59Z 60 yes\n";
    assert!(rt; is_summed_up(rt.alloc(), civil, &decided, first)?);
    assert!(rt; is_summed_up(rt.alloc(), civil, &undecided, two)?);
    assert!(rt; is_summed_up(rt.alloc(), civil, &Answer::Nothing, "none\n")?);
    Ok(())
}

#[test]
fn sums_up_trials(rt: HostRuntime) -> Result<(), Fail> {
    let civil = Civil::make(rt.alloc())?;
    check_summaries(&rt, &civil)
}

//! What no clause says: certificates of the century's last minutes, spoiled and cut into pieces. What is wrong with each text is
//! worked out by hand from docs/FORMATS.md.

ghost use Rattle.std.specs.Prelude.{◌≡◌, ◌<◌};
ghost use Rattle.definitions.specs.answers.Blocks.{items};

mod changes;
mod rows;
mod sizes;

use crate::checks::{Check, check_window};
use crate::last_minutes::{FROM, text_of};
use certificate_judge::{Checker, Outcome};
use definitions::{Block, CENTURY_MINUTES};
use field_tables::Tables;
use sample_grids::{dcf77, silent_grid};
use signal_base::Station;
use std::alloc::{AllocError, Global};
use std::test::Fail;

// What comes of some bytes, in pieces of this length.
fn outcome_of(tables: &Tables, list: &[Block], bytes: &[u8], piece: usize) -> Outcome
    requires items { list.now ≡ items tables.now.window }
    requires some { 0 < piece }
{
    let mut checker = Checker::make(tables, list, 1_920_000_000);
    for part in bytes.chunks(piece) {
        checker.push(part);
    }
    checker.finish()
}

// An outcome in a few words: the bad line, or the verdict.
fn told(alloc: Global, outcome: &Outcome) -> Result<String, AllocError> {
    match outcome {
        Outcome::TooLarge => format!(in alloc; "too large"),
        Outcome::Refused { line, fault } => format!(in alloc; "{line} {fault:?}"),
        Outcome::Judged {
            verdict,
            first: _,
            second: _,
        } => format!(in alloc; "{verdict:?}"),
    }
}

// The first row that isn't so, or else what other text isn't judged as it is to be.
pub(crate) fn first_wrong(
    alloc: Global,
    tables: &Tables,
    list: &[Block],
) -> Result<Option<&'static str>, Fail>
    requires items { list.now ≡ items tables.now.window }
{
    let text = text_of(alloc, 1)?;
    for rows in rows::ALL {
        let wrong = rows::first_wrong(alloc, tables, list, text.as_str(), rows)?;
        if wrong.is_some() {
            return Ok(wrong);
        }
    }
    if !changes::are_refused(tables, list, text.as_bytes()) {
        return Ok(Some("a byte is changed"));
    }
    if !sizes::are_told(alloc, tables, list)? {
        return Ok(Some("a text is large"));
    }
    Ok(None)
}

#[test]
fn judges_the_last_minutes(rt: HostRuntime) -> Result<(), Fail> {
    let grids = [silent_grid(rt.alloc(), Station::Dcf77)?];
    let window = dcf77(FROM, CENTURY_MINUTES);
    check_window(&rt, rt.alloc(), &window, &grids, Check::Judged)
}

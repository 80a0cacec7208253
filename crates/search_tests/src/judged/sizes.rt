//! So many bytes that they are too many, and so many steps. That others came before is set here; bench/certificates has whole texts.

ghost use Rattle.std.specs.Prelude.{◌≡◌, ◌≤◌};
ghost use Rattle.certificates.specs.declared.limits.TheConstants.{CERTIFICATE_LIMIT};
ghost use Rattle.definitions.specs.answers.Blocks.{items};

use super::told;
use crate::last_minutes::HEAD;
use certificate_judge::{Checker, Outcome};
use certificate_texts::{Place, Reader};
use definitions::Block;
use field_tables::Tables;
use std::alloc::{AllocError, Global};

// Puts a reader behind so many steps, as if they had been read.
fn put_behind(reader: &mut Reader, steps: u32)
    ensures { reader.new.lines ≡ reader.old.lines }
{
    reader.place = Place::Steps { part: 0, steps };
}

// What comes of a head and of two steps, behind so many more, and of what follows.
fn behind_steps<'a>(tables: &'a Tables<'a>, list: &'a [Block], steps: u32, last: &[u8]) -> Outcome
    requires { list.now ≡ items tables.now.window }
{
    let mut checker = Checker::make(tables, list, 1_920_000_000);
    checker.push(HEAD.as_bytes());
    put_behind(&mut checker.reader, steps);
    checker.push(b"E Y 0 1 52595938 52596000 -\nE Y 0 1 52595938 52596000 -\n");
    checker.push(last);
    checker.finish()
}

// What comes of so many bytes and these.
fn behind_bytes(tables: &Tables, list: &[Block], bytes: u64, last: &[u8]) -> Outcome
    requires items { list.now ≡ items tables.now.window }
    requires few { bytes ≤ CERTIFICATE_LIMIT }
{
    let mut checker = Checker::make(tables, list, 1_920_000_000);
    checker.bytes = bytes;
    checker.push(last);
    checker.finish()
}

fn is_told(alloc: Global, outcome: Outcome, wanted: &str) -> Result<bool, AllocError> {
    let found = told(alloc, &outcome)?;
    Ok(found.as_str() == wanted)
}

// A text of 2,000,000 steps is judged, and one step more is too many. So are 128,000,000 bytes, and one byte more, whatever it is.
pub(super) fn are_told(alloc: Global, tables: &Tables, list: &[Block]) -> Result<bool, AllocError>
    requires { list.now ≡ items tables.now.window }
{
    let most = behind_steps(tables, list, 1_999_998, b"worker 1\nend\n");
    let many = behind_steps(tables, list, 1_999_999, b"end\n");
    let bad = behind_steps(tables, list, 1_999_998, b"E Y 0 1\nend\n");
    let full = behind_bytes(tables, list, 127_999_999, b"\n");
    let large = behind_bytes(tables, list, 127_999_999, b"\nx");
    let none = behind_bytes(tables, list, 0, b"");
    let steps = is_told(alloc, most, "Uncovered { step: 2 }")?
        && is_told(alloc, many, "13 TooManySteps")?
        && is_told(alloc, bad, "14 Shape")?;
    let bytes = is_told(alloc, full, "1 Shape")?
        && is_told(alloc, large, "too large")?
        && is_told(alloc, none, "1 Shape")?;
    Ok(steps && bytes)
}

//! Changes of the certificate, each with what then comes of it, however it is cut.

ghost use Rattle.std.specs.Prelude.{◌≡◌};
ghost use Rattle.definitions.specs.answers.Blocks.{items};

use super::{outcome_of, told};
use certificate_judge::check_text;
use definitions::Block;
use field_tables::Tables;
use std::alloc::Global;
use std::test::Fail;

// Rows of: a text in the certificate, what stands in its place, and what then comes of it. A ~ is the end of a line.

// Lines that are bad.
const BAD: &str = "tsbank|\u{feff}tsbank|1 Shape
certificate 1~|certificate 1\r~|1 Shape
certificate 1|certificate 2|2 Shape
first 52595938|first 6416712000|9 Shape
worker 0|worker 1|11 Shape
52596000 0~|52596000 00~|12 Shape
52595939 0~|52595939 -~|15 Shape
L M|O M|15 Shape
E M|E  M|16 Shape
E Y 0 1 |E Y 0 61 |18 Shape
E Y 0 2 52595938|E Y 0 2 52596000|19 Shape
end~|end|143 Shape
end~|en~|143 Shape
end~|end~x~|144 Shape
end~|end~~|144 Shape";

// A bad line is told before all that steps say, and another window before these. Of a step it is told first that it isn't due,
// then its bound, then its key.
const TWO_FAULTS: &str = "O Y 0 0 52595938 52596000 0|P Y 0 0 52595938 52596000 1~x|13 Shape
seconds 60|seconds 61~x|6 Shape
ceiling 1920000000|ceiling 1920000001|8 Shape
60~from 52595938~to 52596000~ceiling 1920000000~first 52595938~second -~worker 0~O Y 0|61~from 52595938~to 52596000~ceiling 1920000000~first 52595938~second -~worker 0~P Y 1|OtherWindow
O Y 0 0 52595938 52596000 0|P Y 0 0 52595938 52595999 1|Uncovered { step: 1 }
O Y 0 0 52595938 52596000 0|P Y 0 0 52595938 52596000 1|WrongBound { step: 1 }";

// Lines in another order or in other parts are as good.
const AS_GOOD: &str = "end|end|Certified
end|worker 1~worker 2~worker 3~worker 4~worker 5~worker 6~worker 7~end|Certified
E M 0 0|worker 1~E M 0 0|Certified
E Y 0 1 52595938 52596000 -~E Y 0 2 52595938 52596000 -~|E Y 0 2 52595938 52596000 -~E Y 0 1 52595938 52596000 -~|Certified";

// Steps that are wrong.
const STEPS: &str = "O Y 0 0 52595938 52596000 0|O Y 0 0 52595938 52596000 1|WrongBound { step: 1 }
O Y 0 0 52595938 52596000 0|E Y 0 0 52595938 52596000 -|WrongBound { step: 1 }
O Y 0 0|P Y 0 0|NotAbove { step: 1 }
O D 0 0|O H 0 0|Uncovered { step: 2 }
L M 0 0 52595938 52595939 0~||Uncovered { step: 4 }
E M 0 0 52595939 52595940 -|P M 0 0 52595939 52595940 0|WrongBound { step: 5 }
E Y 0 1 |E Y 0 0 |Uncovered { step: 7 }
E Y 0 1 52595938 52596000 -~|E Y 0 1 52595938 52596000 -~E Y 0 1 52595938 52596000 -~|Uncovered { step: 8 }
E Y 1 60 52595938 52596000 -~||Uncovered { step: 131 }";

// Each line of the head is that of another window, or of another ceiling.
const WINDOWS: &str = "start 0|start 1|OtherWindow
phase 0|phase 1|OtherWindow
seconds 60|seconds 61|OtherWindow
station dcf77|station jjy|OtherWindow
from 52595938|from 52595937|OtherWindow
to 52596000|to 52595999|OtherWindow
ceiling 1920000000|ceiling 1919999999|OtherWindow";

// Which keys are named, and which one is told in place of a wrong one. A block whose key is the second key isn't passed over.
const KEYS: &str = "52595938~second -|-~second 52595938|WrongEnds { key: Some(52595938) }
first 52595938|first -|WrongEnds { key: Some(52595938) }
second -|second 52595938|WrongEnds { key: None }
52595938~second -~worker 0~O Y|-~second 52595938~worker 0~P Y|NotAbove { step: 1 }
52595938~second -~worker 0~O Y|-~second 52595937~worker 0~P Y|Uncovered { step: 2 }";

pub(super) const ALL: [&str; 6] = [BAD, TWO_FAULTS, AS_GOOD, STEPS, WINDOWS, KEYS];

// Whether this is told of some bytes, in pieces of 1, 7 or 65,536 bytes.
fn tells_in_pieces(
    alloc: Global,
    tables: &Tables,
    list: &[Block],
    bytes: &[u8],
    wanted: &str,
) -> Result<bool, Fail>
    requires { list.now ≡ items tables.now.window }
{
    for piece in [1, 7, 65_536] {
        let outcome = outcome_of(tables, list, bytes, piece);
        let found = told(alloc, &outcome)?;
        if found.as_str() != wanted {
            return Ok(false);
        }
    }
    Ok(true)
}

// Whether this is told of some bytes, read whole or in pieces.
fn tells(
    alloc: Global,
    tables: &Tables,
    list: &[Block],
    bytes: &[u8],
    wanted: &str,
) -> Result<bool, Fail>
    requires { list.now ≡ items tables.now.window }
{
    let whole = check_text(alloc, tables, list, 1_920_000_000, bytes)?;
    let found = told(alloc, &whole)?;
    if found.as_str() != wanted {
        return Ok(false);
    }
    tells_in_pieces(alloc, tables, list, bytes, wanted)
}

// The text with one text in place of another, which stands in it.
fn spoiled(alloc: Global, text: &str, old: &str, new: &str) -> Result<String, Fail> {
    let old = old.replace(alloc, "~", "\n")?;
    let new = new.replace(alloc, "~", "\n")?;
    let changed = text.replacen(alloc, old.as_str(), new.as_str(), 1)?;
    Ok(changed)
}

// Whether a row says what comes of the certificate.
fn is_right(
    alloc: Global,
    tables: &Tables,
    list: &[Block],
    text: &str,
    row: &str,
) -> Result<bool, Fail>
    requires { list.now ≡ items tables.now.window }
{
    let Some((old, rest)) = row.split_once('|') else {
        return Ok(false);
    };
    let Some((new, wanted)) = rest.split_once('|') else {
        return Ok(false);
    };
    let changed = spoiled(alloc, text, old, new)?;
    tells(alloc, tables, list, changed.as_bytes(), wanted)
}

// The first row that says what isn't so.
pub(super) fn first_wrong(
    alloc: Global,
    tables: &Tables,
    list: &[Block],
    text: &str,
    rows: &'static str,
) -> Result<Option<&'static str>, Fail>
    requires { list.now ≡ items tables.now.window }
{
    for row in rows.lines() {
        if !is_right(alloc, tables, list, text, row)? {
            return Ok(Some(row));
        }
    }
    Ok(None)
}

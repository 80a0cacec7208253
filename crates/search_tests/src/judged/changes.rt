//! The certificate with one byte changed, and cut there.

ghost use Rattle.std.specs.Prelude.{◌≡◌, ◌<◌, length};
ghost use Rattle.definitions.specs.answers.Blocks.{items};

use certificate_judge::{Checker, Outcome};
use certificates::Verdict;
use definitions::Block;
use field_tables::Tables;

// Whether these pieces together are certified.
fn are_certified(tables: &Tables, list: &[Block], front: &[u8], byte: u8, back: &[u8]) -> bool
    requires { list.now ≡ items tables.now.window }
{
    let mut checker = Checker::make(tables, list, 1_920_000_000);
    checker.push(front);
    checker.push(&[byte]);
    checker.push(back);
    match checker.finish() {
        Outcome::Judged {
            verdict,
            first: _,
            second: _,
        } => verdict == Verdict::Certified,
        Outcome::TooLarge | Outcome::Refused { line: _, fault: _ } => false,
    }
}

// Whether the text is certified in three pieces, and neither with another byte between two of them nor without the third.
fn is_refused_at(tables: &Tables, list: &[Block], text: &[u8], place: usize) -> bool
    requires items { list.now ≡ items tables.now.window }
    requires within { place < length text.now }
{
    let front = &text[..place];
    let byte = text[place];
    let back = &text[place + 1..];
    if !are_certified(tables, list, front, byte, back) {
        return false;
    }
    if are_certified(tables, list, front, byte ^ 1, back) {
        return false;
    }
    !are_certified(tables, list, front, byte, b"")
}

// The same at every eleventh place. A digit changes to its neighbour, and a letter, a space or the end of a line to what may not
// stand there.
pub(super) fn are_refused(tables: &Tables, list: &[Block], text: &[u8]) -> bool
    requires { list.now ≡ items tables.now.window }
{
    for place in 0..text.len() {
        if place % 11 == 0 && !is_refused_at(tables, list, text, place) {
            return false;
        }
    }
    true
}

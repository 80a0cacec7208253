//! The lines of a head, read from their bytes.

ghost use Rattle.std.specs.Prelude.{ℕ, ◌≡◌, ◌≢◌, ◌+◌, ◌<◌, ◌≤◌, ◌++◌, IfNone, IfSome, IsTrue, ◌↔◌, List, None, Option};
ghost use Rattle.formats.specs.Refusals.{named_key};
ghost use Rattle.certificates.specs.Certificates.{CanBeNamed};
ghost use Rattle.certificates.specs.Texts.{IsWithin};
ghost use Rattle.certificates.specs.Texts.HeadLine.{Heard, To};
ghost use Rattle.certificate_texts.specs.Lines.{IsOfMask, SpellsHead, SpellsNoHead};
ghost use Rattle.certificate_texts.specs.Places.{head_line_of};

use crate::HeadPart;
use crate::fields::{number_in, number_of};
use crate::lines::{push_names, version_of};
use arrayvec::ArrayString;
use certificates::{ONE_STATION, SEVERAL_STATIONS};
use definitions::CENTURY_MINUTES;
use signal_base::{GREATEST_COST, LEAST_SECONDS, MOST_SECONDS, START_LIMIT, Stations};

/// What a line of the head tells: a number, or that there is none.
#[derive(Clone, Copy)]
pub struct Value {
    /// The number.
    pub number: Option<u64>,
}

/// What a line of the head tells, after one that told what stands before.
pub fn head_in(due: HeadPart, before: Option<u64>, text: &[u8]) -> Option<Value>
    ensures some { IfSome result (λ v. SpellsHead (head_line_of due) before text.now v.number) }
    ensures none { IfNone result (SpellsNoHead (head_line_of due) before text.now) }
{
    match due {
        HeadPart::Version => {
            let most = SEVERAL_STATIONS as u64;
            ranged_in(text, "tsbank certificate ", ONE_STATION as u64, most)
        }
        HeadPart::Heard => stations_in(before, text),
        HeadPart::Start => ranged_in(text, "start ", 0, START_LIMIT - 1),
        HeadPart::Phase => ranged_in(text, "phase ", 0, 999),
        HeadPart::Seconds => {
            let most = MOST_SECONDS as u64;
            ranged_in(text, "seconds ", LEAST_SECONDS as u64, most)
        }
        HeadPart::From => ranged_in(text, "from ", 0, CENTURY_MINUTES as u64 - 1),
        HeadPart::To => end_in(before, text),
        HeadPart::Ceiling => ranged_in(text, "ceiling ", 0, GREATEST_COST as u64),
        HeadPart::First => key_in(text, "first "),
        HeadPart::Second => key_in(text, "second "),
    }
}

// The end of a range, above its first minute.
fn end_in(before: Option<u64>, text: &[u8]) -> Option<Value>
    ensures some { IfSome result (λ v. SpellsHead To before text.now v.number) }
    ensures none { IfNone result (SpellsNoHead To before text.now) }
{
    let from = before.unwrap_or(0);
    if from >= CENTURY_MINUTES as u64 {
        return None;
    }
    ranged_in(text, "to ", from + 1, CENTURY_MINUTES as u64)
}

// A number in a range, behind a word.
fn ranged_in(text: &[u8], word: &str, least: u64, most: u64) -> Option<Value>
    ensures some { IfSome result (λ v. IsWithin least (most + 1) v.number × (word.now ++ named_key v.number ≡ text.now)) }
    ensures none { IfNone result ((v : Option ℕ) → IsWithin least (most + 1) v → word.now ++ named_key v ≢ text.now) }
{
    let digits = behind(text, word)?;
    let number = number_in(digits, least, most)?;
    Some(Value {
        number: Some(number),
    })
}

// A key that can be named, or -, behind a word.
fn key_in(text: &[u8], word: &str) -> Option<Value>
    ensures some { IfSome result (λ v. CanBeNamed v.number × (word.now ++ named_key v.number ≡ text.now)) }
    ensures none { IfNone result ((v : Option ℕ) → CanBeNamed v → word.now ++ named_key v ≢ text.now) }
{
    let field = behind(text, word)?;
    let value = key_of(field)?;
    Some(value)
}

// Whether the field tells that there is no number.
pub fn is_none(field: &[u8]) -> bool
    ensures { IsTrue result ↔ (named_key None ≡ field.now) }
{
    field == "-".as_bytes()
}

fn key_of(field: &[u8]) -> Option<Value>
    ensures some { IfSome result (λ v. CanBeNamed v.number × (named_key v.number ≡ field.now)) }
    ensures none { IfNone result ((v : Option ℕ) → CanBeNamed v → named_key v ≢ field.now) }
{
    if is_none(field) {
        return Some(Value { number: None });
    }
    let key = number_of(field)?;
    if key % (1 << 33) >= 122 * CENTURY_MINUTES as u64 {
        return None;
    }
    if key >> 33 > GREATEST_COST as u64 {
        return None;
    }
    Some(Value { number: Some(key) })
}

// What stands behind a word.
fn behind<'a>(text: &'a [u8], word: &str) -> Option<&'a [u8]>
    ensures some { IfSome result (λ rest. word.now ++ rest.now ≡ text.now) }
    ensures none { IfNone result ((rest : List ℕ) → word.now ++ rest ≢ text.now) }
{
    match text.strip_prefix(word.as_bytes()) {
        Some(rest) => Some(rest),
        None => None,
    }
}

// The stations that a line names, after a version that goes with them: their mask.
fn stations_in(before: Option<u64>, text: &[u8]) -> Option<Value>
    ensures some { IfSome result (λ v. SpellsHead Heard before text.now v.number) }
    ensures none { IfNone result (SpellsNoHead Heard before text.now) }
{
    let mut mask = 1;
    while mask < 16 {
        if names(before, text, mask) {
            return Some(Value {
                number: Some(mask as u64),
            });
        }
        mask += 1;
    }
    None
}

// Whether the line names the stations of this mask, after a version that goes with them.
fn names(before: Option<u64>, text: &[u8], mask: u8) -> bool
    ensures { IsTrue result ↔ IsOfMask before text.now mask }
{
    let stations = Stations { mask };
    if before != Some(version_of(stations) as u64) {
        return false;
    }
    let mut line: ArrayString<32> = ArrayString::new();
    push_names(&mut line, stations);
    line.as_str().as_bytes() == text
}

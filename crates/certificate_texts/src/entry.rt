//! A line of a certificate, read from its bytes, where it may stand.

ghost use Rattle.std.specs.Prelude.{ℕ, ◌≡◌, ◌≢◌, ◌+◌, ◌<◌, ◌++◌, ◌↔◌, IfNone, IfSome, IsTrue, List, codes};
ghost use Rattle.std.specs.Fmt.{decimal};
ghost use Rattle.certificates.specs.Texts.Next.{AtHead, AtParts, AtStep};
ghost use Rattle.certificate_texts.specs.Lines.{Spells, SpellsNone};
ghost use Rattle.certificate_texts.specs.Places.{entry_of, head_line_of, next_of};

use crate::head::head_in;
use crate::step::step_in;
use crate::{HeadPart, Place, Told};
use arrayvec::ArrayString;
use bank_files::push_number;
use certificates::MOST_PARTS;

/// What a line tells, without its LF, where it may stand.
pub fn told_in(place: &Place, text: &[u8]) -> Option<Told>
    ensures some { IfSome result (λ told. Spells (next_of place.now) text.now (entry_of told)) }
    ensures none { IfNone result (SpellsNone (next_of place.now) text.now) }
{
    match place {
        Place::Head { due, before } => in_head(*due, *before, text),
        Place::Parts => in_parts(text),
        Place::Steps { part, steps } => in_part(*part, *steps, text),
        Place::End => None,
    }
}

fn in_head(due: HeadPart, before: Option<u64>, text: &[u8]) -> Option<Told>
    ensures some { IfSome result (λ told. Spells (AtHead (head_line_of due) before) text.now (entry_of told)) }
    ensures none { IfNone result (SpellsNone (AtHead (head_line_of due) before) text.now) }
{
    let value = head_in(due, before, text)?;
    Some(Told::Head {
        part: due,
        value: value.number,
    })
}

fn in_parts(text: &[u8]) -> Option<Told>
    ensures some { IfSome result (λ told. Spells AtParts text.now (entry_of told)) }
    ensures none { IfNone result (SpellsNone AtParts text.now) }
{
    if !is_part(text, 0) {
        return None;
    }
    Some(Told::Part { number: 0 })
}

fn in_part(part: u8, steps: u32, text: &[u8]) -> Option<Told>
    ensures some { IfSome result (λ told. Spells (AtStep part steps) text.now (entry_of told)) }
    ensures none { IfNone result (SpellsNone (AtStep part steps) text.now) }
{
    let _ = steps;
    if is_end(text) {
        return Some(Told::End);
    }
    if is_next(part, text) {
        return Some(Told::Part { number: part + 1 });
    }
    let line = step_in(text)?;
    Some(Told::Step { line })
}

fn is_end(text: &[u8]) -> bool
    ensures { IsTrue result ↔ (codes "end" ≡ text.now) }
{
    "end".as_bytes() == text
}

// Whether the line begins the part after this one, if there may be one more.
fn is_next(part: u8, text: &[u8]) -> bool
    ensures yes { IsTrue result → (part + 1 < MOST_PARTS) × (codes "worker " ++ decimal (part + 1) ≡ text.now) }
    ensures no { part + 1 < MOST_PARTS → codes "worker " ++ decimal (part + 1) ≡ text.now → IsTrue result }
{
    if part >= MOST_PARTS - 1 {
        return false;
    }
    is_part(text, part + 1)
}

// Whether the line begins the part of this number.
fn is_part(text: &[u8], number: u8) -> bool
    ensures { IsTrue result ↔ (codes "worker " ++ decimal number ≡ text.now) }
{
    let mut line: ArrayString<32> = ArrayString::new();
    line.push_str("worker ");
    push_number(&mut line, number as u64);
    line.as_str().as_bytes() == text
}

//! The line of a step, read from its bytes.

ghost use Rattle.std.specs.Prelude.{ℕ, ◌≡◌, ◌≢◌, ◌<◌, ◌≤◌, ◌^◌, ◌++◌, ◌∷◌, Bool, IfNone, IfSome, List, Option};
ghost use Rattle.std.specs.Fmt.{decimal};
ghost use Rattle.signal_base.specs.declared.limits.TheConstants.{GREATEST_COST};
ghost use Rattle.formats.specs.Bytes.{space};
ghost use Rattle.formats.specs.Refusals.{named_key};
ghost use Rattle.certificates.specs.declared.certificate.Kind.{Kind};
ghost use Rattle.definitions.specs.declared.block.Span.{Span};
ghost use Rattle.certificates.specs.Certificates.{IsShaped};
ghost use Rattle.certificates.specs.Texts.{announced_text, kind_text, span_text};
ghost use Rattle.certificate_texts.specs.Lines.{SpellsNoStep, SpellsStep};

use crate::fields::{field_in, number_in};
use crate::head::is_none;
use certificates::{Kind, Line};
use definitions::{Block, CENTURY_MINUTES, Span};
use signal_base::GREATEST_COST;

/// The step that a line tells.
pub fn step_in(text: &[u8]) -> Option<Line>
    ensures some { IfSome result (SpellsStep text.now) }
    ensures none { IfNone result (SpellsNoStep text.now) }
{
    let kind = kind_in(text)?;
    let span = span_in(kind.rest)?;
    let announced = announced_in(span.rest)?;
    let second = number_then(announced.rest, 0, 60)?;
    let lo = number_then(second.rest, 0, CENTURY_MINUTES - 1)?;
    let hi = number_then(lo.rest, lo.value + 1, CENTURY_MINUTES)?;
    let bound = bound_of(kind.value, span.value, hi.rest)?;
    Some(Line {
        kind: kind.value,
        block: Block {
            announced: announced.value,
            second: second.value as u8,
            span: span.value,
            lo: lo.value,
            hi: hi.value,
        },
        bound: bound.value,
    })
}

// A field that was read, and the bytes behind its space.
#[derive(Drop)]
struct Kinds<'a> {
    value: Kind,
    rest: &'a [u8],
}

#[derive(Drop)]
struct Spans<'a> {
    value: Span,
    rest: &'a [u8],
}

#[derive(Drop)]
struct Flags<'a> {
    value: bool,
    rest: &'a [u8],
}

#[derive(Drop)]
struct Numbers<'a> {
    value: u32,
    rest: &'a [u8],
}

fn kind_in(text: &[u8]) -> Option<Kinds<'_>>
    ensures some { IfSome result (λ found. text.now ≡ kind_text found.value ++ space ∷ found.rest.now) }
    ensures none { IfNone result ((kind : Kind) (rest : List ℕ) → text.now ≢ kind_text kind ++ space ∷ rest) }
{
    let field = field_in(text)?;
    let value = kind_of(field.front)?;
    Some(Kinds {
        value,
        rest: field.rest,
    })
}

fn span_in(text: &[u8]) -> Option<Spans<'_>>
    ensures some { IfSome result (λ found. text.now ≡ span_text found.value ++ space ∷ found.rest.now) }
    ensures none { IfNone result ((span : Span) (rest : List ℕ) → text.now ≢ span_text span ++ space ∷ rest) }
{
    let field = field_in(text)?;
    let value = span_of(field.front)?;
    Some(Spans {
        value,
        rest: field.rest,
    })
}

fn announced_in(text: &[u8]) -> Option<Flags<'_>>
    ensures some { IfSome result (λ found. text.now ≡ announced_text found.value ++ space ∷ found.rest.now) }
    ensures none { IfNone result ((announced : Bool) (rest : List ℕ) → text.now ≢ announced_text announced ++ space ∷ rest) }
{
    let field = field_in(text)?;
    let value = announced_of(field.front)?;
    Some(Flags {
        value,
        rest: field.rest,
    })
}

// A number in a range, and a space.
fn number_then(text: &[u8], least: u32, most: u32) -> Option<Numbers<'_>>
    requires { most < 2 ^ 32 }
    ensures range { IfSome result (λ found. (least ≤ found.value) × (found.value ≤ most)) }
    ensures some { IfSome result (λ found. text.now ≡ decimal found.value ++ space ∷ found.rest.now) }
    ensures none { IfNone result ((n : ℕ) (rest : List ℕ) → least ≤ n → n ≤ most → text.now ≢ decimal n ++ space ∷ rest) }
{
    let field = field_in(text)?;
    let value = number_in(field.front, least as u64, most as u64)?;
    Some(Numbers {
        value: value as u32,
        rest: field.rest,
    })
}

// A bound that a line tells, or that it tells none.
#[derive(Clone, Copy)]
struct Bound {
    value: Option<u32>,
}

fn kind_of(field: &[u8]) -> Option<Kind>
    ensures some { IfSome result (λ kind. kind_text kind ≡ field.now) }
    ensures none { IfNone result ((kind : Kind) → kind_text kind ≢ field.now) }
{
    match field {
        [b'O'] => Some(Kind::Opened),
        [b'P'] => Some(Kind::Pruned),
        [b'E'] => Some(Kind::Empty),
        [b'L'] => Some(Kind::Leaf),
        _ => None,
    }
}

fn span_of(field: &[u8]) -> Option<Span>
    ensures some { IfSome result (λ span. span_text span ≡ field.now) }
    ensures none { IfNone result ((span : Span) → span_text span ≢ field.now) }
{
    match field {
        [b'Y'] => Some(Span::Year),
        [b'D'] => Some(Span::Day),
        [b'H'] => Some(Span::Hour),
        [b'M'] => Some(Span::Minute),
        _ => None,
    }
}

fn announced_of(field: &[u8]) -> Option<bool>
    ensures some { IfSome result (λ announced. announced_text announced ≡ field.now) }
    ensures none { IfNone result ((announced : Bool) → announced_text announced ≢ field.now) }
{
    match field {
        [b'0'] => Some(false),
        [b'1'] => Some(true),
        _ => None,
    }
}

// The bound that a line of this kind and span may tell.
fn bound_of(kind: Kind, span: Span, field: &[u8]) -> Option<Bound>
    ensures some { IfSome result (λ told. IsShaped kind span told.value × (named_key told.value ≡ field.now)) }
    ensures none { IfNone result ((bound : Option ℕ) → IsShaped kind span bound → named_key bound ≢ field.now) }
{
    if kind == Kind::Empty {
        return if is_none(field) {
            Some(Bound { value: None })
        } else {
            None
        };
    }
    if kind == Kind::Opened && span == Span::Minute {
        return None;
    }
    if kind == Kind::Leaf && span != Span::Minute {
        return None;
    }
    let bound = number_in(field, 0, GREATEST_COST as u64)?;
    Some(Bound {
        value: Some(bound as u32),
    })
}

//! Which seconds of many pairs of parts have to be looked up: those in which the pairs differ.

ghost use Rattle.std.specs.Prelude.{◌≡◌, ◌++◌, ◌<◌, ℕ, IfOk, OnOk, false, length, slice_index, slice_index_or};
ghost use Rattle.slot_columns.specs.Layered.{AgreeBut, AreTermsOf, IsCommon, part_at, term_if, terms_of};

use crate::limits::SECONDS_PER_MINUTE;
use crate::part::Part;
use std::alloc::{AllocError, Global};

/// Which minutes of the walk a term costs: walk minute 0, all later ones, or both, where each pair carries one set in both.
#[derive(Clone, Copy)]
pub enum Layer {
    First,
    Later,
    Both,
}

/// A second that is looked up.
#[derive(Clone, Copy)]
pub struct Term {
    pub second: usize,
    pub layer: Layer,
}

/// What the pairs have in common, and terms for the rest.
#[derive(Drop)]
pub struct Terms {
    pub first: Part,
    pub later: Part,
    pub terms: Vec<Term>,
}

/// What all parts carry in one second: this set, or they differ.
#[derive(Clone, Copy)]
pub struct Common {
    pub set: u8,
    pub differs: bool,
}

/// Seconds of a minute: entry `s` says whether second `s` is one of them.
pub type Seconds = [bool; SECONDS_PER_MINUTE];

/// In which seconds pairs of parts may differ: in all others they agree.
#[derive(Clone, Copy)]
pub struct Differences {
    /// The first parts of two pairs from each other.
    pub first: Seconds,
    /// The later parts of two pairs from each other.
    pub later: Seconds,
    /// The two parts of a pair from each other.
    pub within: Seconds,
}

impl Terms {
    /// Compares the pairs second by second.
    pub fn make(alloc: Global, firsts: &[Part], rests: &[Part]) -> Result<Terms, AllocError>
        requires { length firsts.now ≡ length rests.now }
        ensures { IfOk result (λ made. AreTermsOf firsts.now rests.now made.first made.later made.terms.items SECONDS_PER_MINUTE) }
    {
        let differ = differences_of(firsts, rests);
        let mut terms = Vec::new(alloc);
        let mut first = [0; SECONDS_PER_MINUTE];
        let mut later = [0; SECONDS_PER_MINUTE];
        for s in 0..SECONDS_PER_MINUTE {
            let in_first = common_of(firsts, &differ.first, s);
            let in_later = common_of(rests, &differ.later, s);
            first[s] = in_first.set;
            later[s] = in_later.set;
            let alike = !differ.within[s];
            add_second(&mut terms, s, in_first.differs, in_later.differs, alike)?;
        }
        Ok(Terms {
            first,
            later,
            terms,
        })
    }
}

// Goes through the pairs once, since there may be some megabytes of them.
fn differences_of(firsts: &[Part], rests: &[Part]) -> Differences
    requires { length firsts.now ≡ length rests.now }
    ensures first { AgreeBut result.first (part_at firsts.now) (λ i. part_at firsts.now 0) (length firsts.now) }
    ensures later { AgreeBut result.later (part_at rests.now) (λ i. part_at rests.now 0) (length rests.now) }
    ensures within { AgreeBut result.within (part_at firsts.now) (part_at rests.now) (length firsts.now) }
{
    let mut first = [false; SECONDS_PER_MINUTE];
    let mut later = [false; SECONDS_PER_MINUTE];
    let mut within = [false; SECONDS_PER_MINUTE];
    for i in 0..firsts.len() {
        mark(&mut first, &firsts[i], &firsts[0]);
        mark(&mut later, &rests[i], &rests[0]);
        mark(&mut within, &firsts[i], &rests[i]);
    }
    Differences {
        first,
        later,
        within,
    }
}

// Adds the seconds in which two parts differ. No second depends on another, so that many are compared at a time.
fn mark(seconds: &mut Seconds, a: &Part, b: &Part)
    ensures kept { (s : ℕ) → slice_index_or seconds.new s false ≡ false → slice_index_or seconds.old s false ≡ false }
    ensures same { (s : ℕ) → s < SECONDS_PER_MINUTE → slice_index_or seconds.new s false ≡ false → slice_index a.now s ≡ slice_index b.now s }
{
    for s in 0..SECONDS_PER_MINUTE {
        seconds[s] |= a[s] != b[s];
    }
}

// What the parts have in common in second `s`, where they agree in all seconds but these.
fn common_of(parts: &[Part], but: &Seconds, s: usize) -> Common
    requires second { s < SECONDS_PER_MINUTE }
    requires agree { AgreeBut but.now (part_at parts.now) (λ i. part_at parts.now 0) (length parts.now) }
    ensures { IsCommon parts.now s result }
{
    if but[s] || parts.is_empty() {
        return Common {
            set: 0,
            differs: but[s],
        };
    }
    Common {
        set: parts[0][s],
        differs: false,
    }
}

// Adds the terms of second `s`, where the pairs differ in walk minute 0, or in the later ones.
fn add_second(
    terms: &mut Vec<Term>,
    s: usize,
    in_first: bool,
    in_later: bool,
    alike: bool,
) -> Result<(), AllocError>
    ensures { OnOk result (terms.new.items ≡ terms.old.items ++ terms_of s in_first in_later alike) }
{
    if in_first && in_later && alike {
        terms.push(Term {
            second: s,
            layer: Layer::Both,
        })?;
        return Ok(());
    }
    add_if(terms, in_first, s, Layer::First)?;
    add_if(terms, in_later, s, Layer::Later)
}

fn add_if(
    terms: &mut Vec<Term>,
    differs: bool,
    second: usize,
    layer: Layer,
) -> Result<(), AllocError>
    ensures { OnOk result (terms.new.items ≡ terms.old.items ++ term_if differs second layer) }
{
    if differs {
        terms.push(Term { second, layer })?;
    }
    Ok(())
}

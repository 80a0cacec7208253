//! Thirds of what kinds of walks tell in the seconds of the call sign: the tens of the year, its units, and what comes after it.
//! Few are different.

ghost use Rattle.std.specs.Prelude.{◌≡◌, ◌<◌, ◌≤◌, ℕ, IfOk, length, slice_index};
ghost use Rattle.walk_costs.specs.Kinds.{kind_at};
ghost use Rattle.walk_costs.specs.Leasts.{AreThirds, IsSplitTo};

use crate::kinds::{Kind, nothing, place_in};
use minute_parts::{CALL_BEGIN, CALL_END, CALL_MARKER};
use slot_columns::Part;
use std::alloc::{AllocError, Global};

// The first second that tells the units of the year.
const UNITS: usize = 45;

/// Where the thirds of a kind stand.
#[derive(Clone, Copy)]
pub struct Split {
    /// What is told before the units of the year.
    pub low: usize,
    /// What is told from there on up to the marker of the call sign.
    pub middle: usize,
    /// What is told after it.
    pub high: usize,
}

/// The thirds of some kinds.
#[derive(Drop)]
pub struct Thirds {
    /// Each third once, as a kind that tells nothing else.
    pub all: Vec<Kind>,
    /// Of each kind where its thirds stand.
    pub splits: Vec<Split>,
}

/// Splits the kinds.
pub fn thirds_of(alloc: Global, kinds: &[Kind]) -> Result<Thirds, AllocError>
    ensures { IfOk result (λ thirds. AreThirds kinds.now thirds.all.items thirds.splits.items (length kinds.now)) }
{
    let mut all = Vec::new(alloc);
    let mut splits = Vec::with_capacity(alloc, kinds.len())?;
    for k in 0..kinds.len() {
        let split = split_of(&mut all, &kinds[k].told)?;
        splits.push(split)?;
    }
    Ok(Thirds { all, splits })
}

// Adds the thirds of what is told, where they aren't there.
fn split_of(all: &mut Vec<Kind>, told: &Part) -> Result<Split, AllocError>
    ensures { IfOk result (IsSplitTo all.old.items all.new.items told.now) }
{
    let low = place_in(all, &third(told, CALL_BEGIN, UNITS))?;
    let middle = place_in(all, &third(told, UNITS, CALL_MARKER))?;
    let high = place_in(all, &third(told, CALL_MARKER, CALL_END))?;
    Ok(Split { low, middle, high })
}

// What is told in the seconds from `from` up to, and without, `to`.
fn third(told: &Part, from: usize, to: usize) -> Kind
    requires { to ≤ CALL_END }
    ensures told { (s : ℕ) → from ≤ s → s < to → slice_index result.told s ≡ slice_index told.now s }
    ensures before { (s : ℕ) → s < from → slice_index result.told s ≡ 0 }
    ensures after { (s : ℕ) → from ≤ to → to ≤ s → slice_index result.told s ≡ 0 }
{
    let mut part = nothing();
    for s in from..to {
        part[s] = told[s];
    }
    Kind {
        told: part,
        last: 0,
    }
}

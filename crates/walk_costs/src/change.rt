//! What the time of day costs in walks over a change of the encoded local time, as summer time makes them.
//!
//! The local time of a station leaves a few minutes of the day alone, and goes on at a few others: a century has few such changes.

ghost use Rattle.std.specs.Prelude.{◌≡◌, ◌+◌, ◌*◌, ◌<◌, ◌≤◌, ◌^◌, ℕ, [], All, IfOk, OnOk, false, length, slice_index_or};
ghost use Rattle.signal_base.specs.declared.limits.TheConstants.{MOST_RECEIVERS};
ghost use Rattle.definitions.specs.time.Calendar.{minutes_per_day};
ghost use Rattle.minute_parts.specs.Overlay.{is_given_up};
ghost use Rattle.minute_parts.specs.Parts.{IsPartTable};
ghost use Rattle.minute_parts.specs.Walks.{later_minutes};
ghost use Rattle.walk_costs.specs.Changes.{AreCostsOver, IsChange, before, cost_over, time_over};

use crate::walks::local_time;
use definitions::MINUTES_PER_DAY;
use minute_parts::{Parts, gives_up, later_minutes};
use slot_columns::{SECONDS_PER_MINUTE, SPLITS, SlotColumns, SplitCosts};
use std::alloc::{AllocError, Global};

/// A change of the local time, and what the time of day costs in the walks over it.
#[derive(Drop)]
pub struct Change {
    /// The minute of the local day that the first minute behind it would encode without it.
    pub from: u16,
    /// The minute that this encodes.
    pub to: u16,
    /// For each second in which a walk may begin the costs, by how many of its minutes come before the change.
    pub costs: Vec<SplitCosts>,
}

/// The changes between the runs of a station, each once. Of a station that sends a call sign there are none.
pub fn changes_of(
    alloc: Global,
    parts: &Parts,
    columns: &SlotColumns,
) -> Result<Vec<Change>, AllocError>
    requires { IsPartTable parts.now }
    ensures { IfOk result (λ changes. All (IsChange parts.now columns.now) changes.items) }
{
    let mut changes = Vec::new(alloc);
    if gives_up(columns.station()) {
        return Ok(changes);
    }
    for run in 1..parts.runs() {
        add_change(alloc, &mut changes, parts, columns, run)?;
    }
    Ok(changes)
}

// Adds the change at the beginning of a run, where there is one that isn't there yet.
fn add_change(
    alloc: Global,
    changes: &mut Vec<Change>,
    parts: &Parts,
    columns: &SlotColumns,
    run: usize,
) -> Result<(), AllocError>
    requires table { IsPartTable parts.now }
    requires run { (1 ≤ run) × (run < length parts.now.runs) }
    requires keeps { (s : ℕ) → is_given_up columns.now.station s ≡ false }
    ensures { OnOk result (All (IsChange parts.now columns.now) changes.old.items → All (IsChange parts.now columns.now) changes.new.items) }
{
    let (one, next) = (parts.run(run - 1), parts.run(run));
    if one.shift == next.shift {
        return Ok(());
    }
    let from = local_time(one.shift, next.first);
    let to = local_time(next.shift, next.first);
    if is_there(changes, from, to) {
        return Ok(());
    }
    let costs = all_costs(alloc, parts, columns, from, to)?;
    changes.push(Change { from, to, costs })?;
    Ok(())
}

// Whether the change between two minutes of the day is among these.
fn is_there(changes: &Vec<Change>, from: u16, to: u16) -> bool {
    for i in 0..changes.len() {
        if changes[i].from == from && changes[i].to == to {
            return true;
        }
    }
    false
}

// The costs of a change, for each second in which a walk may begin.
fn all_costs(
    alloc: Global,
    parts: &Parts,
    columns: &SlotColumns,
    from: u16,
    to: u16,
) -> Result<Vec<SplitCosts>, AllocError>
    requires table { IsPartTable parts.now }
    requires from { from < minutes_per_day }
    requires to { to < minutes_per_day }
    ensures count { IfOk result (λ all. length all.items ≡ SECONDS_PER_MINUTE) }
    ensures costs { IfOk result (λ all. (p : ℕ) → p < SECONDS_PER_MINUTE → AreCostsOver columns.now parts.now.times from to p (slice_index_or all.items p [])) }
{
    let mut all = Vec::with_capacity(alloc, SECONDS_PER_MINUTE)?;
    for p in 0..SECONDS_PER_MINUTE as u8 {
        all.push(costs_from(parts, columns, from, to, p))?;
    }
    Ok(all)
}

// Those of the walks from second `p`.
fn costs_from(parts: &Parts, columns: &SlotColumns, from: u16, to: u16, p: u8) -> SplitCosts
    requires table { IsPartTable parts.now }
    requires from { from < minutes_per_day }
    requires to { to < minutes_per_day }
    requires second { p < SECONDS_PER_MINUTE }
    ensures { AreCostsOver columns.now parts.now.times from to p result }
{
    let mut costs = [0; SPLITS];
    for b in 0..later_minutes(columns.seconds(), p) + 1 {
        costs[b as usize] = cost_over(parts, columns, before(from, b), before(to, b), b, p);
    }
    costs
}

/// So many minutes before a minute of the day, at most 20.
pub fn before(u: u16, b: u32) -> u16
    requires minute { u < minutes_per_day }
    requires few { b ≤ 20 }
    ensures minute { result ≡ before u b }
    ensures day { result < minutes_per_day }
{
    ((MINUTES_PER_DAY + u as u32 - b) % MINUTES_PER_DAY) as u16
}

// What the time of day costs in a walk from second `p` whose first `b` minutes count from minute `u` of the day on, and the later
// ones from `v` on.
fn cost_over(parts: &Parts, columns: &SlotColumns, u: u16, v: u16, b: u32, p: u8) -> u32
    requires from { u < minutes_per_day }
    requires to { v < minutes_per_day }
    requires second { p < SECONDS_PER_MINUTE }
    ensures { result ≡ cost_over columns.now parts.now.times u v b p }
{
    // The receivers are few, so that the sum fits.
    columns.receivers();
    let mut cost = 0;
    for m in 0..later_minutes(columns.seconds(), p) as u16 + 1 {
        let part = parts.time_part(time_over(u, v, b, m));
        cost += columns.minute_cost(p, m as u8, part);
    }
    cost
}

// The minute of the day that walk minute `m` encodes in such a walk.
fn time_over(u: u16, v: u16, b: u32, m: u16) -> u16
    requires from { u < minutes_per_day }
    requires to { v < minutes_per_day }
    requires minute { m ≤ 20 }
    ensures minute { result ≡ time_over u v b m }
    ensures day { result < minutes_per_day }
{
    let first = if (m as u32) < b { u } else { v };
    (first + m) % MINUTES_PER_DAY as u16
}

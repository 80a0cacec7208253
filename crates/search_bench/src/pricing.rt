//! How long one bound takes, and how long the plain way to it.

ghost use Rattle.std.specs.Prelude.{◌≡◌, ◌≤◌, All, IfOk};
ghost use Rattle.std.specs.List.{AllByRecursion};
ghost use Rattle.definitions.specs.answers.Blocks.{IsBlock};
ghost use Rattle.definitions.specs.codes.Allowed.{has_station};
ghost use Rattle.definitions.specs.sequences.Walks.{IsSequence, IsWalkable};
ghost use Rattle.signal_base.specs.declared.limits.TheConstants.{MOST_SECONDS};
ghost use Rattle.std.specs.Prelude.{true};

use crate::fault::Fault;
use crate::sample::parts;
use crate::times::{nanoseconds, tell, tell_each};
use bounds::bound;
use definitions::{Block, Sequence};
use plain_bounds::{Case, first_of};
use plain_costs::{Sets, plain_cost, unions_of};
use sequence::walkable;
use std::alloc::{AllocError, Global};
use std::rt::Clock;
use std::time::Instant;
use symbol_cost::CostGrid;

// The days of so many years are timed, and the hours and minutes of some of them.
const YEARS: usize = 8;

const EVERY: usize = 30;

const MOST_PARTED: usize = 100;

// The unions of every so-manieth of these days and hours are summed, of so many at most.
const EVERY_SUMMED: usize = 200;

const MOST_SUMMED: usize = 10;

// How often bounds and sums are timed, and costs, which take longer. The least time counts.
const ROUNDS: u32 = 50;

const COST_ROUNDS: u32 = 5;

/// Times the bounds of days, hours and minutes alone, and the plain ways to them.
pub fn measure_bounds<R: Clock + Print + AllocGlobal>(
    rt: &R,
    case: &Case,
    items: &[Block],
) -> Result<(), Fault>
    requires { AllByRecursion (IsBlock case.now.window) items.now }
{
    let days = parts(rt.alloc(), case.tables, items, 1, YEARS)?;
    measure_days(rt, case, &days)
}

// The same of these days, and of hours and minutes of them.
fn measure_days<R: Clock + Print + AllocGlobal>(
    rt: &R,
    case: &Case,
    days: &[Block],
) -> Result<(), Fault>
    requires { AllByRecursion (IsBlock case.now.window) days.now }
{
    time_bounds(rt, "quick_day_ps", case, days)?;
    time_sums(rt, "plain_day_ps", case, days)?;
    let hours = parts(rt.alloc(), case.tables, days, EVERY, MOST_PARTED)?;
    measure_hours(rt, case, &hours)
}

// The same of these hours, and of minutes of them.
fn measure_hours<R: Clock + Print + AllocGlobal>(
    rt: &R,
    case: &Case,
    hours: &[Block],
) -> Result<(), Fault>
    requires { AllByRecursion (IsBlock case.now.window) hours.now }
{
    time_bounds(rt, "quick_hour_ps", case, hours)?;
    time_sums(rt, "plain_hour_ps", case, hours)?;
    let minutes = parts(rt.alloc(), case.tables, hours, EVERY, MOST_PARTED)?;
    measure_minutes(rt, case, &minutes)
}

// The same of these minutes, and what their walks cost slot by slot.
fn measure_minutes<R: Clock + Print + AllocGlobal>(
    rt: &R,
    case: &Case,
    minutes: &[Block],
) -> Result<(), Fault>
    requires { AllByRecursion (IsBlock case.now.window) minutes.now }
{
    time_bounds(rt, "quick_minute_ps", case, minutes)?;
    time_sums(rt, "summed_minute_ps", case, minutes)?;
    let sequences = walkable_sequences(rt.alloc(), case, minutes)?;
    time_costs(rt, "plain_minute_ps", case, &sequences)
}

// Times the bounds of blocks. What they come to is printed, so that it is worked out.
fn time_bounds<R: Clock + Print>(
    rt: &R,
    name: &str,
    case: &Case,
    blocks: &[Block],
) -> Result<(), Fault>
    requires { AllByRecursion (IsBlock case.now.window) blocks.now }
{
    let mut least = u64::MAX;
    let mut mixed = 0;
    for _ in 0..ROUNDS {
        let begin = Instant::now(rt)?;
        mixed = mix_bounds(case, blocks, mixed);
        least = least.min(nanoseconds(rt, begin)?);
    }
    tell_each(rt, name, least, blocks.len() as u64)?;
    tell(rt, "mixed", mixed as u64)
}

fn mix_bounds(case: &Case, blocks: &[Block], before: u32) -> u32
    requires { AllByRecursion (IsBlock case.now.window) blocks.now }
{
    let mut mixed = before;
    for block in blocks {
        mixed = mixed.rotate_left(1) ^ bound(case.tables, block).unwrap_or(0);
    }
    mixed
}

// Times the plain costs of sequences.
fn time_costs<R: Clock + Print>(
    rt: &R,
    name: &str,
    case: &Case,
    sequences: &[Sequence],
) -> Result<(), Fault>
    requires sequences { AllByRecursion IsSequence sequences.now }
    requires walkable { AllByRecursion (IsWalkable case.now.window) sequences.now }
{
    let mut least = u64::MAX;
    let mut mixed = 0;
    for _ in 0..COST_ROUNDS {
        let begin = Instant::now(rt)?;
        mixed = mix_costs(case, sequences, mixed);
        least = least.min(nanoseconds(rt, begin)?);
    }
    tell_each(rt, name, least, sequences.len() as u64)?;
    tell(rt, "mixed", mixed as u64)
}

fn mix_costs(case: &Case, sequences: &[Sequence], before: u32) -> u32
    requires sequences { AllByRecursion IsSequence sequences.now }
    requires walkable { AllByRecursion (IsWalkable case.now.window) sequences.now }
{
    let mut mixed = before;
    for q in sequences {
        mixed = mixed.rotate_left(1) ^ plain_cost(case.grids, case.civil, &case.window, q);
    }
    mixed
}

// The first sequences of the blocks, as far as they are walkable.
fn walkable_sequences(
    alloc: Global,
    case: &Case,
    blocks: &[Block],
) -> Result<Vec<Sequence>, AllocError>
    requires { AllByRecursion (IsBlock case.now.window) blocks.now }
    ensures sequences { IfOk result (λ list. AllByRecursion IsSequence list.items) }
    ensures walkable { IfOk result (λ list. AllByRecursion (IsWalkable case.now.window) list.items) }
{
    let mut list = Vec::new(alloc);
    for block in blocks {
        let q = first_of(block);
        if walkable(case.civil, &case.window, &q) {
            list.push(q)?;
        }
    }
    Ok(list)
}

// Times the sums over the slots of what the unions of some blocks cost, once the unions are known.
fn time_sums<R: Clock + Print + AllocGlobal>(
    rt: &R,
    name: &str,
    case: &Case,
    blocks: &[Block],
) -> Result<(), Fault>
    requires { AllByRecursion (IsBlock case.now.window) blocks.now }
{
    let mut all = 0u64;
    let mut count = 0u64;
    for grid in case.grids {
        if case.window.stations.has(grid.station()) {
            let unions = unions_in(rt.alloc(), case, grid, blocks)?;
            all = all.saturating_add(least_of_sums(rt, grid, &unions)?);
            count = unions.len() as u64;
        }
    }
    tell_each(rt, name, all, count)
}

// The least time that sums take of what these sets cost. What they come to is printed, so that it is worked out.
fn least_of_sums<R: Clock + Print>(rt: &R, grid: &CostGrid, unions: &[Sets]) -> Result<u64, Fault> {
    let mut least = u64::MAX;
    let mut mixed = 0u32;
    for _ in 0..ROUNDS {
        let begin = Instant::now(rt)?;
        mixed = mix_sums(grid, unions, mixed);
        least = least.min(nanoseconds(rt, begin)?);
    }
    tell(rt, "mixed", mixed as u64)?;
    Ok(least)
}

fn mix_sums(grid: &CostGrid, unions: &[Sets], before: u32) -> u32 {
    let mut mixed = before;
    for sets in unions {
        mixed = mixed.rotate_left(1) ^ sum_of(grid, sets);
    }
    mixed
}

// What a set in each slot costs together.
fn sum_of(grid: &CostGrid, sets: &Sets) -> u32 {
    let mut sum = 0u32;
    for slot in 0..grid.seconds() {
        sum = sum.wrapping_add(grid.cost(slot, sets[slot as usize]));
    }
    sum
}

// The unions of some of the blocks.
fn unions_in(
    alloc: Global,
    case: &Case,
    grid: &CostGrid,
    blocks: &[Block],
) -> Result<Vec<Sets>, AllocError>
    requires blocks { AllByRecursion (IsBlock case.now.window) blocks.now }
    requires heard { has_station case.now.window.stations grid.now.station ≡ true }
{
    let mut list = Vec::new(alloc);
    let mut number = 0usize;
    for block in blocks {
        if number % EVERY_SUMMED == 0 && list.len() < MOST_SUMMED {
            list.push(unions_of(case.civil, grid.station(), &case.window, block))?;
        }
        number = number.saturating_add(1);
    }
    Ok(list)
}

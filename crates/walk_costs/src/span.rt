//! What the dates of many runs tell together, as those of a year, and what walks among these runs cost at the least: one look at a
//! year where its days would take one each.
//!
//! The year is mostly told by seconds of its own. So it costs what it does. Each other second of the date mostly has one of two
//! symbols, and a walk that stays in one run has the same in all its minutes: it costs there what the cheaper of the two does. One that
//! goes on to the next run has the same in its first minutes, and the same in the others.

ghost use Rattle.std.specs.Prelude.{◌≡◌, ◌+◌, ◌<◌, ◌≤◌, ℕ, All, IfOk, IfSome, OnOk, false, length, slice_index};
ghost use Rattle.minute_parts.specs.Parts.{IsPartTable};
ghost use Rattle.slot_columns.specs.Parts.{most_cost};
ghost use Rattle.slot_columns.specs.Rows.{index_of};
ghost use Rattle.walk_costs.specs.Leasts.{AreLeastSums};
ghost use Rattle.walk_costs.specs.Near.{AreSpanCosts, IsAlike, IsFollowed, StaysNear};
ghost use Rattle.walk_costs.specs.Seen.{first_set, first_told, other_set, told_else};
ghost use Rattle.walk_costs.specs.Spans.{HoldsDates};
ghost use Rattle.walk_costs.specs.Walks.{cost_of};

use crate::date::kept;
use crate::kinds::{SETS, nothing};
use crate::least::LeastWalks;
use crate::walks::StationWalks;
use definitions::MINUTES_PER_DAY;
use minute_parts::{Parts, Run};
use signal_base::{Station, UNSCORED};
use slot_columns::{Part, SECONDS_PER_MINUTE, SlotColumns};
use std::alloc::{AllocError, Global};
use symbol_cost::RECEIVER_COST;

/// What the dates of some runs tell together, where no leap second is announced, but of the seconds that the station gives up.
#[derive(Clone, Copy)]
pub struct DateSpan {
    /// The number of the first run.
    pub from: usize,
    /// That of the run behind the last.
    pub to: usize,
    /// What the first of them tells, second by second.
    pub one: Part,
    /// Sets that hold what each of them tells else; where they tell nothing else, the same.
    pub other: Part,
}

/// What that costs in the walks from one second.
#[derive(Clone, Copy)]
pub struct SpanCosts {
    /// The second.
    pub second: u8,
    /// The number of the first run.
    pub from: usize,
    /// That of the run behind the last.
    pub to: usize,
    /// No date of these runs costs less.
    pub cost: u32,
    /// Nor do two of them cost less than this, one in the first minutes of a walk and the other in the later ones. The greatest `u32`
    /// where the walks go through one minute.
    pub across: u32,
}

/// What the walks cost at the least that begin in some runs, one behind the other.
#[derive(Clone, Copy)]
pub struct Near {
    /// The number of the run behind the last of them. Where there are none, that from which on they were looked for.
    pub last: usize,
    /// None of the walks costs less.
    pub floor: u32,
    /// The number of the run behind those in which a look at walks one by one is worth while, from `last` on.
    pub closely: usize,
}

// The same of runs that are alike.
#[derive(Clone, Copy)]
struct Alike {
    last: usize,
    floor: u32,
}

/// The most minutes of a walk after its first.
pub(crate) const MOST_LATER: u32 = 20;

/// The runs of each year of the encoded local time.
pub fn spans_of(alloc: Global, parts: &Parts, station: Station) -> Result<Vec<DateSpan>, AllocError>
    requires table { IsPartTable parts.now }
    requires station { station ≡ parts.now.station }
    ensures { IfOk result (λ spans. All (HoldsDates parts.now station) spans.items) }
{
    let mut spans = Vec::new(alloc);
    let mut span = none_from(0);
    let mut year = 0;
    for i in 0..parts.runs() {
        let this = year_of(parts.run(i));
        span = go_on(&mut spans, &span, parts, station, i, this == year)?;
        year = this;
    }
    spans.push(span)?;
    Ok(spans)
}

// The years of 2000 to 2099 have 365 days, and each fourth of them, the first among these, one more.
fn year_of(run: &Run) -> u64 {
    (run.first as u64 + run.shift as u64) / MINUTES_PER_DAY as u64 * 4 / 1461
}

// No run yet.
fn none_from(run: usize) -> DateSpan
    ensures bounds { (result.from ≡ run) × (result.to ≡ run) }
    ensures one { (s : ℕ) → slice_index result.one s ≡ 0 }
    ensures other { (s : ℕ) → slice_index result.other s ≡ 0 }
{
    DateSpan {
        from: run,
        to: run,
        one: nothing(),
        other: nothing(),
    }
}

// The span with one more run, if it goes on with that. Else it is put to the others, and the run begins the next one.
fn go_on(
    spans: &mut Vec<DateSpan>,
    span: &DateSpan,
    parts: &Parts,
    station: Station,
    run: usize,
    goes_on: bool,
) -> Result<DateSpan, AllocError>
    requires table { IsPartTable parts.now }
    requires station { station ≡ parts.now.station }
    requires run { run < length parts.now.runs }
    requires holds { HoldsDates parts.now station span.now }
    requires here { span.now.to ≡ run }
    ensures spans { OnOk result (All (HoldsDates parts.now station) spans.old.items → All (HoldsDates parts.now station) spans.new.items) }
    ensures holds { IfOk result (HoldsDates parts.now station) }
    ensures here { IfOk result (λ next. next.to ≡ run + 1) }
{
    if goes_on {
        return Ok(with_run(span, parts, station, run));
    }
    spans.push(*span)?;
    Ok(with_run(&none_from(run), parts, station, run))
}

// The span with one more run.
fn with_run(span: &DateSpan, parts: &Parts, station: Station, run: usize) -> DateSpan
    requires table { IsPartTable parts.now }
    requires station { station ≡ parts.now.station }
    requires run { run < length parts.now.runs }
    requires holds { HoldsDates parts.now station span.now }
    requires here { span.now.to ≡ run }
    ensures holds { HoldsDates parts.now station result }
    ensures here { result.to ≡ run + 1 }
{
    // The next run's number fits, as the count of runs does.
    parts.runs();
    let told = kept(station, parts.run(run).date_part(false));
    let one = first_told(&span.one, &told);
    DateSpan {
        from: span.from,
        to: run + 1,
        one,
        other: told_else(&one, &span.other, &told),
    }
}

// The sets that were told first: those of a date in the seconds of which nothing was told yet.
fn first_told(one: &Part, told: &Part) -> Part
    ensures { result ≡ first_told one.now told.now }
{
    let mut part = nothing();
    for s in 0..SECONDS_PER_MINUTE {
        part[s] = first_set(one[s], scored(told[s]));
    }
    part
}

fn first_set(one: u8, told: u8) -> u8
    ensures { result ≡ first_set one told }
{
    if one == 0 { told } else { one }
}

// The sets that were told else, with those of a date in the seconds in which it isn't held by the first. Where nothing else was told
// yet, these are the first.
fn told_else(one: &Part, other: &Part, told: &Part) -> Part
    ensures { result ≡ told_else one.now other.now told.now }
{
    let mut part = nothing();
    for s in 0..SECONDS_PER_MINUTE {
        part[s] = other_set(one[s], other[s], scored(told[s]));
    }
    part
}

fn other_set(one: u8, other: u8, told: u8) -> u8
    ensures { result ≡ other_set one other told }
{
    if one | told == one {
        first_set(other, one)
    } else if other == one {
        told
    } else {
        other | told
    }
}

fn scored(set: u8) -> u8
    ensures { result ≡ index_of set }
{
    if set == UNSCORED { 0 } else { set % SETS }
}

impl StationWalks<'_> {
    /// What the dates of a run and of those around it cost at the least in the walks from second `p`, below 60. None where they
    /// aren't kept.
    pub fn span_costs(&self, p: u8, run: usize) -> Option<SpanCosts>
        requires { p < SECONDS_PER_MINUTE }
        ensures second { IfSome result (λ costs. costs.second ≡ p) }
        ensures costs { IfSome result (AreSpanCosts self.now) }
    {
        for i in 0..self.spans.len() {
            let span = &self.spans[i];
            if span.from <= run && run < span.to {
                return Some(SpanCosts {
                    second: p,
                    from: span.from,
                    to: span.to,
                    cost: self.columns.least_of_either(p, &span.one, &span.other),
                    across: self.columns.least_of_change(p, &span.one, &span.other),
                });
            }
        }
        None
    }

    /// What none of the unannounced sequences costs the station less than whose walks begin in the second of the costs in one of some
    /// runs, and end in it or go on to the next.
    ///
    /// They are the runs from `run` on up to, and without, `last`. Each is among the runs of which the costs are and is followed by
    /// another of these, which encodes the local time alike and has 20 minutes or more, so that a walk that goes on ends there. They
    /// end where it isn't known that each of the walks costs more than `enough`: where that is so of `run`, there is none, and `last`
    /// is `run`. The floor is at most 200,000 for each slot and receiver.
    pub fn least_near(&self, costs: &SpanCosts, run: usize, enough: u32) -> Near
        requires costs { AreSpanCosts self.now costs.now }
        ensures begun { run ≤ result.last }
        ensures followed { (r : ℕ) → run ≤ r → r < result.last → IsFollowed self.now.parts r }
        ensures floor { (r t0 : ℕ) → run ≤ r → r < result.last → StaysNear self.now costs.now.second t0 r → result.floor ≤ cost_of self.now false costs.now.second t0 }
        ensures above { run < result.last → enough < result.floor }
        ensures bound { result.floor ≤ most_cost self.now.grid }
    {
        let mut near = Near {
            last: run,
            floor: most_cost(&self.columns),
            closely: run,
        };
        while near.last < costs.to {
            let alike = self.least_alike(costs, near.last);
            near.closely = alike.last;
            if alike.last == near.last || alike.floor <= enough {
                return near;
            }
            near.last = alike.last;
            near.floor = near.floor.min(alike.floor);
        }
        near
    }

    // The same of the runs that are like `run`: a walk costs there by the time of day at the least what it does in that one. Where `run`
    // itself isn't followed so, there is none.
    fn least_alike(&self, costs: &SpanCosts, run: usize) -> Alike
        requires costs { AreSpanCosts self.now costs.now }
        ensures begun { run ≤ result.last }
        ensures followed { (r : ℕ) → run ≤ r → r < result.last → IsFollowed self.now.parts r }
        ensures floor { (r t0 : ℕ) → run ≤ r → r < result.last → StaysNear self.now costs.now.second t0 r → result.floor ≤ cost_of self.now false costs.now.second t0 }
        ensures bound { result.floor ≤ most_cost self.now.grid }
    {
        let last = alike_until(self.unions.parts(), &self.least, run, costs);
        if last == run {
            return Alike { last, floor: 0 };
        }
        let inside = self.least.inside.at(false, costs.second, run);
        let across = self.least.across.at(false, costs.second, run);
        // Where no walk stays, or none goes on, that sum may be too large.
        let staying = costs.cost.saturating_add(inside);
        let going_on = costs.across.saturating_add(across);
        let floor = staying.min(going_on).min(most_cost(&self.columns));
        Alike { last, floor }
    }
}

// The number of the first run, from this one on, that isn't like it, or that isn't followed among the runs of which the costs are by
// one that encodes the local time alike and in which a walk ends.
fn alike_until(parts: &Parts, least: &LeastWalks, run: usize, costs: &SpanCosts) -> usize
    requires table { IsPartTable parts.now }
    requires inside { AreLeastSums least.now.inside (length parts.now.runs) }
    requires across { AreLeastSums least.now.across (length parts.now.runs) }
    requires within { costs.now.to ≤ length parts.now.runs }
    ensures begun { run ≤ result }
    ensures alike { (r : ℕ) → run ≤ r → r < result → IsAlike parts.now least.now costs.now run r }
{
    if run < costs.from || costs.to <= run {
        return run;
    }
    let shift = parts.run(run).shift;
    let inside = least.inside.kind(false, run);
    let across = least.across.kind(false, run);
    let mut end = parts.run_end(run);
    for r in run..costs.to - 1 {
        if least.inside.kind(false, r) != inside {
            return r;
        }
        if least.across.kind(false, r) != across {
            return r;
        }
        if parts.run(r + 1).shift != shift {
            return r;
        }
        let next_end = parts.run_end(r + 1);
        if next_end < end + MOST_LATER {
            return r;
        }
        end = next_end;
    }
    costs.to - 1
}

// The most that the slots can cost.
fn most_cost(columns: &SlotColumns) -> u32
    ensures { result ≡ most_cost columns.now }
{
    columns.seconds() as u32 * (columns.receivers() as u32 * RECEIVER_COST)
}

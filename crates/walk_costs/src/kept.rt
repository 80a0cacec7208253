//! What the dates of all runs cost, which is kept in a table.

ghost use Rattle.std.specs.Prelude.{◌≡◌, ◌<◌, ◌≤◌, ℕ, [], IfOk, OnOk, false, length, slice_index, slice_index_or, true, vec_len};
ghost use Rattle.minute_parts.specs.Parts.{part_where};
ghost use Rattle.minute_parts.specs.Runs.{run_at};
ghost use Rattle.minute_parts.specs.declared.call.TheConstants.{CALL_MINUTES};
ghost use Rattle.slot_columns.specs.Layered.{together};
ghost use Rattle.walk_costs.specs.Dates.{date_cost, kept, part_cost};
ghost use Rattle.walk_costs.specs.Walks.{AreDateCosts, ArePairsOf, kept_of, pair_of};

use crate::date::{ByMinute, given_costs, kept};
use crate::shown::is_told_alike;
use crate::walks::StationWalks;
use minute_parts::{CALL_MINUTES, Part, Parts, Run};
use signal_base::Station;
use slot_columns::{LayerTable, SECONDS_PER_MINUTE, SlotColumns};
use std::alloc::{AllocError, Global};

impl StationWalks<'_> {
    /// What the date of a run costs in the walks from second `p`, without the seconds that the station gives up for its call
    /// sign.
    pub fn kept_date_cost(&self, announced: bool, p: u8, run: usize) -> u32
        requires second { p < SECONDS_PER_MINUTE }
        requires run { run < length self.now.parts.runs }
        ensures { result ≡ part_cost self.now.grid p (kept self.now.grid.station (part_where announced (run_at self.now.parts.runs run))) }
    {
        self.dates
            .cost(pair_of(&self.announced_dates, announced, run), p)
    }

    // The same where each second may be of the date of either run.
    pub(crate) fn kept_cost_of_both(&self, announced: bool, p: u8, run: usize, other: usize) -> u32
        requires second { p < SECONDS_PER_MINUTE }
        requires run { run < length self.now.parts.runs }
        requires other { other < length self.now.parts.runs }
        ensures { result ≡ part_cost self.now.grid p
            (together (kept_of self.now.parts self.now.grid.station announced run) (kept_of self.now.parts self.now.grid.station announced other)) }
    {
        let places = &self.announced_dates;
        self.dates.cost_of_both(
            pair_of(places, announced, run),
            pair_of(places, announced, other),
            p,
        )
    }

    // What the date of a run costs in the walks from second `p`, for each walk minute that the call sign may take.
    pub(crate) fn date_costs(&self, announced: bool, p: u8, run: usize) -> ByMinute
        requires second { p < SECONDS_PER_MINUTE }
        requires run { run < length self.now.parts.runs }
        ensures { (m : ℕ) → m < CALL_MINUTES → slice_index result m ≡ date_cost self.now.grid p m (part_where announced (run_at self.now.parts.runs run)) }
    {
        let part = self.unions.parts().run(run).date_part(announced);
        let given = given_costs(&self.columns, p, part);
        let kept = self.kept_date_cost(announced, p, run);
        let mut costs = given;
        for m in 0..CALL_MINUTES {
            costs[m] = kept + given[m];
        }
        costs
    }
}

// Where the date of a run stands in the table.
fn pair_of(places: &Vec<usize>, announced: bool, run: usize) -> usize
    requires { run < vec_len places.now }
    ensures { result ≡ pair_of places.now.items announced run }
{
    if announced { places[run] } else { run }
}

/// What the dates cost, without the seconds that are given up for the call sign.
#[derive(Drop)]
pub struct DateTable {
    /// A pair of parts for each run, where no leap second is announced. Behind them stand those that announce one, of the runs
    /// in which they tell something else.
    pub costs: LayerTable,
    /// Where that stands which announces one, of each run.
    pub announced: Vec<usize>,
}

/// A table of what the dates cost.
pub fn dates_of(
    alloc: Global,
    parts: &Parts,
    columns: &SlotColumns,
) -> Result<DateTable, AllocError>
    ensures { IfOk result (λ dates. AreDateCosts parts.now columns.now dates.costs dates.announced.items) }
{
    let station = columns.station();
    let mut all = kept_parts(alloc, parts, station)?;
    let announced = add_announced(alloc, &mut all, parts, station)?;
    let costs = LayerTable::make(alloc, columns, &all, &all)?;
    Ok(DateTable { costs, announced })
}

// What the date tells in each run, but of the seconds that are given up.
fn kept_parts(alloc: Global, parts: &Parts, station: Station) -> Result<Vec<Part>, AllocError>
    ensures count { IfOk result (λ all. vec_len all ≡ length parts.now.runs) }
    ensures each { IfOk result (λ all. (i : ℕ) → i < length parts.now.runs → slice_index_or all.items i [] ≡ kept station (run_at parts.now.runs i).unannounced) }
{
    let mut all = Vec::with_capacity(alloc, parts.runs())?;
    for i in 0..parts.runs() {
        all.push(kept(station, &parts.run(i).unannounced))?;
    }
    Ok(all)
}

// Adds what the date tells where a leap second is announced, and says where that stands of each run.
fn add_announced(
    alloc: Global,
    all: &mut Vec<Part>,
    parts: &Parts,
    station: Station,
) -> Result<Vec<usize>, AllocError>
    requires count { vec_len all.old ≡ length parts.now.runs }
    requires each { (i : ℕ) → i < length parts.now.runs → slice_index_or all.old.items i [] ≡ kept station (run_at parts.now.runs i).unannounced }
    ensures count { IfOk result (λ places. vec_len places ≡ length parts.now.runs) }
    ensures unannounced { IfOk result (λ places. ArePairsOf parts.now station false all.new.items places.items (length parts.now.runs)) }
    ensures announced { IfOk result (λ places. ArePairsOf parts.now station true all.new.items places.items (length parts.now.runs)) }
{
    let mut places = Vec::with_capacity(alloc, parts.runs())?;
    for i in 0..parts.runs() {
        let place = place_of_announced(all, parts.run(i), station, i)?;
        places.push(place)?;
    }
    Ok(places)
}

// Where that of a run stands, which is added if the run tells something else without the announcement. This stands at `i`.
fn place_of_announced(
    all: &mut Vec<Part>,
    run: &Run,
    station: Station,
    i: usize,
) -> Result<usize, AllocError>
    requires within { i < vec_len all.old }
    requires unannounced { slice_index_or all.old.items i [] ≡ kept station run.now.unannounced }
    ensures longer { OnOk result (vec_len all.old ≤ vec_len all.new) }
    ensures others { OnOk result ((k : ℕ) → k < vec_len all.old → slice_index_or all.new.items k [] ≡ slice_index_or all.old.items k []) }
    ensures within { IfOk result (λ place. place < vec_len all.new) }
    ensures place { IfOk result (λ place. slice_index_or all.new.items place [] ≡ kept station run.now.announced) }
{
    if is_told_alike(run) {
        return Ok(i);
    }
    let told = kept(station, &run.announced);
    if told == all[i] {
        return Ok(i);
    }
    all.push(told)?;
    Ok(all.len() - 1)
}

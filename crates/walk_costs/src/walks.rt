//! What sequences cost a station, by tables that were made for a window.

ghost use Rattle.std.specs.Prelude.{◌≡◌, ◌==◌, ◌+◌, ◌/◌, ◌%◌, ◌<◌, ◌≤◌, ◌↔◌, ℕ, All, IfOk, IfSome, IsNone, IsTrue, false, length, true};
ghost use Rattle.signal_base.specs.declared.limits.TheConstants.{GREATEST_COST};
ghost use Rattle.definitions.specs.time.Calendar.{century_minutes, is_leap_end, minutes_per_day};
ghost use Rattle.symbol_cost.specs.Grid.{HasCosts, cost_at};
ghost use Rattle.minute_parts.specs.Parts.{IsPartTable};
ghost use Rattle.minute_parts.specs.declared.call.TheConstants.{CALL_MINUTES};
ghost use Rattle.slot_columns.specs.Parts.{AreWalkCosts, most_cost};
ghost use Rattle.walk_costs.specs.Dates.{AreAdded, IsAdded, minutes_to_call};
ghost use Rattle.minute_parts.specs.Walks.{later_minutes};
ghost use Rattle.walk_costs.specs.Changes.{IsChange};
ghost use Rattle.walk_costs.specs.Leasts.{AreLeast};
ghost use Rattle.walk_costs.specs.Spans.{HoldsDates};
ghost use Rattle.walk_costs.specs.Walks.{AreSmall, IsRegularIn, IsShown, MayAdd, ShowsAnnouncement, cost_of, last_minute};

use crate::change::{Change, changes_of};
use crate::dut::added;
use crate::kept::{DateTable, dates_of};
use crate::least::LeastWalks;
use crate::set_costs::look_at_all;
use crate::shown::{Shown, TWO_MINUTES, differs_elsewhere, is_told_alike, some_slot_shows};
use crate::span::{DateSpan, spans_of};
use civil::Civil;
use definitions::{CENTURY_MINUTES, MINUTES_PER_DAY, MINUTES_PER_HOUR};
use minute_parts::{CALL_MINUTE, CALL_MINUTES, Part, Parts, Unions, later_minutes};
use slot_columns::{LayerTable, SECONDS_PER_MINUTE, SlotColumns, WalkTable};
use std::alloc::{AllocError, Global};
use std::marker::Model;
use symbol_cost::CostGrid;

/// What a station's sequences cost in the slots of a window. Contracts see the parts of its telegrams and the grid of
/// costs.
#[derive(Drop)]
pub struct StationWalks<'a> {
    pub(crate) unions: &'a Unions,
    pub(crate) columns: SlotColumns,
    pub(crate) walks: WalkTable,
    pub(crate) added: [u32; SECONDS_PER_MINUTE],
    pub(crate) dates: LayerTable,
    pub(crate) announced_dates: Vec<usize>,
    pub(crate) least: LeastWalks,
    pub(crate) changes: Vec<Change>,
    pub(crate) spans: Vec<DateSpan>,
}

impl<'a> Model for StationWalks<'a> {
    ghost use Rattle.walk_costs.specs.Walks.{AreKept, PricedParts};

    ghost Value = { PricedParts };

    ghost view = { λ w. record { parts = w.unions.now; grid = w.columns } };

    ghost invariant = { λ w. AreKept w.unions.now w.columns w.walks w.added w.dates w.announced_dates.items w.least w.changes.items w.spans.items };
}

impl<'a> StationWalks<'a> {
    /// Adds up what the parts of a station cost by its grid.
    pub fn make(
        alloc: Global,
        unions: &'a Unions,
        grid: &CostGrid,
    ) -> Result<StationWalks<'a>, AllocError>
        requires { unions.now.station ≡ grid.now.station }
        ensures parts { IfOk result (λ walks. walks.parts ≡ unions.now) }
        ensures costs { IfOk result (λ walks. HasCosts walks.grid grid.now.station (length grid.now.rows) (cost_at grid.now.rows)) }
        ensures receivers { IfOk result (λ walks. walks.grid.receivers ≡ grid.now.receivers) }
    {
        // The parts are a table, as their end is one.
        let parts = unions.parts();
        prove!(parts.end() <= CENTURY_MINUTES);
        let columns = SlotColumns::make(alloc, grid)?;
        let walks = walks_of(alloc, parts, &columns)?;
        let added = all_added(&columns);
        let DateTable { costs, announced } = dates_of(alloc, parts, &columns)?;
        let FloorParts {
            least,
            changes,
            spans,
        } = floor_parts_of(alloc, parts, &columns, &walks)?;
        look_at_all(&columns);
        Ok(StationWalks {
            unions,
            columns,
            walks,
            added,
            dates: costs,
            announced_dates: announced,
            least,
            changes,
            spans,
        })
    }

    /// What the station's seconds may carry.
    pub fn parts(&self) -> &Parts
        ensures { result.now ≡ self.now.parts }
    {
        self.unions.parts()
    }

    /// The same over ranges of minutes.
    pub fn unions(&self) -> &Unions
        ensures unions { result.now ≡ self.now.parts }
        ensures station { self.now.parts.station ≡ self.now.grid.station }
    {
        self.unions
    }

    /// What sets cost in the slots.
    pub fn columns(&self) -> &SlotColumns
        ensures columns { result.now ≡ self.now.grid }
        ensures small { AreSmall self.now.grid }
        ensures fits { most_cost self.now.grid ≤ GREATEST_COST }
    {
        &self.columns
    }

    /// The run in which the walk from second `p` of the minute `t0` lies, where that is a walk through minutes of 60 seconds
    /// that lie in one run. None exactly where it isn't.
    pub fn run_of_walk(&self, civil: &Civil, announced: bool, p: u8, t0: u32) -> Option<usize>
        ensures found { IfSome result (λ i. IsRegularIn self.now announced p t0 i) }
        ensures none { IsNone result → (i : ℕ) → ¬ (IsRegularIn self.now announced p t0 i) }
    {
        let parts = self.unions.parts();
        if p as usize >= SECONDS_PER_MINUTE || t0 >= parts.end() {
            return None;
        }
        let run = parts.run_of(t0);
        let later = self.later_minutes(p);
        if later >= parts.run_end(run) - t0 {
            return None;
        }
        if announced && meets_leap_end(civil, t0, t0 + later) {
            return None;
        }
        Some(run)
    }

    /// What a sequence costs the station, where its walk from second `p` of the minute `t0` has 60 seconds in each minute
    /// and lies in one run. None exactly where it doesn't.
    pub fn cost(&self, civil: &Civil, announced: bool, p: u8, t0: u32) -> Option<u32>
        ensures cost { IfSome result (λ cost. cost ≡ cost_of self.now announced p t0) }
        ensures bound { IfSome result (λ cost. cost ≤ most_cost self.now.grid) }
        ensures none { IsNone result → (i : ℕ) → ¬ (IsRegularIn self.now announced p t0 i) }
    {
        match self.run_of_walk(civil, announced, p, t0) {
            Some(run) => Some(self.cost_in(announced, p, t0, run)),
            None => None,
        }
    }

    /// What a sequence costs the station that begins in second `p` of the minute `t0`, where its walk has 60 seconds in each
    /// minute and lies in the run.
    pub fn cost_in(&self, announced: bool, p: u8, t0: u32, run: usize) -> u32
        requires { IsRegularIn self.now announced p t0 run }
        ensures cost { result ≡ cost_of self.now announced p t0 }
        ensures bound { result ≤ most_cost self.now.grid }
    {
        let dates = self.date_costs(announced, p, run);
        let walks = &self.walks;
        let u = local_time(self.unions.parts().run(run).shift, t0);
        let date = dates[minutes_to_call(u) as usize];
        let added = self.added_from(p, t0);
        walks.cost(p, u) + date + added
    }

    /// What none of the sequences costs the station less than that begin in second `p` of the minutes from `lo` up to, and
    /// without, `hi`, where their walks have 60 seconds in each minute and lie in the run: the least of their costs, without
    /// what DUT1 adds unless all of them lie in one UTC day.
    pub fn least_among(&self, announced: bool, p: u8, run: usize, lo: u32, hi: u32) -> u32
        requires some { lo < hi }
        requires walks { (t0 : ℕ) → lo ≤ t0 → t0 < hi → IsRegularIn self.now announced p t0 run }
        ensures floor { (t0 : ℕ) → lo ≤ t0 → t0 < hi → result ≤ cost_of self.now announced p t0 }
        ensures bound { result ≤ most_cost self.now.grid }
    {
        let dates = self.date_costs(announced, p, run);
        let row = self.walks.row(p);
        let shift = self.unions.parts().run(run).shift;
        let added = self.added_to_all(p, lo, hi);
        let mut least = u32::MAX;
        for t0 in lo..hi {
            let u = local_time(shift, t0);
            let cost = row[u as usize] + dates[minutes_to_call(u) as usize];
            least = least.min(cost);
        }
        least + added
    }

    // Whether the walks show an announcement that lie in the run and begin in second `p`.
    pub(crate) fn shown(&self, announced: bool, p: u8, run: usize) -> Shown
        requires { run < length self.now.parts.runs }
        ensures { IsShown self.now announced p run result }
    {
        if !announced {
            return Shown::Never;
        }
        let at = self.unions.parts().run(run);
        if is_told_alike(at) {
            return Shown::Never;
        }
        let seconds = self.columns.seconds();
        if seconds >= TWO_MINUTES {
            return Shown::Always;
        }
        if seconds as usize >= SECONDS_PER_MINUTE && differs_elsewhere(self.columns.station(), at) {
            return Shown::Always;
        }
        Shown::Sometimes
    }

    /// Whether an announced sequence shows the announcement, whose walk from second `p` of the minute `t0` lies in the run.
    pub fn shows(&self, p: u8, run: usize, t0: u32) -> bool
        requires { IsRegularIn self.now true p t0 run }
        ensures { IsTrue result ↔ ShowsAnnouncement self.now (record { first = t0; second = p; announced = true }) }
    {
        match self.shown(true, p, run) {
            Shown::Never => false,
            Shown::Always => true,
            Shown::Sometimes => self.shows_in_slot(p, run, t0),
        }
    }

    // The same by a look at the slots.
    pub(crate) fn shows_in_slot(&self, p: u8, run: usize, t0: u32) -> bool
        requires { IsRegularIn self.now true p t0 run }
        ensures { IsTrue result ↔ ShowsAnnouncement self.now (record { first = t0; second = p; announced = true }) }
    {
        let parts = self.unions.parts();
        let at = parts.run(run);
        let u = local_time(at.shift, t0);
        some_slot_shows(parts, at, u, p, 0, self.columns.seconds())
    }

    /// How many minutes a walk from second `p` goes on after its first.
    pub fn later_minutes(&self, p: u8) -> u32
        requires { p < SECONDS_PER_MINUTE }
        ensures count { result ≡ later_minutes (length self.now.grid.rows) p }
        ensures bound { result ≤ 20 }
    {
        later_minutes(self.columns.seconds(), p)
    }

    /// What the seconds of DUT1 add: nothing where the walk goes on to another UTC day.
    pub fn added_from(&self, p: u8, t0: u32) -> u32
        requires second { p < SECONDS_PER_MINUTE }
        requires minute { t0 < century_minutes }
        ensures one_day { (last_minute self.now p t0 / minutes_per_day == t0 / minutes_per_day) ≡ true → IsAdded self.now.grid p result }
        ensures two_days { (last_minute self.now p t0 / minutes_per_day == t0 / minutes_per_day) ≡ false → result ≡ 0 }
    {
        let last = t0 + self.later_minutes(p);
        if last / MINUTES_PER_DAY == t0 / MINUTES_PER_DAY {
            self.added[p as usize]
        } else {
            0
        }
    }

    // What they add to each of the walks that begin in the minutes from `lo` up to, and without, `hi`. It is nothing unless all
    // of them lie in one UTC day.
    pub(crate) fn added_to_all(&self, p: u8, lo: u32, hi: u32) -> u32
        requires second { p < SECONDS_PER_MINUTE }
        requires some { lo < hi }
        requires century { hi ≤ century_minutes }
        ensures { (t0 : ℕ) → lo ≤ t0 → t0 < hi → MayAdd self.now p t0 result }
    {
        let last = hi - 1 + self.later_minutes(p);
        if last / MINUTES_PER_DAY != lo / MINUTES_PER_DAY {
            return 0;
        }
        self.added[p as usize]
    }
}

// What the walks through a day cost by the time of day.
fn walks_of(alloc: Global, parts: &Parts, columns: &SlotColumns) -> Result<WalkTable, AllocError>
    requires { IsPartTable parts.now }
    ensures { IfOk result (λ walks. AreWalkCosts walks columns.now parts.now.times) }
{
    let times = times_of(alloc, parts)?;
    let walks = WalkTable::make(alloc, columns, &times)?;
    Ok(walks)
}

// What floors are made from: the least costs of walks by time of day and date, the changes between runs, and the dates of years.
#[derive(Drop)]
struct FloorParts {
    least: LeastWalks,
    changes: Vec<Change>,
    spans: Vec<DateSpan>,
}

fn floor_parts_of(
    alloc: Global,
    parts: &Parts,
    columns: &SlotColumns,
    walks: &WalkTable,
) -> Result<FloorParts, AllocError>
    requires table { IsPartTable parts.now }
    requires costs { AreWalkCosts walks.now columns.now parts.now.times }
    requires station { columns.now.station ≡ parts.now.station }
    ensures inside { IfOk result (λ made. AreLeast parts.now columns.now false made.least.inside) }
    ensures across { IfOk result (λ made. AreLeast parts.now columns.now true made.least.across) }
    ensures over { IfOk result (λ made. All (IsChange parts.now columns.now) made.changes.items) }
    ensures held { IfOk result (λ made. All (HoldsDates parts.now columns.now.station) made.spans.items) }
{
    let least = LeastWalks::make(alloc, parts, columns, walks)?;
    let changes = changes_of(alloc, parts, columns)?;
    let spans = spans_of(alloc, parts, columns.station())?;
    Ok(FloorParts {
        least,
        changes,
        spans,
    })
}

// The parts by the time of day, in a row.
fn times_of(alloc: Global, parts: &Parts) -> Result<Vec<Part>, AllocError>
    requires { IsPartTable parts.now }
    ensures { IfOk result (λ times. times.items ≡ parts.now.times) }
{
    let mut times = Vec::with_capacity(alloc, MINUTES_PER_DAY as usize)?;
    for u in 0..MINUTES_PER_DAY as u16 {
        times.push(*parts.time_part(u))?;
    }
    Ok(times)
}

// What DUT1 adds, for each second in which a walk may begin.
fn all_added(columns: &SlotColumns) -> [u32; SECONDS_PER_MINUTE]
    ensures { AreAdded columns.now result }
{
    let mut all = [0; SECONDS_PER_MINUTE];
    for p in 0..SECONDS_PER_MINUTE {
        all[p] = added(columns, p as u8);
    }
    all
}

/// Whether one of these minutes, at most 21, is the last one of a 30 June or a 31 December.
pub fn meets_leap_end(civil: &Civil, first: u32, last: u32) -> bool
    requires order { first ≤ last }
    requires few { last ≤ first + 20 }
    requires century { last < century_minutes }
    ensures { IsTrue result ↔ ((t : ℕ) × (first ≤ t) × (t ≤ last) × (is_leap_end t ≡ true)) }
{
    let end = first / MINUTES_PER_DAY * MINUTES_PER_DAY + (MINUTES_PER_DAY - 1);
    end <= last && civil.leap_end(end)
}

/// The minute of the local day that is encoded in the minute `t`.
pub fn local_time(shift: u16, t: u32) -> u16
    requires { t < century_minutes }
    ensures time { result ≡ (t + shift) % minutes_per_day }
    ensures bound { result < minutes_per_day }
{
    ((t + shift as u32) % MINUTES_PER_DAY) as u16
}

/// After how many minutes the call sign of JJY is sent.
pub fn minutes_to_call(u: u16) -> u8
    ensures minutes { result ≡ minutes_to_call u }
    ensures bound { result < CALL_MINUTES }
{
    ((MINUTES_PER_HOUR as u16 + CALL_MINUTE - u % MINUTES_PER_HOUR as u16)
        % CALL_MINUTES as u16) as u8
}

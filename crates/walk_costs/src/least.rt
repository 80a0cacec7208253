//! What no walk costs less than, at any time of day at which it may begin.
//!
//! It is what the date costs and the least that any time of day does. Where JJY sends its call sign it gives up seconds of
//! the date, and which minute of a walk that is depends on the time of day. So what dates tell in those seconds is counted
//! with the time of day.

ghost use Rattle.std.specs.Prelude.{◌≡◌, ◌+◌, ◌*◌, ◌^◌, ◌<◌, ◌≤◌, ℕ, IfOk, OnOk, [], false, length, slice_index, true};
ghost use Rattle.definitions.specs.time.Calendar.{minutes_per_day};
ghost use Rattle.minute_parts.specs.Parts.{IsPartTable};
ghost use Rattle.slot_columns.specs.Layered.{AreAdded, AreGroups};
ghost use Rattle.slot_columns.specs.Parts.{AreWalkCosts, entry, most_cost};
ghost use Rattle.walk_costs.specs.Crossings.{IsAcross};
ghost use Rattle.walk_costs.specs.Dates.{most_given};
ghost use Rattle.walk_costs.specs.Leasts.{AreBegins, AreLeast, AreLeastSums, AreThirdCosts, AreThirds, IsLeastBy, IsLeastOf, IsRowAt, IsSplitIn, IsThirdRow, begin_count, call_class, given_at, least_at, place_of_run, split_at, third_at};
ghost use Rattle.walk_costs.specs.Walks.{IsRegularIn, cost_of};

use crate::date::{ByMinute, given_costs, walk_minutes};
use crate::kinds::{Kind, kinds_of};
use crate::thirds::{Split, Thirds, thirds_of};
use crate::walks::{StationWalks, minutes_to_call};
use definitions::MINUTES_PER_DAY;
use minute_parts::{CALL_MINUTES, Parts, later_minutes};
use signal_base::GREATEST_COST;
use slot_columns::{SECONDS_PER_MINUTE, SlotColumns, WalkTable};
use std::alloc::{AllocError, Global};

/// What walks cost at the least, besides what the date costs in the seconds that the station doesn't give up.
#[derive(Drop)]
pub struct LeastWalks {
    /// Those that lie in one run.
    pub inside: LeastTable,
    /// Those that go on to the next.
    pub across: LeastTable,
}

impl LeastWalks {
    /// Looks at all times of day and the dates of all runs.
    pub fn make(
        alloc: Global,
        parts: &Parts,
        columns: &SlotColumns,
        walks: &WalkTable,
    ) -> Result<LeastWalks, AllocError>
        requires table { IsPartTable parts.now }
        requires costs { AreWalkCosts walks.now columns.now parts.now.times }
        ensures inside { IfOk result (λ least. AreLeast parts.now columns.now false least.inside) }
        ensures across { IfOk result (λ least. AreLeast parts.now columns.now true least.across) }
    {
        Ok(LeastWalks {
            inside: LeastTable::make(alloc, parts, columns, walks, false)?,
            across: LeastTable::make(alloc, parts, columns, walks, true)?,
        })
    }
}

/// The same by kinds of walks.
#[derive(Drop)]
pub struct LeastTable {
    /// How many kinds there are.
    pub kinds: usize,
    /// For each second in which a walk may begin a cost for each kind.
    pub costs: Vec<u32>,
    /// Two kinds for each run: where no leap second is announced, and where one is.
    pub places: Vec<usize>,
    /// Where the thirds of each kind stand.
    pub splits: Vec<Split>,
    /// How many thirds there are.
    pub thirds: usize,
    /// For each second in which a walk may begin a row for each third: what it costs in the seconds that are given up.
    pub given: Vec<ByMinute>,
}

impl LeastTable {
    fn make(
        alloc: Global,
        parts: &Parts,
        columns: &SlotColumns,
        walks: &WalkTable,
        across: bool,
    ) -> Result<LeastTable, AllocError>
        requires table { IsPartTable parts.now }
        requires costs { AreWalkCosts walks.now columns.now parts.now.times }
        ensures { IfOk result (λ table. AreLeast parts.now columns.now across table) }
    {
        // The slots are few.
        columns.seconds();
        let kinds = kinds_of(alloc, parts, columns.station(), across)?;
        let thirds = thirds_of(alloc, &kinds.all)?;
        let costs = least_costs(alloc, columns, walks, &kinds.all, &thirds, across)?;
        Ok(LeastTable {
            kinds: kinds.all.len(),
            costs: costs.least,
            places: kinds.places,
            thirds: thirds.all.len(),
            splits: thirds.splits,
            given: costs.given,
        })
    }

    /// That of the walks from second `p` which begin in a run.
    pub fn at(&self, announced: bool, p: u8, run: usize) -> u32
        requires second { p < SECONDS_PER_MINUTE }
        requires run { (runs : ℕ) × (run < runs) × AreLeastSums self.now runs }
        ensures { result ≡ least_at self.now announced p run }
    {
        let kind = self.kind(announced, run);
        self.costs[p as usize * self.kinds + kind]
    }

    /// What their dates cost in the seconds that are given up, by how many minutes after a walk's first one the call sign comes.
    pub fn given(&self, announced: bool, p: u8, run: usize) -> ByMinute
        requires second { p < SECONDS_PER_MINUTE }
        requires run { (runs : ℕ) × (run < runs) × AreLeastSums self.now runs }
        ensures { (m : ℕ) → m < CALL_MINUTES → slice_index result m ≡ given_at self.now announced p run m }
    {
        let split = self.splits[self.kind(announced, run)];
        let low = self.third(p, split.low);
        let middle = self.third(p, split.middle);
        let high = self.third(p, split.high);
        sum_of(low, middle, high)
    }

    // The row of a third.
    fn third(&self, p: u8, third: usize) -> &ByMinute
        requires second { p < SECONDS_PER_MINUTE }
        requires third { third < self.now.thirds }
        requires sums { (runs : ℕ) × AreLeastSums self.now runs }
        ensures costs { (m : ℕ) → m < CALL_MINUTES → slice_index result.now m ≡ third_at self.now p third m }
        ensures small { (m : ℕ) → m < CALL_MINUTES → slice_index result.now m ≤ most_given }
    {
        &self.given[p as usize * self.thirds + third]
    }

    /// The kind of the walks which begin in a run. Walks of one kind cost the same at the least.
    #[inline(always)]
    pub(crate) fn kind(&self, announced: bool, run: usize) -> usize
        requires { (runs : ℕ) × (run < runs) × AreLeastSums self.now runs }
        ensures { result ≡ slice_index self.now.places.items (place_of_run announced run) }
    {
        // The places are so many that their numbers fit.
        self.places[place_of_run(announced, run)]
    }
}

// Where the place of a run stands.
fn place_of_run(announced: bool, run: usize) -> usize
    requires { 2 * run + 1 < 2 ^ 64 }
    ensures { result ≡ place_of_run announced run }
{
    if announced { 2 * run + 1 } else { 2 * run }
}

impl StationWalks<'_> {
    /// What none of the sequences costs the station less than that begin in second `p` of the minutes from `lo` up to, and
    /// without, `hi`, where their walks have 60 seconds in each minute and lie in the run.
    pub fn least_in(&self, announced: bool, p: u8, run: usize, lo: u32, hi: u32) -> u32
        requires second { p < SECONDS_PER_MINUTE }
        requires run { run < length self.now.parts.runs }
        requires some { lo < hi }
        requires walks { (t0 : ℕ) → lo ≤ t0 → t0 < hi → IsRegularIn self.now announced p t0 run }
        ensures floor { (t0 : ℕ) → lo ≤ t0 → t0 < hi → result ≤ cost_of self.now announced p t0 }
        ensures bound { result ≤ most_cost self.now.grid }
    {
        let dates = self.kept_cost_of_both(announced, p, run, run);
        let least = self.least.inside.at(announced, p, run);
        let added = self.added_to_all(p, lo, hi);
        dates + least + added
    }

    /// The same where their walks go from the run to the next, which encodes the local time alike.
    pub fn least_across(&self, announced: bool, p: u8, run: usize, lo: u32, hi: u32) -> u32
        requires second { p < SECONDS_PER_MINUTE }
        requires next { run + 1 < length self.now.parts.runs }
        requires some { lo < hi }
        requires walks { (t0 : ℕ) → lo ≤ t0 → t0 < hi → IsAcross self.now announced p t0 run }
        ensures floor { (t0 : ℕ) → lo ≤ t0 → t0 < hi → result ≤ cost_of self.now announced p t0 }
        ensures bound { result ≤ most_cost self.now.grid }
    {
        // The next run's number fits, as the count of runs does.
        self.unions.parts().runs();
        let dates = self.kept_cost_of_both(announced, p, run, run + 1);
        let least = self.least.across.at(announced, p, run);
        let added = self.added_to_all(p, lo, hi);
        dates + least + added
    }
}

/// What kinds of walks and their thirds cost, for each second in which a walk may begin.
#[derive(Drop)]
pub struct KindCosts {
    /// A cost for each kind: the least of its walks.
    pub least: Vec<u32>,
    /// A row for each third: what it costs in the seconds that are given up.
    pub given: Vec<ByMinute>,
}

// Those of some kinds and their thirds.
fn least_costs(
    alloc: Global,
    columns: &SlotColumns,
    walks: &WalkTable,
    kinds: &[Kind],
    thirds: &Thirds,
    across: bool,
) -> Result<KindCosts, AllocError>
    requires { AreThirds kinds.now thirds.now.all.items thirds.now.splits.items (length kinds.now) }
    ensures least { IfOk result (λ costs. AreGroups 0 (IsLeastOf columns.now walks.now kinds.now across) (length kinds.now) costs.least.items SECONDS_PER_MINUTE) }
    ensures given { IfOk result (λ costs. AreGroups [] (IsThirdRow columns.now thirds.now.all.items) (length thirds.now.all.items) costs.given.items SECONDS_PER_MINUTE) }
{
    let mut least = Vec::new(alloc);
    let mut given = Vec::new(alloc);
    for p in 0..SECONDS_PER_MINUTE {
        let rows = third_costs(alloc, columns, &thirds.all, p as u8)?;
        let count = begin_count(columns, p as u8, across);
        let reached = walk_minutes(columns, p as u8);
        push_costs(
            &mut least,
            walks,
            kinds,
            &thirds.splits,
            &rows,
            p as u8,
            count,
            reached,
        )?;
        add_rows(&mut given, &rows)?;
    }
    Ok(KindCosts { least, given })
}

// Adds copies of some rows.
fn add_rows(given: &mut Vec<ByMinute>, rows: &[ByMinute]) -> Result<(), AllocError>
    ensures { OnOk result (AreAdded [] (IsRowAt rows.now) given.old.items given.new.items (length rows.now)) }
{
    for h in 0..rows.len() {
        given.push(rows[h])?;
    }
    Ok(())
}

// What each third costs in the seconds that are given up.
fn third_costs(
    alloc: Global,
    columns: &SlotColumns,
    thirds: &[Kind],
    p: u8,
) -> Result<Vec<ByMinute>, AllocError>
    requires { p < SECONDS_PER_MINUTE }
    ensures { IfOk result (λ rows. AreThirdCosts columns.now p thirds.now rows.items (length thirds.now)) }
{
    let mut rows = Vec::with_capacity(alloc, thirds.len())?;
    for i in 0..thirds.len() {
        rows.push(given_costs(columns, p, &thirds[i].told))?;
    }
    Ok(rows)
}

// In how many minutes a walk may begin: in any of a day, or in the last ones from which it goes over the end of a run. Where
// none does that, the last one stands for it.
fn begin_count(columns: &SlotColumns, p: u8, across: bool) -> u32
    requires { p < SECONDS_PER_MINUTE }
    ensures count { result ≡ begin_count (length columns.now.rows) across p }
    ensures bound { result ≤ minutes_per_day }
{
    if across {
        later_minutes(columns.seconds(), p).max(1)
    } else {
        MINUTES_PER_DAY
    }
}

// The least of each kind, of the walks from second `p` that begin in so many minutes, and go through `reached` ones.
fn push_costs(
    costs: &mut Vec<u32>,
    walks: &WalkTable,
    kinds: &[Kind],
    splits: &[Split],
    rows: &[ByMinute],
    p: u8,
    count: u32,
    reached: usize,
) -> Result<(), AllocError>
    requires second { p < SECONDS_PER_MINUTE }
    requires count { count ≤ minutes_per_day }
    requires reached { reached < CALL_MINUTES }
    requires splits { (k : ℕ) → k < length kinds.now → (k < length splits.now) × IsSplitIn (split_at splits.now k) (length rows.now) }
    requires small { (h m : ℕ) → h < length rows.now → m < CALL_MINUTES → entry rows.now h m ≤ most_given }
    ensures { OnOk result (AreAdded 0 (IsLeastBy walks.now kinds.now splits.now rows.now p count reached) costs.old.items costs.new.items (length kinds.now)) }
{
    let mut begins = begins_of(walks, p, count, reached, MINUTES_PER_DAY as u16 - 1);
    for k in 0..kinds.len() {
        change_last(&mut begins, walks, p, count, reached, kinds[k].last);
        let split = splits[k];
        let least = least_of(
            &begins,
            &rows[split.low],
            &rows[split.middle],
            &rows[split.high],
            reached,
        );
        costs.push(least)?;
    }
    Ok(())
}

/// What walks cost at the least by the time of day, by how many minutes after their first one the call sign comes. Those count as
/// one that go through fewer.
#[derive(Clone, Copy)]
pub struct Begins {
    /// The last minute of the local day in which they begin.
    pub last: u16,
    /// None has the call sign in a minute before this.
    pub first: usize,
    /// The costs.
    pub costs: ByMinute,
}

// Those of the walks from second `p` that begin in the last minutes up to this one, so many of them.
fn begins_of(walks: &WalkTable, p: u8, count: u32, reached: usize, last: u16) -> Begins
    requires second { p < SECONDS_PER_MINUTE }
    requires count { count ≤ minutes_per_day }
    requires reached { reached < CALL_MINUTES }
    ensures last { result.last ≡ last }
    ensures costs { AreBegins walks.now p count reached result }
{
    let row = walks.row(p);
    let mut costs = [GREATEST_COST; CALL_MINUTES];
    let mut first = reached;
    for j in 0..count {
        let u = (MINUTES_PER_DAY + last as u32 - j) % MINUTES_PER_DAY;
        let m = call_class(u as u16, reached);
        costs[m] = costs[m].min(row[u as usize]);
        first = first.min(m);
    }
    Begins { last, first, costs }
}

// After how many minutes the call sign is sent, where a walk goes through so many.
fn call_class(u: u16, reached: usize) -> usize
    ensures value { result ≡ call_class reached u }
    ensures bound { result ≤ reached }
{
    (minutes_to_call(u) as usize).min(reached)
}

// Makes them those up to another minute.
fn change_last(begins: &mut Begins, walks: &WalkTable, p: u8, count: u32, reached: usize, last: u16)
    requires second { p < SECONDS_PER_MINUTE }
    requires count { count ≤ minutes_per_day }
    requires reached { reached < CALL_MINUTES }
    requires begins { AreBegins walks.now p count reached begins.old }
    ensures last { begins.new.last ≡ last }
    ensures costs { AreBegins walks.now p count reached begins.new }
{
    if begins.last != last {
        *begins = begins_of(walks, p, count, reached, last);
    }
}

// The least of four costs together.
fn least_of(
    begins: &Begins,
    low: &ByMinute,
    middle: &ByMinute,
    high: &ByMinute,
    reached: usize,
) -> u32
    requires reached { reached < CALL_MINUTES }
    requires room { (m : ℕ) → m < CALL_MINUTES
        → slice_index begins.now.costs m + slice_index low.now m + slice_index middle.now m + slice_index high.now m < 2 ^ 32 }
    ensures { (m : ℕ) → begins.now.first ≤ m → m ≤ reached
        → result ≤ slice_index begins.now.costs m + slice_index low.now m + slice_index middle.now m + slice_index high.now m }
{
    let mut least = u32::MAX;
    for m in begins.first..reached + 1 {
        least = least.min(begins.costs[m] + low[m] + middle[m] + high[m]);
    }
    least
}

// What three rows cost together, minute by minute.
fn sum_of(low: &ByMinute, middle: &ByMinute, high: &ByMinute) -> ByMinute
    requires { (m : ℕ) → m < CALL_MINUTES → slice_index low.now m + slice_index middle.now m + slice_index high.now m < 2 ^ 32 }
    ensures { (m : ℕ) → m < CALL_MINUTES → slice_index result m ≡ slice_index low.now m + slice_index middle.now m + slice_index high.now m }
{
    let mut costs = *low;
    for m in 0..CALL_MINUTES {
        costs[m] = low[m] + middle[m] + high[m];
    }
    costs
}

//! What the walks through a day cost.

ghost use Rattle.std.specs.Prelude.{◌≡◌, ◌+◌, ◌*◌, ◌/◌, ◌%◌, ◌^◌, ◌<◌, ◌≤◌, ℕ, IfOk, length, slice_index};
ghost use Rattle.signal_base.specs.declared.limits.TheConstants.{MOST_RECEIVERS, MOST_SECONDS};
ghost use Rattle.definitions.specs.time.Calendar.{minutes_per_day};
ghost use Rattle.definitions.specs.heard.Costs.{sum_below};
ghost use Rattle.symbol_cost.specs.declared.limits.TheConstants.{RECEIVER_COST};
ghost use Rattle.slot_columns.specs.declared.limits.TheConstants.{HOUR_MINUTES, LATER_MINUTES, REACHED_HOURS, REACHED_MINUTES, SETS};
ghost use Rattle.slot_columns.specs.Days.{cost_so_far, day_cost};
ghost use Rattle.slot_columns.specs.Parts.{AreOfWalks, AreWalkCosts, entry};
ghost use Rattle.slot_columns.specs.Rows.{IsBounded, cost_in_slot};

use crate::columns::SlotColumns;
use crate::day_columns::{Day, DayColumn};
use crate::limits::{DAY_MINUTES, HOUR_MINUTES, LATER_MINUTES, REACHED_HOURS, SECONDS_PER_MINUTE};
use crate::part::Part;
use crate::slots::{Row, SlotCosts};
use crate::sums::{ByHour, HourRow, Sums};
use std::alloc::{AllocError, Global};
use std::marker::Model;

/// What the walks cost that begin in each minute of a day.
pub type WalkRow = [u32; DAY_MINUTES];

/// What the parts of a day's minutes cost, for each second of a minute and each minute of the day in which a walk may
/// begin.
#[derive(Drop)]
pub struct WalkTable {
    costs: Vec<WalkRow>,
}

impl Model for WalkTable {
    ghost use Rattle.std.specs.Prelude.{◌≡◌, List, ℕ, length};
    ghost use Rattle.slot_columns.specs.declared.limits.TheConstants.{SECONDS_PER_MINUTE};

    ghost Value = { List (List ℕ) };

    ghost view = { λ t. t.costs.items };

    ghost invariant = { λ t. length t.costs.items ≡ SECONDS_PER_MINUTE };
}

impl WalkTable {
    /// Adds up the costs of the parts of a day's 1,440 minutes, of which the first follows the last.
    pub fn make(
        alloc: Global,
        columns: &SlotColumns,
        times: &[Part],
    ) -> Result<WalkTable, AllocError>
        requires { length times.now ≡ minutes_per_day }
        ensures { IfOk result (λ table. AreWalkCosts table columns.now times.now) }
    {
        let costs = walk_rows(alloc, &columns.slots, times)?;
        Ok(WalkTable { costs })
    }

    /// What the window costs where the walk begins in second `p`, below 60, of minute `u` of the day.
    pub fn cost(&self, p: u8, u: u16) -> u32
        requires second { p < SECONDS_PER_MINUTE }
        requires minute { u < minutes_per_day }
        ensures { result ≡ entry self.now p u }
    {
        self.costs[p as usize][u as usize]
    }

    /// The same of all minutes of the day.
    pub fn row(&self, p: u8) -> &WalkRow
        requires { p < SECONDS_PER_MINUTE }
        ensures { (u : ℕ) → slice_index result.now u ≡ entry self.now p u }
    {
        &self.costs[p as usize]
    }
}

// A row for each second in which a walk may begin.
fn walk_rows(alloc: Global, slots: &SlotCosts, times: &[Part]) -> Result<Vec<WalkRow>, AllocError>
    requires bounded { IsBounded slots.now }
    requires day { length times.now ≡ minutes_per_day }
    ensures count { IfOk result (λ table. length table.items ≡ SECONDS_PER_MINUTE) }
    ensures costs { IfOk result (λ table. AreOfWalks table.items slots.now times.now) }
{
    let day = Day::make(alloc, times)?;
    let mut costs = Vec::with_capacity(alloc, SECONDS_PER_MINUTE)?;
    for p in 0..SECONDS_PER_MINUTE {
        costs.push(walk_row(slots, &day, p))?;
    }
    Ok(costs)
}

// What the walks cost that begin in second `p` of each minute of the day. Many seconds carry the same in each hour, and are
// added up for the minutes of one; and many the same throughout an hour, so that they are added up for the hours.
fn walk_row(slots: &SlotCosts, day: &Day, p: usize) -> WalkRow
    requires { p < SECONDS_PER_MINUTE }
    ensures { (u : ℕ) → u < minutes_per_day → slice_index result u ≡ sum_below (length slots.now.rows) (day_cost slots.now day.now p u) }
{
    let mut sums = no_sums();
    for k in 0..slots.seconds() {
        add_slot(&mut sums, slots, day, p, k);
    }
    let mut costs = sums.costs;
    add_by_hour(&mut costs, &sums.by_hour, sums.minute);
    add_hours(&mut costs, &sums.hourly);
    costs
}

fn no_sums() -> Sums
    ensures costs { (u : ℕ) → cost_so_far result u ≡ 0 }
    ensures minute { result.minute ≡ 0 }
{
    Sums {
        costs: [0; DAY_MINUTES],
        hourly: [0; HOUR_MINUTES],
        by_hour: [0; REACHED_HOURS],
        minute: 0,
    }
}

// Adds what slot `k` costs in walks from second `p`: to what is the same in each hour, or throughout an hour, if its second is known
// to be, or else to what isn't.
fn add_slot(sums: &mut Sums, slots: &SlotCosts, day: &Day, p: usize, k: usize)
    requires second { p < SECONDS_PER_MINUTE }
    requires slot { k < length slots.now.rows }
    requires few { k < MOST_SECONDS }
    requires minute { sums.old.minute ≤ LATER_MINUTES }
    requires room { (u : ℕ) → u < minutes_per_day → cost_so_far sums.old u ≤ MOST_RECEIVERS * RECEIVER_COST * MOST_SECONDS }
    ensures minute { sums.new.minute ≤ LATER_MINUTES }
    ensures sum { (u : ℕ) → u < minutes_per_day → cost_so_far sums.new u ≡ cost_so_far sums.old u + day_cost slots.now day.now p u k }
    ensures small { (u : ℕ) → u < minutes_per_day → cost_so_far sums.new u ≤ cost_so_far sums.old u + MOST_RECEIVERS * RECEIVER_COST }
{
    let place = p + k;
    let s = place % SECONDS_PER_MINUTE;
    let m = place / SECONDS_PER_MINUTE;
    if !day.is_used(s) {
        return;
    }
    turn_to(sums, m);
    add_in_minute(sums, slots, day, s, k);
}

// Goes on to another walk minute.
fn turn_to(sums: &mut Sums, m: usize)
    requires minute { sums.old.minute ≤ LATER_MINUTES }
    requires room { (u : ℕ) → u < minutes_per_day → cost_so_far sums.old u ≤ MOST_RECEIVERS * RECEIVER_COST * MOST_SECONDS }
    ensures minute { sums.new.minute ≡ m }
    ensures costs { (u : ℕ) → u < minutes_per_day → cost_so_far sums.new u ≡ cost_so_far sums.old u }
{
    if sums.minute == m {
        return;
    }
    let by_hour = sums.by_hour;
    let minute = sums.minute;
    add_by_hour(&mut sums.costs, &by_hour, minute);
    sums.by_hour = [0; REACHED_HOURS];
    sums.minute = m;
}

// Adds what slot `k` costs, which lies in second `s` of the walk minute.
fn add_in_minute(sums: &mut Sums, slots: &SlotCosts, day: &Day, s: usize, k: usize)
    requires second { s < SECONDS_PER_MINUTE }
    requires slot { k < length slots.now.rows }
    requires minute { sums.old.minute ≤ LATER_MINUTES }
    requires room { (u : ℕ) → u < minutes_per_day → cost_so_far sums.old u ≤ MOST_RECEIVERS * RECEIVER_COST * MOST_SECONDS }
    ensures minute { sums.new.minute ≡ sums.old.minute }
    ensures sum { (u : ℕ) → u < minutes_per_day → cost_so_far sums.new u ≡ cost_so_far sums.old u + cost_in_slot slots.now (entry day.now s (u + sums.old.minute)) k }
    ensures small { (u : ℕ) → u < minutes_per_day → cost_so_far sums.new u ≤ cost_so_far sums.old u + MOST_RECEIVERS * RECEIVER_COST }
{
    let m = sums.minute;
    let row = slots.row(k);
    let column = day.column(s);
    if day.is_hourly(s) {
        add_in_hour(&mut sums.hourly, row, column, m);
        return;
    }
    if day.is_steady(s) {
        add_in_hours(&mut sums.by_hour, row, column, m);
        return;
    }
    add_in_day(&mut sums.costs, row, column, m);
}

// Adds what a slot in walk minute `m` costs: by its row, and by what its second carries through the day.
fn add_in_day(costs: &mut WalkRow, row: &Row, column: &DayColumn, m: usize)
    requires minute { m ≤ LATER_MINUTES }
    requires sets { (i : ℕ) → i < REACHED_MINUTES → slice_index column.now i < SETS }
    requires small { (set : ℕ) → set < SETS → slice_index row.now set ≤ MOST_RECEIVERS * RECEIVER_COST }
    requires room { (u : ℕ) → u < minutes_per_day → slice_index costs.old u ≤ MOST_RECEIVERS * RECEIVER_COST * MOST_SECONDS }
    ensures { (u : ℕ) → u < minutes_per_day → slice_index costs.new u ≡ slice_index costs.old u + slice_index row.now (slice_index column.now (u + m)) }
{
    for u in 0..DAY_MINUTES {
        costs[u] += row[column[u + m] as usize];
    }
}

// The same for the minutes of an hour.
fn add_in_hour(costs: &mut HourRow, row: &Row, column: &DayColumn, m: usize)
    requires minute { m ≤ LATER_MINUTES }
    requires sets { (i : ℕ) → i < REACHED_MINUTES → slice_index column.now i < SETS }
    requires small { (set : ℕ) → set < SETS → slice_index row.now set ≤ MOST_RECEIVERS * RECEIVER_COST }
    requires room { (u : ℕ) → u < HOUR_MINUTES → slice_index costs.old u ≤ MOST_RECEIVERS * RECEIVER_COST * MOST_SECONDS }
    ensures { (u : ℕ) → u < HOUR_MINUTES → slice_index costs.new u ≡ slice_index costs.old u + slice_index row.now (slice_index column.now (u + m)) }
{
    for u in 0..HOUR_MINUTES {
        costs[u] += row[column[u + m] as usize];
    }
}

// The same for the hours: by what its second carries at the beginning of each.
fn add_in_hours(costs: &mut ByHour, row: &Row, column: &DayColumn, m: usize)
    requires minute { m ≤ LATER_MINUTES }
    requires sets { (i : ℕ) → i < REACHED_MINUTES → slice_index column.now i < SETS }
    requires small { (set : ℕ) → set < SETS → slice_index row.now set ≤ MOST_RECEIVERS * RECEIVER_COST }
    requires room { (h : ℕ) → HOUR_MINUTES * h < minutes_per_day + m → slice_index costs.old h ≤ MOST_RECEIVERS * RECEIVER_COST * MOST_SECONDS }
    ensures { (h : ℕ) → HOUR_MINUTES * h < minutes_per_day + m → slice_index costs.new h ≡ slice_index costs.old h + slice_index row.now (slice_index column.now (HOUR_MINUTES * h)) }
{
    for h in 0..hours_reached(m) {
        costs[h] += row[column[HOUR_MINUTES * h] as usize];
    }
}

// How many hours walk minute `m` may lie in.
fn hours_reached(m: usize) -> usize
    requires { m ≤ LATER_MINUTES }
    ensures bound { result ≤ REACHED_HOURS }
    ensures reached { (h : ℕ) → HOUR_MINUTES * h < minutes_per_day + m → h < result }
    ensures no_more { (h : ℕ) → h < result → HOUR_MINUTES * h < minutes_per_day + m }
{
    (DAY_MINUTES + m - 1) / HOUR_MINUTES + 1
}

// Adds to the costs of the day's minutes what walk minute `m` costs by the hour in which it lies.
fn add_by_hour(costs: &mut WalkRow, by_hour: &ByHour, m: usize)
    requires minute { m ≤ LATER_MINUTES }
    requires room { (u : ℕ) → u < minutes_per_day → slice_index costs.old u + slice_index by_hour.now ((u + m) / HOUR_MINUTES) < 2 ^ 32 }
    ensures { (u : ℕ) → u < minutes_per_day → slice_index costs.new u ≡ slice_index costs.old u + slice_index by_hour.now ((u + m) / HOUR_MINUTES) }
{
    for h in 0..REACHED_HOURS {
        let begin = (HOUR_MINUTES * h).saturating_sub(m);
        let end = (HOUR_MINUTES * (h + 1) - m).min(DAY_MINUTES);
        add_to_each(costs, begin, end, by_hour[h]);
    }
}

// Adds a cost to those of the minutes from `begin` up to, and without, `end`.
fn add_to_each(costs: &mut WalkRow, begin: usize, end: usize, cost: u32)
    requires end { end ≤ minutes_per_day }
    requires room { (u : ℕ) → begin ≤ u → u < end → slice_index costs.old u + cost < 2 ^ 32 }
    ensures each { (u : ℕ) → begin ≤ u → u < end → slice_index costs.new u ≡ slice_index costs.old u + cost }
    ensures before { (u : ℕ) → u < begin → slice_index costs.new u ≡ slice_index costs.old u }
    ensures after { (u : ℕ) → begin ≤ end → end ≤ u → slice_index costs.new u ≡ slice_index costs.old u }
{
    for u in begin..end {
        costs[u] += cost;
    }
}

// Adds to the costs of the day's minutes what is the same in each hour.
fn add_hours(costs: &mut WalkRow, hourly: &HourRow)
    requires room { (u : ℕ) → u < minutes_per_day → slice_index costs.old u + slice_index hourly.now (u % HOUR_MINUTES) < 2 ^ 32 }
    ensures { (u : ℕ) → u < minutes_per_day → slice_index costs.new u ≡ slice_index costs.old u + slice_index hourly.now (u % HOUR_MINUTES) }
{
    for u in 0..DAY_MINUTES {
        costs[u] += hourly[u % HOUR_MINUTES];
    }
}

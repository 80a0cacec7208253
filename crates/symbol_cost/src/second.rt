//! What each symbol of a station costs a receiver in one second.

ghost use Rattle.std.specs.Prelude.{◌≡◌, ◌+◌, ◌*◌, ◌-◌, ◌<◌, ◌≤◌, ℕ, Option, false, length, map, min, slice_index, slice_index_or, unwrap_or};
ghost use Rattle.std.specs.Option.{ForSome};
ghost use Rattle.signal_base.specs.Limits.{IsPriced, IsTuned};
ghost use Rattle.signal_base.specs.Waveform.{symbol_count, waveform};
ghost use Rattle.definitions.specs.heard.Costs.{counted, least, second_cost, symbols_of, table_of, tenth_cost, tenths_cost};
ghost use Rattle.definitions.specs.heard.Logs.{low_count};
ghost use Rattle.symbol_cost.specs.Rows.{Adds, heard};

use crate::RECEIVER_COST;
use crate::limits::{SECOND, SECOND_COST, SECOND_LIMIT, TENTH_COST, TENTHS};
use pulse_log::{Log, TENTH, Tenths};
use signal_base::{
    CostTable, MOST_COST, MOST_RECEIVERS, MOST_WEIGHT, Station, Tuning, symbols, wave,
};

/// A cost for each symbol of a station. Those that the station doesn't have are left 0.
pub type Row = [u32; 5];

/// What each symbol of a station costs a receiver in the second that begins at a millisecond of its log. Each is at most
/// 200,000.
pub fn second_costs(
    table: &CostTable,
    tuning: &Tuning,
    log: &Log,
    from: u64,
    station: Station,
) -> Row
    requires tuned { IsTuned tuning.now }
    requires priced { IsPriced table.now }
    requires from { from < SECOND_LIMIT }
    ensures costs { (x : ℕ) → x < symbol_count station → slice_index result x ≡ second_cost table.now (heard tuning.now log.now) station from x }
    ensures bound { (x : ℕ) → slice_index result x ≤ RECEIVER_COST }
    ensures symbols { length result ≡ 5 }
{
    let mut row = [0; 5];
    let own = table_of(table, tuning);
    let mut tenths = log.tenths(from);
    add_second(&mut row, station, own, tuning.weight, &mut tenths);
    row
}

/// The table of a receiver: its own, or else the bank's.
pub(crate) fn table_of<'a>(table: &'a CostTable, tuning: &'a Tuning) -> &'a CostTable
    requires tuned { IsTuned tuning.now }
    requires priced { IsPriced table.now }
    ensures table { result.now ≡ table_of table.now tuning.now }
    ensures priced { IsPriced result.now }
{
    match &tuning.table {
        Some(own) => own,
        None => table,
    }
}

/// Adds to a row what the symbols cost in the next ten tenths, by the receiver's own table and its weight.
pub(crate) fn add_second(
    row: &mut Row,
    station: Station,
    table: &CostTable,
    weight: u8,
    tenths: &mut Tenths,
)
    requires weight { weight ≤ MOST_WEIGHT }
    requires priced { IsPriced table.now }
    requires at { tenths.old.at < SECOND_LIMIT }
    requires room { (x : ℕ) → slice_index row.old x ≤ (MOST_RECEIVERS - 1) * RECEIVER_COST }
    ensures adds { Adds station row.old row.new (λ x. weight * counted table.now.second station (λ y. tenths_cost table.now tenths.old.log tenths.old.at (waveform station y)) x) }
    ensures bound { (x : ℕ) → slice_index row.new x ≤ slice_index row.old x + RECEIVER_COST }
    ensures at { tenths.new.at ≡ tenths.old.at + SECOND }
    ensures log { tenths.new.log ≡ tenths.old.log }
{
    let costs = next_costs(station, table, tenths);
    let costs = counted(station, table.second, costs);
    add_weighed(row, weight, &costs);
}

// Adds what the symbols cost, counted by a receiver's weight.
fn add_weighed(row: &mut Row, weight: u8, costs: &Row)
    requires weight { weight ≤ MOST_WEIGHT }
    requires costs { (x : ℕ) → slice_index costs.now x ≤ SECOND_COST }
    requires room { (x : ℕ) → slice_index row.old x ≤ (MOST_RECEIVERS - 1) * RECEIVER_COST }
    ensures adds { (x : ℕ) → x < 5 → slice_index row.new x ≡ slice_index row.old x + weight * slice_index costs.now x }
    ensures bound { (x : ℕ) → slice_index row.new x ≤ slice_index row.old x + RECEIVER_COST }
{
    for x in 0..5 {
        row[x] += weighed(weight, costs[x]);
    }
}

fn weighed(weight: u8, cost: u32) -> u32
    requires weight { weight ≤ MOST_WEIGHT }
    requires cost { cost ≤ SECOND_COST }
    ensures product { result ≡ weight * cost }
    ensures bound { result ≤ RECEIVER_COST }
{
    weight as u32 * cost
}

// What counts of the costs of a station's symbols: all of them, or, where a second costs so much at the most, the lesser of
// both, less the least that it is for any symbol.
fn counted(station: Station, second: Option<u16>, costs: Row) -> Row
    requires { (x : ℕ) → slice_index costs x ≤ SECOND_COST }
    ensures counted { (x : ℕ) → x < symbol_count station → slice_index result x ≡ counted second station (slice_index costs) x }
    ensures bound { (x : ℕ) → slice_index result x ≤ SECOND_COST }
{
    match second {
        None => costs,
        Some(most) => above_least(station, most as u32, &costs),
    }
}

// What each symbol costs more than the cheapest, where each costs so much at the most.
fn above_least(station: Station, most: u32, costs: &Row) -> Row
    requires { (x : ℕ) → slice_index costs.now x ≤ SECOND_COST }
    ensures above { (x : ℕ) → x < symbol_count station → slice_index result x ≡ min most (slice_index costs.now x) - unwrap_or (least (map (λ y. min most (slice_index costs.now y)) (symbols_of station))) 0 }
    ensures bound { (x : ℕ) → slice_index result x ≤ SECOND_COST }
{
    let least = least_of(station, most, costs);
    let mut above = [0; 5];
    for x in 0..symbols(station) {
        above[x as usize] = costs[x as usize].min(most).saturating_sub(least);
    }
    above
}

// What the cheapest symbol costs, where each costs so much at the most.
fn least_of(station: Station, most: u32, costs: &Row) -> u32
    ensures { result ≡ unwrap_or (least (map (λ y. min most (slice_index costs.now y)) (symbols_of station))) 0 }
{
    let mut least = None;
    for y in 0..symbols(station) {
        let cost = costs[y as usize].min(most);
        least = Some(least.unwrap_or(cost).min(cost));
    }
    least.unwrap_or(0)
}

// What the symbols cost in the next ten tenths, before the receiver's weight.
fn next_costs(station: Station, table: &CostTable, tenths: &mut Tenths) -> Row
    requires priced { IsPriced table.now }
    requires at { tenths.old.at < SECOND_LIMIT }
    ensures costs { (x : ℕ) → x < symbol_count station → slice_index result x ≡ tenths_cost table.now tenths.old.log tenths.old.at (waveform station x) }
    ensures bound { (x : ℕ) → slice_index result x ≤ SECOND_COST }
    ensures at { tenths.new.at ≡ tenths.old.at + SECOND }
    ensures log { tenths.new.log ≡ tenths.old.log }
{
    let mut costs = [0; 5];
    for j in 0..TENTHS {
        add_tenth(&mut costs, station, table, j, tenths.next());
    }
    costs
}

// Adds what the symbols cost in tenth `j` of the second, of which that many milliseconds are low.
fn add_tenth(costs: &mut Row, station: Station, table: &CostTable, j: usize, count: Option<u32>)
    requires priced { IsPriced table.now }
    requires tenth { j < TENTHS }
    requires count { ForSome count (λ n. n ≤ TENTH) }
    requires room { (x : ℕ) → slice_index costs.old x ≤ SECOND_COST }
    ensures adds { Adds station costs.old costs.new (λ x. tenth_cost table.now (slice_index_or (waveform station x) j false) count) }
    ensures bound { (x : ℕ) → slice_index costs.new x ≤ slice_index costs.old x + TENTH_COST }
{
    for x in 0..symbols(station) {
        let is_low = wave(station, x)[j];
        costs[x as usize] += tenth_cost(table, is_low, count);
    }
}

// What a tenth costs: nothing where some of its milliseconds are unknown.
fn tenth_cost(table: &CostTable, is_low: bool, count: Option<u32>) -> u32
    requires priced { IsPriced table.now }
    requires count { ForSome count (λ n. n ≤ TENTH) }
    ensures cost { result ≡ tenth_cost table.now is_low count }
    ensures bound { result ≤ TENTH_COST }
{
    match count {
        None => 0,
        Some(n) if is_low => table.low[n as usize] as u32,
        Some(n) => table.high[n as usize] as u32,
    }
}

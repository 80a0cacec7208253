//! What is added to a walk's cost where its seconds of DUT1 tell one value of it.

ghost use Rattle.std.specs.Prelude.{◌≡◌, ◌<◌, ◌≤◌, true};
ghost use Rattle.definitions.specs.heard.Dut1.{has_dut1};
ghost use Rattle.plain_costs.specs.Tenths.{tenths_at, value_count};
ghost use Rattle.plain_costs.specs.declared.tenths.TheConstants.{MOST_VALUES};
ghost use Rattle.slot_columns.specs.Parts.{most_cost};
ghost use Rattle.walk_costs.specs.Dates.{IsAdded, free_part, free_set, least_told, part_cost, told_part, told_set};

use plain_costs::{MOST_VALUES, has_dut1, is_dut1_second, symbol_of, value_count};
use signal_base::Station;
use slot_columns::{Part, SECONDS_PER_MINUTE, SlotColumns};
use std::array;
use telegram_fields::{FREE, only};

/// By how much a walk from second `p` costs more where its seconds of DUT1 tell the value that costs least, than where
/// each of them is free. It is nothing where the station doesn't send DUT1.
pub fn added(columns: &SlotColumns, p: u8) -> u32
    requires { p < SECONDS_PER_MINUTE }
    ensures { IsAdded columns.now p result }
{
    let station = columns.station();
    if !has_dut1(station) {
        return 0;
    }
    least_told(columns, station, p) - columns.part_cost(p, &free_part(station))
}

// What the seconds of DUT1 cost where they tell one value, at the least.
fn least_told(columns: &SlotColumns, station: Station, p: u8) -> u32
    requires station { station ≡ columns.now.station }
    requires some { has_dut1 station ≡ true }
    requires second { p < SECONDS_PER_MINUTE }
    ensures least { result ≡ least_told columns.now p }
    ensures not_less { part_cost columns.now p (free_part station) ≤ result }
{
    let mut least = told_cost(columns, station, p, 0);
    for i in 1..value_count(station) {
        least = least.min(told_cost(columns, station, p, i));
    }
    least
}

// What they cost where they tell value `i`.
fn told_cost(columns: &SlotColumns, station: Station, p: u8, i: usize) -> u32
    requires station { station ≡ columns.now.station }
    requires some { has_dut1 station ≡ true }
    requires second { p < SECONDS_PER_MINUTE }
    requires value { i < MOST_VALUES }
    ensures cost { result ≡ part_cost columns.now p (told_part station (tenths_at station i)) }
    ensures not_less { part_cost columns.now p (free_part station) ≤ result }
{
    columns.part_cost(p, &told_part(station, i))
}

// The seconds of DUT1 where they tell value `i`.
fn told_part(station: Station, i: usize) -> Part
    requires { i < MOST_VALUES }
    ensures { result ≡ told_part station (tenths_at station i) }
{
    array::from_fn(|second| told_set(station, i, second as u8))
}

fn told_set(station: Station, i: usize, second: u8) -> u8
    requires value { i < MOST_VALUES }
    ensures { result ≡ told_set station (tenths_at station i) second }
{
    if is_dut1_second(station, second) {
        only(symbol_of(station, i, second))
    } else {
        0
    }
}

// These seconds where each of them is free.
fn free_part(station: Station) -> Part
    ensures { result ≡ free_part station }
{
    array::from_fn(|second| free_set(station, second as u8))
}

fn free_set(station: Station, second: u8) -> u8
    ensures { result ≡ free_set station second }
{
    if is_dut1_second(station, second) {
        FREE
    } else {
        0
    }
}

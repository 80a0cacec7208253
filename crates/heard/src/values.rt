//! Which value of DUT1 the seconds of a station tell in a sequence: the one that costs least.

ghost use Rattle.std.specs.Prelude.{◌≡◌, ◌+◌, ◌*◌, ◌<◌, ◌≤◌, if◌then◌else◌, nat_lt, length, true};
ghost use Rattle.definitions.specs.heard.Costs.{dut1_cost, lies_in_one_day};
ghost use Rattle.definitions.specs.heard.Dut1.{dut1_symbol, has_dut1, is_dut1_second};
ghost use Rattle.definitions.specs.sequences.Walks.{IsSequence, IsWalkable};
ghost use Rattle.symbol_cost.specs.Grid.{cost_at};
ghost use Rattle.plain_costs.specs.Tenths.{tenths_at, value_count};
ghost use Rattle.plain_costs.specs.WalkCosts.{CanWalk};
ghost use Rattle.formats.specs.Heard.{told_value};
ghost use Rattle.heard.specs.Told.{IsTold};

use crate::costs::cost_of;
use civil::Civil;
use definitions::MINUTES_PER_DAY;
use plain_costs::{has_dut1, is_dut1_second, symbol_of, value_count};
use sequence::{Sequence, next_place};
use signal_base::{MOST_RECEIVERS, Window};
use symbol_cost::{CostGrid, RECEIVER_COST};

/// The number of the value that the seconds of the grid's station tell, counted from the most negative one: of several that
/// cost the same the first. None where they tell no one value.
pub fn told_value(grid: &CostGrid, civil: &Civil, window: &Window, q: &Sequence) -> Option<u8>
    requires { CanWalk grid.now grid.now.station window.now q.now }
    ensures { IsTold grid.now.station (cost_at grid.now.rows) window.now.seconds q.now result }
{
    if !has_dut1(grid.station()) {
        return None;
    }
    if !lies_in_one_day(civil, window, q) {
        return None;
    }
    Some(cheapest_value(grid, civil, window, q))
}

// The number of the cheapest value.
fn cheapest_value(grid: &CostGrid, civil: &Civil, window: &Window, q: &Sequence) -> u8
    requires walk { CanWalk grid.now grid.now.station window.now q.now }
    requires values { has_dut1 grid.now.station ≡ true }
    ensures known { result < value_count grid.now.station }
    ensures told { told_value grid.now.station (cost_at grid.now.rows) window.now.seconds q.now ≡ Some (tenths_at grid.now.station result) }
{
    let mut best = 0;
    for i in 1..value_count(grid.station()) as u8 {
        best = better_value(grid, civil, window, q, best, i);
    }
    best
}

// The one of two values that costs less, and the first where they cost the same.
fn better_value(grid: &CostGrid, civil: &Civil, window: &Window, q: &Sequence, i: u8, j: u8) -> u8
    requires walk { CanWalk grid.now grid.now.station window.now q.now }
    requires first { i < value_count grid.now.station }
    requires second { j < value_count grid.now.station }
    ensures { result ≡ (if nat_lt (dut1_cost grid.now.station (cost_at grid.now.rows) window.now.seconds q.now (tenths_at grid.now.station j))
        (dut1_cost grid.now.station (cost_at grid.now.rows) window.now.seconds q.now (tenths_at grid.now.station i)) then j else i) }
{
    if value_cost(grid, civil, window, q, j) < value_cost(grid, civil, window, q, i) {
        j
    } else {
        i
    }
}

// What the seconds of DUT1 cost where they tell value `i`.
fn value_cost(grid: &CostGrid, civil: &Civil, window: &Window, q: &Sequence, i: u8) -> u32
    requires walk { CanWalk grid.now grid.now.station window.now q.now }
    requires value { i < value_count grid.now.station }
    ensures { result ≡ dut1_cost grid.now.station (cost_at grid.now.rows) window.now.seconds q.now (tenths_at grid.now.station i) }
{
    // No grid is made from more, so that no sum is too large.
    prove!(grid.receivers() as usize <= MOST_RECEIVERS);
    let mut cost = 0;
    let mut place = (q.first, q.second);
    for slot in 0..window.seconds {
        cost += second_cost(grid, slot, place.1, i);
        place = next_place(civil, q.announced, place);
    }
    cost
}

// What a second costs where it is one that tells DUT1.
fn second_cost(grid: &CostGrid, slot: u16, second: u8, i: u8) -> u32
    requires slot { slot < length grid.now.rows }
    requires second { second ≤ 60 }
    requires value { i < value_count grid.now.station }
    ensures cost { result ≡ (if is_dut1_second grid.now.station second then cost_at grid.now.rows slot (dut1_symbol grid.now.station (tenths_at grid.now.station i) second) else 0) }
    ensures bound { result ≤ grid.now.receivers * RECEIVER_COST }
{
    let station = grid.station();
    if is_dut1_second(station, second) {
        cost_of(grid, slot, symbol_of(station, i as usize, second))
    } else {
        0
    }
}

// Whether all slots lie in one UTC day.
fn lies_in_one_day(civil: &Civil, window: &Window, q: &Sequence) -> bool
    requires sequence { IsSequence q.now }
    requires walkable { IsWalkable window.now q.now }
    ensures { result ≡ lies_in_one_day window.now.seconds q.now }
{
    let mut one_day = true;
    let mut place = (q.first, q.second);
    for _slot in 0..window.seconds {
        one_day &= place.0 / MINUTES_PER_DAY == q.first / MINUTES_PER_DAY;
        place = next_place(civil, q.announced, place);
    }
    one_day
}

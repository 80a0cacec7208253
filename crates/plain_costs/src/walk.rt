//! What a walk costs a station, slot by slot.

ghost use Rattle.std.specs.Prelude.{◌≡◌, ◌==◌, ◌+◌, ◌*◌, ◌<◌, ◌≤◌, ℕ, if◌then◌else◌, length, slice_index};
ghost use Rattle.definitions.specs.heard.Dut1.{dut1_symbol, is_dut1_second};
ghost use Rattle.symbol_cost.specs.Grid.{cost_at};
ghost use Rattle.plain_costs.specs.Tenths.{tenths_at, value_count};
ghost use Rattle.plain_costs.specs.WalkCosts.{CanWalk, IsSmall, IsWalkCost};

use crate::tenths::{ByValue, MOST_VALUES, is_dut1_second, symbol_of, value_count};
use civil::Civil;
use definitions::{MINUTES_PER_DAY, Sequence};
use sequence::{next_place, set_in};
use signal_base::{GREATEST_COST, MOST_RECEIVERS, Station, Window};
use symbol_cost::{CostGrid, RECEIVER_COST};

// The sets of a 0 and of a 1 alone.
const ONLY_ZERO: u8 = 1;

const ONLY_ONE: u8 = 2;

/// What the slots of a walk cost a station.
#[derive(Clone, Copy)]
pub struct WalkCost {
    /// The sets of all slots.
    pub all: u32,
    /// The sets of the slots whose seconds don't tell DUT1.
    pub outside: u32,
    /// The slots whose seconds tell DUT1, by each value of it.
    pub told: ByValue,
    /// Whether all slots lie in one UTC day.
    pub one_day: bool,
}

/// What the walk of a sequence costs the grid's station.
pub fn walk_cost(
    grid: &CostGrid,
    civil: &Civil,
    station: Station,
    window: &Window,
    q: &Sequence,
) -> WalkCost
    requires { CanWalk grid.now station window.now q.now }
    ensures cost { IsWalkCost station (cost_at grid.now.rows) window.now.seconds q.now result }
    ensures bound { IsSmall (window.now.seconds * (grid.now.receivers * RECEIVER_COST)) result }
    ensures greatest { IsSmall GREATEST_COST result }
{
    // No grid is made from more, so that no sum is too large.
    prove!(grid.receivers() as usize <= MOST_RECEIVERS);
    let mut all = 0;
    let mut outside = 0;
    let mut told = [0; MOST_VALUES];
    let mut one_day = true;
    let mut place = (q.first, q.second);
    for slot in 0..window.seconds {
        let cost = grid.cost(slot, set_in(civil, station, q.announced, place));
        all += cost;
        outside += outside_dut1(station, place.1, cost);
        add_told(&mut told, grid, station, slot, place.1);
        one_day &= place.0 / MINUTES_PER_DAY == q.first / MINUTES_PER_DAY;
        place = next_place(civil, q.announced, place);
    }
    WalkCost {
        all,
        outside,
        told,
        one_day,
    }
}

// What counts of a slot's set by itself: nothing in a second that tells DUT1.
fn outside_dut1(station: Station, second: u8, cost: u32) -> u32
    ensures { result ≡ (if is_dut1_second station second then 0 else cost) }
{
    if is_dut1_second(station, second) {
        0
    } else {
        cost
    }
}

// Adds what each value of DUT1 costs in a slot, where its second tells it.
fn add_told(told: &mut ByValue, grid: &CostGrid, station: Station, slot: u16, second: u8)
    requires station { grid.now.station ≡ station }
    requires slot { slot < length grid.now.rows }
    requires few { grid.now.receivers ≤ MOST_RECEIVERS }
    requires second { second ≤ 60 }
    requires room { (i : ℕ) → slice_index told.old i ≤ GREATEST_COST }
    ensures adds { (i : ℕ) → i < value_count station → slice_index told.new i
        ≡ slice_index told.old i + (if is_dut1_second station second then cost_at grid.now.rows slot (dut1_symbol station (tenths_at station i) second) else 0) }
    ensures bound { (i : ℕ) → slice_index told.new i ≤ slice_index told.old i + (if is_dut1_second station second then grid.now.receivers * RECEIVER_COST else 0) }
{
    if !is_dut1_second(station, second) {
        return;
    }
    let zero = grid.cost(slot, ONLY_ZERO);
    let one = grid.cost(slot, ONLY_ONE);
    for i in 0..value_count(station) {
        told[i] += cost_of_bit(symbol_of(station, i, second), zero, one);
    }
}

// The cost of a bit, from those of a 0 and a 1.
fn cost_of_bit(bit: u8, zero: u32, one: u32) -> u32
    ensures { result ≡ (if bit == 1 then one else zero) }
{
    if bit == 1 { one } else { zero }
}

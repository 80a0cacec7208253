//! What a window tells of DUT1.

ghost use Rattle.std.specs.Prelude.{◌≡◌, ◌==◌, ◌<◌, ◌≤◌, ℕ, ℤ, filter, length, map, slice_index, true, unwrap_or};
ghost use Rattle.definitions.specs.codes.Allowed.{has_station};
ghost use Rattle.definitions.specs.sequences.Walks.{IsSequence, IsWalkable};
ghost use Rattle.definitions.specs.sequences.Windows.{IsWindow};
ghost use Rattle.definitions.specs.heard.Dut1.{dut1_values, has_dut1};
ghost use Rattle.definitions.specs.heard.Costs.{dut_among, dut_of, least};
ghost use Rattle.symbol_cost.specs.Grid.{cost_at};
ghost use Rattle.plain_costs.specs.Tenths.{AreByValue, tenths_at, with_value};

use crate::tenths::{ByValue, MOST_VALUES, has_dut1, tenths_at, value_count};
use crate::walk::walk_cost;
use civil::Civil;
use definitions::Sequence;
use signal_base::{Dut, Station, Window};
use symbol_cost::CostGrid;

/// What a station of the window tells of DUT1 in a walkable sequence, by the station's grid of the window's slots: `Tenths`
/// where one value alone costs least, `Tied` where several do, `Free` where the sequence walks through two UTC days, and
/// `Absent` where the station doesn't send it.
pub fn dut1(grid: &CostGrid, civil: &Civil, station: Station, window: &Window, q: &Sequence) -> Dut
    requires station { grid.now.station ≡ station }
    requires heard { has_station window.now.stations station ≡ true }
    requires slots { length grid.now.rows ≡ window.now.seconds }
    requires window { IsWindow window.now }
    requires sequence { IsSequence q.now }
    requires walkable { IsWalkable window.now q.now }
    ensures { result ≡ dut_of station (cost_at grid.now.rows) window.now.seconds q.now }
{
    if !has_dut1(station) {
        return Dut::Absent;
    }
    let walk = walk_cost(grid, civil, station, window, q);
    if !walk.one_day {
        return Dut::Free;
    }
    dut_told(station, &walk.told)
}

// The values that cost least, told by one that does so alone.
fn dut_told(station: Station, told: &ByValue) -> Dut
    requires { has_dut1 station ≡ true }
    ensures { (cost : ℤ → ℕ) → AreByValue station told.now cost
        → result ≡ dut_among (filter (λ d. cost d == unwrap_or (least (map cost (dut1_values station))) 0) (dut1_values station)) }
{
    let least = least_told(station, told);
    let mut found = Dut::Absent;
    for i in 0..value_count(station) {
        if told[i] == least {
            found = with_value(found, station, i);
        }
    }
    found
}

// What is told where value `i` costs least too.
fn with_value(found: Dut, station: Station, i: usize) -> Dut
    requires { i < MOST_VALUES }
    ensures { result ≡ with_value found (tenths_at station i) }
{
    match found {
        Dut::Absent => Dut::Tenths(tenths_at(station, i)),
        Dut::Free | Dut::Tied | Dut::Tenths(_) => Dut::Tied,
    }
}

/// The least cost of a value.
pub fn least_told(station: Station, told: &ByValue) -> u32
    requires { has_dut1 station ≡ true }
    ensures least { (cost : ℤ → ℕ) → AreByValue station told.now cost → result ≡ unwrap_or (least (map cost (dut1_values station))) 0 }
    ensures bound { result ≤ slice_index told.now 0 }
{
    let mut least = told[0];
    for i in 1..value_count(station) {
        least = least.min(told[i]);
    }
    least
}

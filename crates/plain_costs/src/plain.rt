//! What a sequence costs, by a walk over the window for each station.

ghost use Rattle.std.specs.Prelude.{◌≡◌, ◌*◌, ◌≤◌};
ghost use Rattle.definitions.specs.sequences.Walks.{IsSequence, IsWalkable};
ghost use Rattle.definitions.specs.sequences.Windows.{IsWindow};
ghost use Rattle.definitions.specs.heard.Costs.{sequence_cost, station_cost};
ghost use Rattle.symbol_cost.specs.Grid.{cost_at};
ghost use Rattle.plain_costs.specs.Grids.{AreGrids, grid_costs};
ghost use Rattle.plain_costs.specs.WalkCosts.{CanWalk};

use crate::dut::least_told;
use crate::tenths::has_dut1;
use crate::walk::walk_cost;
use civil::Civil;
use definitions::Sequence;
use signal_base::{GREATEST_COST, Station, Window};
use symbol_cost::{CostGrid, RECEIVER_COST};

/// What a walkable sequence costs: the sum over the window's stations of what their receivers heard differently. There is
/// one grid for each station of the window, in the order DCF77, MSF, WWVB, JJY, each with the window's slots, and all made
/// from at most 8 receivers together. It is at most 1,920,000,000.
pub fn plain_cost(grids: &[CostGrid], civil: &Civil, window: &Window, q: &Sequence) -> u32
    requires window { IsWindow window.now }
    requires grids { AreGrids window.now grids.now }
    requires sequence { IsSequence q.now }
    requires walkable { IsWalkable window.now q.now }
    ensures cost { result ≡ sequence_cost (grid_costs grids.now) window.now q.now }
    ensures bound { result ≤ GREATEST_COST }
{
    let mut total = 0;
    for grid in grids {
        total += station_cost(grid, civil, grid.station(), window, q);
    }
    total
}

// What the sequence costs the grid's station.
fn station_cost(
    grid: &CostGrid,
    civil: &Civil,
    station: Station,
    window: &Window,
    q: &Sequence,
) -> u32
    requires { CanWalk grid.now station window.now q.now }
    ensures cost { result ≡ station_cost station (cost_at grid.now.rows) window.now.seconds q.now }
    ensures bound { result ≤ window.now.seconds * (grid.now.receivers * RECEIVER_COST) }
{
    let walk = walk_cost(grid, civil, station, window, q);
    if has_dut1(station) && walk.one_day {
        walk.outside + least_told(station, &walk.told)
    } else {
        walk.all
    }
}

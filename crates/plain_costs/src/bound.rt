//! What the sequences of a block cost at the least.

ghost use Rattle.std.specs.Prelude.{◌≡◌, ◌*◌, ◌<◌, ◌≤◌, ℕ, IfSome, length, slice_index};
ghost use Rattle.definitions.specs.sequences.Windows.{IsWindow};
ghost use Rattle.definitions.specs.heard.Costs.{set_cost, sum_below};
ghost use Rattle.definitions.specs.answers.Blocks.{IsBlock, IsUnionBound, union_cost};
ghost use Rattle.signal_base.specs.declared.station.Station.{Station};
ghost use Rattle.symbol_cost.specs.Grid.{cost_at};
ghost use Rattle.plain_costs.specs.Grids.{AreGrids, grid_costs};
ghost use Rattle.plain_costs.specs.Unions.{AreUnions};

use crate::unions::{Sets, has_walk, unions_of};
use civil::Civil;
use definitions::Block;
use signal_base::{GREATEST_COST, MOST_RECEIVERS, MOST_SECONDS, Station, Window};
use symbol_cost::{CostGrid, RECEIVER_COST};

/// What the unions of the sets that the block's walkable sequences allow cost, over all stations and slots. None exactly
/// where no sequence of the block is walkable.
pub fn union_bound(grids: &[CostGrid], civil: &Civil, window: &Window, block: &Block) -> Option<u32>
    requires window { IsWindow window.now }
    requires grids { AreGrids window.now grids.now }
    requires block { IsBlock window.now block.now }
    ensures bound { IsUnionBound (grid_costs grids.now) window.now block.now result }
    ensures small { IfSome result (λ n. n ≤ GREATEST_COST) }
{
    if !has_walk(civil, window, block) {
        return None;
    }
    Some(cost_of_unions(grids, civil, window, block))
}

// The sum over the stations.
fn cost_of_unions(grids: &[CostGrid], civil: &Civil, window: &Window, block: &Block) -> u32
    requires window { IsWindow window.now }
    requires grids { AreGrids window.now grids.now }
    requires block { IsBlock window.now block.now }
    ensures cost { (unions : Station → ℕ → ℕ) → AreUnions window.now block.now unions → result ≡ union_cost (grid_costs grids.now) window.now unions }
    ensures bound { result ≤ GREATEST_COST }
{
    let mut total = 0;
    for grid in grids {
        let sets = unions_of(civil, grid.station(), window, block);
        total += cost_of_sets(grid, &sets, window.seconds);
    }
    total
}

// What a set in each of the first slots costs the grid's station.
fn cost_of_sets(grid: &CostGrid, sets: &Sets, seconds: u16) -> u32
    requires slots { length grid.now.rows ≡ seconds }
    requires seconds { seconds ≤ MOST_SECONDS }
    ensures cost { result ≡ sum_below seconds (λ k. set_cost grid.now.station (cost_at grid.now.rows k) (slice_index sets.now k)) }
    ensures bound { result ≤ seconds * (grid.now.receivers * RECEIVER_COST) }
{
    // No grid is made from more, so that no sum is too large.
    prove!(grid.receivers() as usize <= MOST_RECEIVERS);
    let mut cost = 0;
    for slot in 0..seconds {
        cost += grid.cost(slot, sets[slot as usize]);
    }
    cost
}

//! Which symbols were heard: the cheapest of all, and the cheapest of those that a second may carry.

ghost use Rattle.std.specs.Prelude.{◌≡◌, ◌<◌, length};
ghost use Rattle.std.specs.Option.{ForSome};
ghost use Rattle.signal_base.specs.Waveform.{symbol_count};
ghost use Rattle.definitions.specs.codes.Allowed.{IsSetOf};
ghost use Rattle.formats.specs.Heard.{best_symbol, symbol_of_set};
ghost use Rattle.symbol_cost.specs.Grid.{cost_at};

use crate::costs::better;
use signal_base::{UNSCORED, symbols};
use symbol_cost::CostGrid;

// The set of the symbols 0 and 1.
const FREE: u8 = 3;

/// The cheapest symbol of the grid's station in a slot, and the first of several that cost the same.
pub fn best_symbol(grid: &CostGrid, slot: u16) -> u8
    requires { slot < length grid.now.rows }
    ensures best { result ≡ best_symbol grid.now.station (cost_at grid.now.rows slot) }
    ensures known { result < symbol_count grid.now.station }
{
    let mut best = 0;
    for x in 1..symbols(grid.station()) {
        best = better(grid, slot, best, x);
    }
    best
}

/// The cheapest symbol of a set that a second may carry; none where the second isn't scored.
pub fn symbol_of_set(grid: &CostGrid, slot: u16, set: u8) -> Option<u8>
    requires slot { slot < length grid.now.rows }
    requires set { IsSetOf grid.now.station set }
    ensures symbol { result ≡ symbol_of_set grid.now.station (cost_at grid.now.rows slot) set }
    ensures known { ForSome result (λ x. x < symbol_count grid.now.station) }
{
    if set == UNSCORED {
        return None;
    }
    if set == FREE {
        return Some(better(grid, slot, 0, 1));
    }
    Some(set.trailing_zeros() as u8)
}

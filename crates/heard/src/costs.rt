//! What single symbols cost.

ghost use Rattle.std.specs.Prelude.{◌≡◌, ◌*◌, ◌<◌, ◌≤◌, if◌then◌else◌, length, nat_lt};
ghost use Rattle.signal_base.specs.Waveform.{symbol_count};
ghost use Rattle.definitions.specs.codes.Vocabulary.{only};
ghost use Rattle.symbol_cost.specs.Grid.{cost_at};

use symbol_cost::{CostGrid, RECEIVER_COST};

/// What a symbol of the grid's station costs in a slot.
pub fn cost_of(grid: &CostGrid, slot: u16, x: u8) -> u32
    requires slot { slot < length grid.now.rows }
    requires symbol { x < symbol_count grid.now.station }
    ensures cost { result ≡ cost_at grid.now.rows slot x }
    ensures bound { result ≤ grid.now.receivers * RECEIVER_COST }
{
    grid.cost(slot, only(x))
}

// The set of one symbol.
fn only(x: u8) -> u8
    requires { x < 5 }
    ensures { result ≡ only x }
{
    match x {
        0 => 1,
        1 => 2,
        2 => 4,
        3 => 8,
        _ => 16,
    }
}

/// The one of two symbols that costs less in a slot, and the first where they cost the same.
pub fn better(grid: &CostGrid, slot: u16, x: u8, y: u8) -> u8
    requires slot { slot < length grid.now.rows }
    requires first { x < symbol_count grid.now.station }
    requires second { y < symbol_count grid.now.station }
    ensures { result ≡ (if nat_lt (cost_at grid.now.rows slot y) (cost_at grid.now.rows slot x) then y else x) }
{
    if cost_of(grid, slot, y) < cost_of(grid, slot, x) {
        y
    } else {
        x
    }
}

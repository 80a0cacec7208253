//! That the costs of a grid are small.

ghost use Rattle.std.specs.Prelude.{◌*◌, ◌<◌, ◌≤◌, ℕ, length};
ghost use Rattle.definitions.specs.heard.Costs.{set_cost};
ghost use Rattle.symbol_cost.specs.Grid.{cost_at};
ghost use Rattle.symbol_cost.specs.declared.limits.TheConstants.{RECEIVER_COST};
ghost use Rattle.walk_costs.specs.Walks.{AreSmall};

use slot_columns::SlotColumns;

// How many sets of at most five symbols there are.
const SETS: u8 = 32;

/// No set costs more in a slot than the receivers can make of it, by a look at each. That takes less than a tenth of a
/// millisecond.
pub fn look_at_all(columns: &SlotColumns)
    ensures { AreSmall columns.now }
{
    for slot in 0..columns.seconds() {
        look_at_slot(columns, slot);
    }
}

fn look_at_slot(columns: &SlotColumns, slot: u16)
    requires { slot < length columns.now.rows }
    ensures { (set : ℕ) → set_cost columns.now.station (cost_at columns.now.rows slot) set ≤ columns.now.receivers * RECEIVER_COST }
{
    for set in 0..SETS {
        columns.cost(slot, set);
    }
}

//! What the symbols cost a receiver, added to a row for each slot.

ghost use Rattle.std.specs.Prelude.{◌+◌, ◌*◌, ◌-◌, ◌<◌, ◌≤◌, ℕ, length};
ghost use Rattle.signal_base.specs.Limits.{IsPriced, IsTuned};
ghost use Rattle.definitions.specs.heard.Costs.{second_cost};
ghost use Rattle.symbol_cost.specs.Grid.{cost_at};
ghost use Rattle.symbol_cost.specs.Rows.{AddsToRows, heard};

use crate::RECEIVER_COST;
use crate::limits::SECOND;
use crate::second::{Row, add_second, table_of};
use pulse_log::Log;
use signal_base::{CostTable, MOST_RECEIVERS, MOST_SECONDS, START_LIMIT, Station, Tuning};

/// Adds to the row of each slot what the symbols cost one receiver there. The first slot begins at millisecond `begin`,
/// and the receiver hears it later by its delay. The log is read once, from the first slot on.
pub fn add_receiver(
    rows: &mut [Row],
    station: Station,
    table: &CostTable,
    tuning: &Tuning,
    log: &Log,
    begin: u64,
)
    requires tuned { IsTuned tuning.now }
    requires priced { IsPriced table.now }
    requires begin { begin < START_LIMIT + (MOST_SECONDS + 1) * SECOND }
    requires slots { length rows.old ≤ MOST_SECONDS }
    requires room { (k x : ℕ) → cost_at rows.old k x ≤ (MOST_RECEIVERS - 1) * RECEIVER_COST }
    ensures { AddsToRows station rows.old rows.new (λ k x. second_cost table.now (heard tuning.now log.now) station (begin + tuning.now.delay + 1000 * k) x) }
{
    let own = table_of(table, tuning);
    let mut tenths = log.tenths(begin + tuning.delay as u64);
    for slot in 0..rows.len() {
        add_second(&mut rows[slot], station, own, tuning.weight, &mut tenths);
    }
}

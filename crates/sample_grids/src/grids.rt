//! What tenths of a second cost, and what a receiver hears by a log.

ghost use Rattle.std.specs.Prelude.{◌≡◌, ◌≤◌, IfOk, length};
ghost use Rattle.signal_base.specs.declared.limits.TheConstants.{MOST_COST, MOST_SECONDS};
ghost use Rattle.signal_base.specs.Limits.{IsPriced};

use pulse_log::read_log;
use signal_base::{CostTable, Station, Tuning};
use std::alloc::Global;
use std::test::Fail;
use symbol_cost::CostGrid;

/// What a tenth of a second costs that should be low, and one that should be high, whatever was heard of it. Each is at most 200.
pub fn table(low: u8, high: u8) -> CostTable
    requires low { low ≤ MOST_COST }
    requires high { high ≤ MOST_COST }
    ensures { IsPriced result }
{
    CostTable {
        low: [low; 101],
        high: [high; 101],
        second: None,
    }
}

/// What one receiver of a station hears by a log of at most 1,000 bytes, in so many slots from millisecond 0 on. It has no delay, and the
/// weight 1. Fails where the log isn't one, and for want of memory.
pub fn grid(
    alloc: Global,
    station: Station,
    table: &CostTable,
    pulses: &[u8],
    seconds: u16,
) -> Result<CostGrid, Fail>
    requires priced { IsPriced table.now }
    requires short { length pulses.now ≤ 1000 }
    requires few { seconds ≤ MOST_SECONDS }
    ensures station { IfOk result (λ grid. grid.station ≡ station) }
    ensures slots { IfOk result (λ grid. length grid.rows ≡ seconds) }
    ensures receivers { IfOk result (λ grid. grid.receivers ≡ 1) }
{
    let log = read_log(alloc, pulses)?;
    let tuning = Tuning {
        delay: 0,
        weight: 1,
        table: None,
    };
    let grid = CostGrid::make(alloc, station, &[tuning], table, &[log], 0, 0, seconds)?;
    Ok(grid)
}

/// The same of 60 slots. Each millisecond that differs from a symbol costs 1.
pub fn minute_grid(alloc: Global, station: Station, pulses: &[u8]) -> Result<CostGrid, Fail>
    requires { length pulses.now ≤ 1000 }
    ensures station { IfOk result (λ grid. grid.station ≡ station) }
    ensures slots { IfOk result (λ grid. length grid.rows ≡ 60) }
    ensures receivers { IfOk result (λ grid. grid.receivers ≡ 1) }
{
    grid(alloc, station, &CostTable::default(), pulses, 60)
}

/// The same by a log without records: nothing is known, and every sequence costs nothing.
pub fn silent_grid(alloc: Global, station: Station) -> Result<CostGrid, Fail>
    ensures station { IfOk result (λ grid. grid.station ≡ station) }
    ensures slots { IfOk result (λ grid. length grid.rows ≡ 60) }
    ensures receivers { IfOk result (λ grid. grid.receivers ≡ 1) }
{
    minute_grid(alloc, station, b"")
}

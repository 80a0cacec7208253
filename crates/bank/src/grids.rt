//! The grids of a window's stations, each made from what its receivers heard.

ghost use Rattle.std.specs.Prelude.{◌≡◌, ◌+◌, ◌-◌, ◌*◌, ◌<◌, ◌≤◌, ◌∷◌, [], ◌++◌, IfErr, IfOk, List, OnOk, drop, length, take, ℕ};
ghost use Rattle.signal_base.specs.declared.limits.TheConstants.{START_LIMIT};
ghost use Rattle.signal_base.specs.declared.station.Station.{Station};
ghost use Rattle.definitions.specs.heard.Costs.{Costs, slot_cost};
ghost use Rattle.definitions.specs.sequences.Windows.{IsWindow};
ghost use Rattle.field_tables.specs.Grids.{AreGrids, HaveCosts};
ghost use Rattle.due.specs.Banks.{costs_in};
ghost use Rattle.bank.specs.declared.stop.Stop.TheVariants.{NoMemory};
ghost use Rattle.bank.specs.Hearing.{AreBankGrids, AreGridsOf, AreOfBank, IsBank, IsMoved, bank_seen, count_before, count_of, heard_in, later_window};

use crate::hearing::Bank;
use crate::stop::Stop;
use signal_base::{Station, Window};
use std::alloc::Global;
use symbol_cost::CostGrid;

/// One grid for each station of the window, in the order DCF77, MSF, WWVB, JJY. The receivers of a station stand side by side
/// in the bank, whose logs stay where they are.
pub fn grids_of(alloc: Global, bank: &Bank, window: &Window) -> Result<Vec<CostGrid>, Stop>
    requires bank { IsBank bank.now }
    requires window { IsWindow window.now }
    ensures grids { IfOk result (λ grids. AreGrids window.now grids.items) }
    ensures costs { IfOk result (λ grids. HaveCosts window.now grids.items (costs_in window.now (bank_seen bank.now))) }
    ensures receivers { IfOk result (λ grids. AreOfBank bank.now grids.items) }
    ensures memory { IfErr result (λ stop. stop ≡ NoMemory) }
{
    let mut grids = Vec::new(alloc);
    add_grid(alloc, &mut grids, Station::Dcf77, bank, window)?;
    add_grid(alloc, &mut grids, Station::Msf, bank, window)?;
    add_grid(alloc, &mut grids, Station::Wwvb, bank, window)?;
    add_grid(alloc, &mut grids, Station::Jjy, bank, window)?;
    Ok(grids)
}

// Adds the grid of a station where the window has it.
fn add_grid(
    alloc: Global,
    grids: &mut Vec<CostGrid>,
    station: Station,
    bank: &Bank,
    window: &Window,
) -> Result<(), Stop>
    requires bank { IsBank bank.now }
    requires window { IsWindow window.now }
    ensures adds { OnOk result ((costs : Costs) (stations : List Station) (n : ℕ)
        → costs station ≡ slot_cost bank.now.table (heard_in station bank.now) station (window.now.start + window.now.phase)
        → AreGridsOf window.now costs stations n grids.old.items
        → AreGridsOf window.now costs (stations ++ station ∷ []) (n + count_of station bank.now.stations.items) grids.new.items) }
    ensures receivers { OnOk result (AreOfBank bank.now grids.old.items → AreOfBank bank.now grids.new.items) }
    ensures memory { IfErr result (λ stop. stop ≡ NoMemory) }
{
    if window.stations.has(station) {
        let (from, behind) = places_of(bank.stations.as_slice(), station);
        let grid = CostGrid::make(
            alloc,
            station,
            part(bank.tunings.as_slice(), from, behind),
            &bank.table,
            part(bank.logs.as_slice(), from, behind),
            window.start,
            window.phase,
            window.seconds,
        )?;
        grids.push(grid)?;
    }
    Ok(())
}

/// Moves the grids of a bank's window to the window that starts `by` seconds later, with the same phase. It takes no memory.
pub fn advance_grids(grids: &mut [CostGrid], bank: &Bank, window: &Window, by: u16)
    requires bank { IsBank bank.now }
    requires window { IsWindow window.now }
    requires start { window.now.start + 1000 * by < START_LIMIT }
    requires grids { AreBankGrids bank.now window.now grids.old }
    ensures many { length grids.new ≡ length grids.old }
    ensures grids { AreBankGrids bank.now (later_window window.now by) grids.new }
{
    for i in 0..grids.len() {
        advance_one(&mut grids[i], bank, window, by);
    }
}

// Moves the grid of a station.
fn advance_one(grid: &mut CostGrid, bank: &Bank, window: &Window, by: u16)
    requires bank { IsBank bank.now }
    requires window { IsWindow window.now }
    requires start { window.now.start + 1000 * by < START_LIMIT }
    requires receivers { grid.old.receivers ≡ count_of grid.old.station bank.now.stations.items }
    ensures { IsMoved bank.now window.now by grid.old grid.new }
{
    let (from, behind) = places_of(bank.stations.as_slice(), grid.station());
    grid.advance(
        part(bank.tunings.as_slice(), from, behind),
        &bank.table,
        part(bank.logs.as_slice(), from, behind),
        window.start,
        window.phase,
        by,
    );
}

// The entries of a list from one place up to another.
fn part<T>(items: &[T], from: usize, behind: usize) -> &[T]
    requires order { from ≤ behind }
    requires within { behind ≤ length items.now }
    ensures { result.now ≡ take (behind - from) (drop from items.now) }
{
    &items[from..behind]
}

/// Where the receivers of a station stand, or would stand, in the order of their stations: the first place, and the one behind
/// the last.
pub fn places_of(stations: &[Station], station: Station) -> (usize, usize)
    ensures first { result.0 ≡ count_before station stations.now }
    ensures behind { result.1 ≡ count_before station stations.now + count_of station stations.now }
    ensures within { result.1 ≤ length stations.now }
{
    let mut first = 0;
    let mut behind = 0;
    for i in 0..stations.len() {
        if stations[i].number() < station.number() {
            first += 1;
        }
        if stations[i].number() <= station.number() {
            behind += 1;
        }
    }
    (first, behind)
}

//! The grid of costs.

ghost use Rattle.std.specs.Prelude.{◌≡◌, ◌+◌, ◌*◌, ◌<◌, ◌≤◌, ℕ, IfOk, filter, length, map, slice_index, unwrap_or};
ghost use Rattle.std.specs.List.{All};
ghost use Rattle.signal_base.specs.declared.station.Station.{Station};
ghost use Rattle.signal_base.specs.Limits.{IsPriced, IsTuned};
ghost use Rattle.signal_base.specs.Mask.{has_bit};
ghost use Rattle.definitions.specs.heard.Receivers.{receptions};
ghost use Rattle.definitions.specs.heard.Costs.{least, set_cost, slot_cost, symbols_of};
ghost use Rattle.symbol_cost.specs.Grid.{HasCosts, cost_at};

use crate::RECEIVER_COST;
use crate::limits::SECOND;
use crate::rows::{move_on, rows_of};
use crate::second::Row;
use pulse_log::Log;
use signal_base::{
    CostTable, MOST_RECEIVERS, MOST_SECONDS, START_LIMIT, Station, Tuning, UNSCORED, symbols,
};
use std::alloc::{AllocFailed, Global};
use std::marker::Model;

/// Why a grid can't be made.
#[derive(Clone, Copy, Debug)]
pub enum GridFault {
    /// Memory wasn't found.
    NoMemory,
}

/// What each symbol of a station costs in each slot of a window.
#[derive(Drop)]
pub struct CostGrid {
    station: Station,
    receivers: u8,
    rows: Vec<Row>,
}

impl Model for CostGrid {
    ghost use Rattle.symbol_cost.specs.Grid.{AreOfReceivers, Grid};

    ghost Value = { Grid };

    ghost view = { λ g. record { station = g.station; receivers = g.receivers; rows = g.rows.items } };

    ghost invariant = { λ g. AreOfReceivers g.receivers g.rows.items };
}

impl CostGrid {
    /// Scores `seconds` slots, at most 1,200, of which the first begins at millisecond `start + phase` of the receivers'
    /// clock, below 10^12 and below 1,000. There are at most 8 receivers, each with its tuning and its log, all of this
    /// station. Each log is read once.
    pub fn make(
        alloc: Global,
        station: Station,
        tunings: &[Tuning],
        table: &CostTable,
        logs: &[Log],
        start: u64,
        phase: u16,
        seconds: u16,
    ) -> Result<CostGrid, GridFault>
        requires few { length tunings.now ≤ MOST_RECEIVERS }
        requires logs { length logs.now ≡ length tunings.now }
        requires tuned { All IsTuned tunings.now }
        requires priced { IsPriced table.now }
        requires start { start < START_LIMIT }
        requires phase { phase < SECOND }
        requires seconds { seconds ≤ MOST_SECONDS }
        ensures costs { IfOk result (λ grid. HasCosts grid station seconds (slot_cost table.now (receptions tunings.now logs.now) station (start + phase))) }
        ensures receivers { IfOk result (λ grid. grid.receivers ≡ length tunings.now) }
    {
        let receivers = tunings.len() as u8;
        match rows_of(
            alloc,
            station,
            tunings,
            table,
            logs,
            start + phase as u64,
            seconds,
        ) {
            Ok(rows) => Ok(CostGrid {
                station,
                receivers,
                rows,
            }),
            Err(_) => Err(GridFault::NoMemory),
        }
    }

    /// Moves the grid to the window that starts `by` seconds later, with the same phase and as many slots. It is told the
    /// start and the phase that it was made for, or moved to, and the tunings, the cost table and the logs that it was made
    /// from. The later start is below 10^12 too. The slots that both windows have are moved to the front, and only the others
    /// are scored.
    pub fn advance(
        &mut self,
        tunings: &[Tuning],
        table: &CostTable,
        logs: &[Log],
        start: u64,
        phase: u16,
        by: u16,
    )
        requires receivers { self.old.receivers ≡ length tunings.now }
        requires logs { length logs.now ≡ length tunings.now }
        requires tuned { All IsTuned tunings.now }
        requires priced { IsPriced table.now }
        requires start { start + SECOND * by < START_LIMIT }
        requires phase { phase < SECOND }
        ensures costs { (station : Station) (n : ℕ) → HasCosts self.old station n (slot_cost table.now (receptions tunings.now logs.now) station (start + phase))
            → HasCosts self.new station n (slot_cost table.now (receptions tunings.now logs.now) station (start + SECOND * by + phase)) }
        ensures station { self.new.station ≡ self.old.station }
        ensures seconds { length self.new.rows ≡ length self.old.rows }
        ensures receivers { self.new.receivers ≡ self.old.receivers }
    {
        let begin = start + phase as u64;
        let rows = self.rows.as_mut_slice();
        move_on(rows, self.station, tunings, table, logs, begin, by);
    }

    /// Whose symbols are scored.
    pub fn station(&self) -> Station
        ensures { result ≡ self.now.station }
    {
        self.station
    }

    /// How many receivers the grid was made from, at most 8.
    pub fn receivers(&self) -> u8
        ensures count { result ≡ self.now.receivers }
        ensures bound { result ≤ MOST_RECEIVERS }
    {
        self.receivers
    }

    /// How many slots there are, at most 1,200.
    pub fn seconds(&self) -> u16
        ensures count { result ≡ length self.now.rows }
        ensures bound { result ≤ MOST_SECONDS }
    {
        self.rows.len() as u16
    }

    /// What a set of the station's symbols costs in a slot: its cheapest symbol, and nothing where it is the set that
    /// stands for a second that isn't scored. It is at most 200,000 for each receiver. The set has at least one of the
    /// station's symbols.
    pub fn cost(&self, slot: u16, set: u8) -> u32
        requires slot { slot < length self.now.rows }
        ensures cost { result ≡ set_cost self.now.station (cost_at self.now.rows slot) set }
        ensures bound { result ≤ self.now.receivers * RECEIVER_COST }
    {
        if set == UNSCORED {
            return 0;
        }
        cheapest(&self.rows[slot as usize], self.station, self.receivers, set)
    }
}

// What the cheapest symbol of a set costs.
fn cheapest(row: &Row, station: Station, receivers: u8, set: u8) -> u32
    requires { (x : ℕ) → slice_index row.now x ≤ receivers * RECEIVER_COST }
    ensures bound { result ≤ receivers * RECEIVER_COST }
    ensures least { result ≡ unwrap_or (least (map (slice_index row.now) (filter (has_bit set) (symbols_of station)))) 0 }
{
    let mut least = None;
    for x in 0..symbols(station) {
        if has(set, x) {
            let cost = row[x as usize];
            least = Some(least.unwrap_or(cost).min(cost));
        }
    }
    least.unwrap_or(0)
}

// Whether the set has the symbol.
fn has(set: u8, x: u8) -> bool
    requires { x < 8 }
    ensures { result ≡ has_bit set x }
{
    (set >> x) & 1 == 1
}

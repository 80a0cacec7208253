//! What each set of symbols costs in each slot of a window.

ghost use Rattle.std.specs.Prelude.{◌≡◌, ◌*◌, ◌<◌, ◌≤◌, ℕ, IfOk, length, slice_index};
ghost use Rattle.signal_base.specs.declared.limits.TheConstants.{MOST_RECEIVERS, MOST_SECONDS};
ghost use Rattle.symbol_cost.specs.Grid.{HasCosts, cost_at};
ghost use Rattle.symbol_cost.specs.declared.limits.TheConstants.{RECEIVER_COST};
ghost use Rattle.slot_columns.specs.Parts.{entry};
ghost use Rattle.slot_columns.specs.Rows.{AreRows, IsBounded, IsRow, cost_in_slot, index_of};

use crate::limits::SETS;
use signal_base::{MOST_SECONDS, Station, UNSCORED};
use std::alloc::{AllocError, Global};
use std::marker::Model;
use symbol_cost::CostGrid;

/// A cost for each set of at most five symbols, at the set's number.
pub type Row = [u32; SETS];

/// Where a set stands in a row. A second that isn't scored costs nothing, as a set without symbols.
pub fn index_of(set: u8) -> usize
    ensures index { result ≡ index_of set }
    ensures bound { result < SETS }
{
    byte_index_of(set) as usize
}

/// The same of each slot's set. LLVM makes sixteen at a time, and copies none where they are asked for.
#[inline(always)]
pub fn indexes_of(sets: &[u8; MOST_SECONDS as usize]) -> [u8; MOST_SECONDS as usize]
    ensures { (k : ℕ) → k < MOST_SECONDS → slice_index result k ≡ index_of (slice_index sets.now k) }
{
    let mut indexes = [0; MOST_SECONDS as usize];
    for k in 0..MOST_SECONDS as usize {
        indexes[k] = byte_index_of(sets[k]);
    }
    indexes
}

// An index as a byte.
#[inline(always)]
fn byte_index_of(set: u8) -> u8
    ensures index { result ≡ index_of set }
    ensures bound { result < SETS }
{
    if set == UNSCORED { 0 } else { set % SETS as u8 }
}

/// A row of costs of 0.
pub fn no_costs() -> Row
    ensures { (set : ℕ) → slice_index result set ≡ 0 }
{
    [0; SETS]
}

/// What each set of a station's symbols costs in each slot.
#[derive(Drop)]
pub struct SlotCosts {
    station: Station,
    receivers: u8,
    rows: Vec<Row>,
}

impl Model for SlotCosts {
    ghost use Rattle.symbol_cost.specs.Grid.{Grid};
    ghost use Rattle.slot_columns.specs.Rows.{AreSlotRows, grid_of};

    ghost Value = { Grid };

    ghost view = { λ c. grid_of c.station c.receivers c.rows.items };

    ghost invariant = { λ c. AreSlotRows c.station c.receivers c.rows.items };
}

impl SlotCosts {
    /// Asks a grid for what each set costs.
    pub fn make(alloc: Global, grid: &CostGrid) -> Result<SlotCosts, AllocError>
        ensures costs { IfOk result (λ slots. HasCosts slots grid.now.station (length grid.now.rows) (cost_at grid.now.rows)) }
        ensures receivers { IfOk result (λ slots. slots.receivers ≡ grid.now.receivers) }
        ensures bounded { IfOk result (λ slots. IsBounded slots) }
    {
        let station = grid.station();
        let receivers = grid.receivers();
        let rows = rows_of(alloc, grid)?;
        Ok(SlotCosts {
            station,
            receivers,
            rows,
        })
    }

    pub fn station(&self) -> Station
        ensures { result ≡ self.now.station }
    {
        self.station
    }

    pub fn receivers(&self) -> u8
        ensures count { result ≡ self.now.receivers }
        ensures bound { result ≤ MOST_RECEIVERS }
    {
        self.receivers
    }

    pub fn seconds(&self) -> usize
        ensures count { result ≡ length self.now.rows }
        ensures bound { result ≤ MOST_SECONDS }
    {
        self.rows.len()
    }

    /// What the sets cost in a slot.
    pub fn row(&self, slot: usize) -> &Row
        requires { slot < length self.now.rows }
        ensures { IsRow result.now self.now slot }
    {
        &self.rows[slot]
    }

    /// What a set costs in a slot.
    pub fn cost(&self, slot: usize, set: u8) -> u32
        requires { slot < length self.now.rows }
        ensures cost { result ≡ cost_in_slot self.now set slot }
        ensures small { result ≤ MOST_RECEIVERS * RECEIVER_COST }
    {
        // Parts say nothing of most seconds.
        if set == 0 {
            return 0;
        }
        self.row(slot)[index_of(set)]
    }

    /// What the set at an index costs in a slot.
    #[inline(always)]
    pub fn at(&self, slot: usize, index: u8) -> u32
        requires slot { slot < length self.now.rows }
        requires index { index < SETS }
        ensures cost { result ≡ cost_in_slot self.now index slot }
        ensures small { result ≤ MOST_RECEIVERS * RECEIVER_COST }
    {
        self.row(slot)[index as usize]
    }
}

// A row for each slot of the grid.
fn rows_of(alloc: Global, grid: &CostGrid) -> Result<Vec<Row>, AllocError>
    ensures count { IfOk result (λ rows. length rows.items ≡ length grid.now.rows) }
    ensures short { IfOk result (λ rows. length rows.items ≤ MOST_SECONDS) }
    ensures costs { IfOk result (λ rows. AreRows rows.items grid.now) }
    ensures small { IfOk result (λ rows. (k set : ℕ) → k < length rows.items → set < SETS → entry rows.items k set ≤ grid.now.receivers * RECEIVER_COST) }
{
    let seconds = grid.seconds();
    let mut rows = Vec::with_capacity(alloc, seconds as usize)?;
    for slot in 0..seconds {
        let row = row_of(grid, slot);
        rows.push(row)?;
    }
    Ok(rows)
}

// What each set costs in a slot.
fn row_of(grid: &CostGrid, slot: u16) -> Row
    requires { slot < length grid.now.rows }
    ensures costs { (set : ℕ) → set < SETS → slice_index result set ≡ cost_in_slot grid.now set slot }
    ensures small { (set : ℕ) → set < SETS → slice_index result set ≤ grid.now.receivers * RECEIVER_COST }
{
    let mut row = no_costs();
    for set in 0..SETS {
        row[set] = grid.cost(slot, set as u8);
    }
    row
}

//! The first two sequences of a window, by workers beside each other.

ghost use Rattle.std.specs.Prelude.{◌≡◌, ◌≤◌, IfOk, List, OnOk};
ghost use Rattle.definitions.specs.declared.block.Block.{Block};
ghost use Rattle.race_words.specs.declared.view.View.{View};
ghost use Rattle.workers.specs.Recorded.{HaveRecorded};
ghost use Rattle.signal_base.specs.declared.limits.TheConstants.{GREATEST_COST};
ghost use Rattle.definitions.specs.sequences.Windows.{IsWindow};
ghost use Rattle.definitions.specs.answers.FirstTwo.{AreLeastTwo, IsWindowKey};
ghost use Rattle.field_tables.specs.Grids.{AreGrids, grid_costs};
ghost use Rattle.field_tables.specs.Scopes.{scopes_of};
ghost use Rattle.field_tables.specs.Scored.{costs_of};
ghost use Rattle.workers.specs.Searches.{AreItemsOf};

use bounds::{Block, ItemsFault, announced_last, items};
use civil::Civil;
use field_tables::{StationParts, Tables, TablesFault, parts_of};
use race_words::{Race, RaceFault};
use signal_base::Window;
use std::alloc::Global;
use std::thread::Threads;
use symbol_cost::CostGrid;
use workers::{Found, Gate, NoRecord, Recorder, finish, search_with};

/// Why a window can't be decided.
#[derive(Clone, Copy, Debug)]
pub enum DecideFault {
    /// Memory wasn't found.
    NoMemory,
}

impl From<TablesFault> for DecideFault {
    fn from(_fault: TablesFault) -> DecideFault {
        DecideFault::NoMemory
    }
}

impl From<ItemsFault> for DecideFault {
    fn from(_fault: ItemsFault) -> DecideFault {
        DecideFault::NoMemory
    }
}

impl From<RaceFault> for DecideFault {
    fn from(_fault: RaceFault) -> DecideFault {
        DecideFault::NoMemory
    }
}

/// The keys of the first two sequences that the window admits under the ceiling, which is at most 1,920,000,000, as far as
/// there are any. There is one grid for each station of the window, in the order DCF77, MSF, WWVB, JJY, each with the
/// window's slots, and all made from at most 8 receivers together. 1 to 8 workers search beside each other; how many, and
/// in which order they come to what, doesn't change the keys. It waits for its workers, and takes all memory before they
/// begin.
pub fn decide<R: Threads + Sync, G: Gate + Sync>(
    rt: &R,
    alloc: Global,
    civil: &Civil,
    grids: &[CostGrid],
    window: &Window,
    ceiling: u32,
    workers: u8,
    gate: &G,
) -> Result<Found, DecideFault>
    requires window { IsWindow window.now }
    requires grids { AreGrids window.now grids.now }
    requires ceiling { ceiling ≤ GREATEST_COST }
    requires workers { (1 ≤ workers) × (workers ≤ 8) }
    ensures { IfOk result (λ found. AreLeastTwo (IsWindowKey window.now (grid_costs grids.now) ceiling) found.first found.second) }
{
    let parts = parts_of(alloc, civil, window)?;
    decide_by(
        rt, alloc, civil, &parts, grids, window, ceiling, workers, gate,
    )
}

/// Decides as `decide` does, by parts that were made of the window's stations (`field_tables::parts_of`), perhaps for other windows
/// of the same stations and length.
pub fn decide_by<R: Threads + Sync, G: Gate + Sync>(
    rt: &R,
    alloc: Global,
    civil: &Civil,
    parts: &[StationParts],
    grids: &[CostGrid],
    window: &Window,
    ceiling: u32,
    workers: u8,
    gate: &G,
) -> Result<Found, DecideFault>
    requires window { IsWindow window.now }
    requires parts { parts.now ≡ scopes_of window.now.stations window.now.seconds }
    requires grids { AreGrids window.now grids.now }
    requires ceiling { ceiling ≤ GREATEST_COST }
    requires workers { (1 ≤ workers) × (workers ≤ 8) }
    ensures { IfOk result (λ found. AreLeastTwo (IsWindowKey window.now (grid_costs grids.now) ceiling) found.first found.second) }
{
    let mut recorder = NoRecord;
    let kept = recorded_by(
        rt,
        alloc,
        civil,
        parts,
        grids,
        window,
        ceiling,
        workers,
        gate,
        &mut recorder,
    )?;
    match kept {
        Ok(found) => Ok(found),
    }
}

// The same, and the recorder is told of each step of the search: it is parted among the workers and joined again. Where a step can't
// be kept, the fault is answered in place of the keys.
fn recorded_by<R: Threads + Sync, G: Gate + Sync, K: Recorder + Send + Drop>(
    rt: &R,
    alloc: Global,
    civil: &Civil,
    parts: &[StationParts],
    grids: &[CostGrid],
    window: &Window,
    ceiling: u32,
    workers: u8,
    gate: &G,
    recorder: &mut K,
) -> Result<Result<Found, K::Fault>, DecideFault>
where
    K::Fault: Send,
    requires window { IsWindow window.now }
    requires parts { parts.now ≡ scopes_of window.now.stations window.now.seconds }
    requires grids { AreGrids window.now grids.now }
    requires ceiling { ceiling ≤ GREATEST_COST }
    requires workers { (1 ≤ workers) × (workers ≤ 8) }
    ensures found { IfOk result (λ kept. IfOk kept (λ found. AreLeastTwo (IsWindowKey window.now (grid_costs grids.now) ceiling) found.first found.second)) }
    ensures recorded { IfOk result (λ kept. OnOk kept ((items : List Block) × (v : View) × AreItemsOf window.now items
        × HaveRecorded K.told K.parts K.joins (grid_costs grids.now) window.now ceiling items workers v recorder.old recorder.new)) }
{
    let tables = Tables::make(alloc, parts, grids, civil, window)?;
    decide_over(
        rt, alloc, civil, &tables, window, ceiling, workers, gate, recorder,
    )
}

/// Decides as `decide` does, by tables that were made of the window's grids, so that more can be told by these.
pub fn decide_tables<R: Threads + Sync, G: Gate + Sync>(
    rt: &R,
    alloc: Global,
    civil: &Civil,
    tables: &Tables,
    window: &Window,
    ceiling: u32,
    workers: u8,
    gate: &G,
) -> Result<Found, DecideFault>
    requires window { IsWindow window.now }
    requires same { tables.now.window ≡ window.now }
    requires ceiling { ceiling ≤ GREATEST_COST }
    requires workers { (1 ≤ workers) × (workers ≤ 8) }
    ensures { IfOk result (λ found. AreLeastTwo (IsWindowKey tables.now.window (costs_of tables.now) ceiling) found.first found.second) }
{
    let mut recorder = NoRecord;
    let kept = decide_over(
        rt,
        alloc,
        civil,
        tables,
        window,
        ceiling,
        workers,
        gate,
        &mut recorder,
    )?;
    match kept {
        Ok(found) => Ok(found),
    }
}

// The same, and tells the recorder of each step.
fn decide_over<R: Threads + Sync, G: Gate + Sync, K: Recorder + Send + Drop>(
    rt: &R,
    alloc: Global,
    civil: &Civil,
    tables: &Tables,
    window: &Window,
    ceiling: u32,
    workers: u8,
    gate: &G,
    recorder: &mut K,
) -> Result<Result<Found, K::Fault>, DecideFault>
where
    K::Fault: Send,
    requires window { IsWindow window.now }
    requires same { tables.now.window ≡ window.now }
    requires ceiling { ceiling ≤ GREATEST_COST }
    requires workers { (1 ≤ workers) × (workers ≤ 8) }
    ensures found { IfOk result (λ kept. IfOk kept (λ found. AreLeastTwo (IsWindowKey tables.now.window (costs_of tables.now) ceiling) found.first found.second)) }
    ensures recorded { IfOk result (λ kept. OnOk kept ((items : List Block) × (v : View) × AreItemsOf tables.now.window items
        × HaveRecorded K.told K.parts K.joins (costs_of tables.now) tables.now.window ceiling items workers v recorder.old recorder.new)) }
{
    let items = search_order(alloc, civil, tables, window)?;
    decide_items(rt, alloc, tables, &items, ceiling, workers, gate, recorder)
}

// The same by the window's items in some order.
fn decide_items<R: Threads + Sync, G: Gate + Sync, K: Recorder + Send + Drop>(
    rt: &R,
    alloc: Global,
    tables: &Tables,
    items: &[Block],
    ceiling: u32,
    workers: u8,
    gate: &G,
    recorder: &mut K,
) -> Result<Result<Found, K::Fault>, DecideFault>
where
    K::Fault: Send,
    requires items { AreItemsOf tables.now.window items.now }
    requires ceiling { ceiling ≤ GREATEST_COST }
    requires workers { (1 ≤ workers) × (workers ≤ 8) }
    ensures found { IfOk result (λ kept. IfOk kept (λ found. AreLeastTwo (IsWindowKey tables.now.window (costs_of tables.now) ceiling) found.first found.second)) }
    ensures recorded { IfOk result (λ kept. OnOk kept ((items : List Block) × (v : View) × AreItemsOf tables.now.window items
        × HaveRecorded K.told K.parts K.joins (costs_of tables.now) tables.now.window ceiling items workers v recorder.old recorder.new)) }
{
    let (race, mut seat) = Race::make(alloc, workers)?;
    let searched = search_with(
        rt, &race, &mut seat, tables, items, ceiling, workers, gate, recorder,
    );
    match searched {
        Ok(()) => Ok(Ok(finish(race, seat, tables, items, ceiling))),
        Err(fault) => Ok(Err(fault)),
    }
}

// The items of the window in the order in which they are searched: the least bounds first, and those that announce a leap
// second after all others.
fn search_order(
    alloc: Global,
    civil: &Civil,
    tables: &Tables,
    window: &Window,
) -> Result<Vec<Block>, ItemsFault>
    requires window { IsWindow window.now }
    requires same { tables.now.window ≡ window.now }
    ensures { IfOk result (λ list. AreItemsOf tables.now.window list.items) }
{
    let items = items(alloc, civil, window)?;
    announced_last(alloc, tables, &items)
}

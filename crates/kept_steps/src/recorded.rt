//! Visits and searches whose steps are kept.

ghost use Rattle.std.specs.Prelude.{◌≡◌, ◌≤◌, IfOk, OnErr, OnOk};
ghost use Rattle.signal_base.specs.declared.limits.TheConstants.{GREATEST_COST};
ghost use Rattle.definitions.specs.answers.Blocks.{IsBlock};
ghost use Rattle.definitions.specs.answers.FirstTwo.{AreLeastTwo, IsWindowKey};
ghost use Rattle.definitions.specs.sequences.Windows.{IsWindow};
ghost use Rattle.race_words.specs.Views.{fresh_view};
ghost use Rattle.field_tables.specs.Grids.{AreGrids, grid_costs};
ghost use Rattle.field_tables.specs.Scored.{costs_of};
ghost use Rattle.workers.specs.Searches.{AreItemsOf, HasSearched, HasVisited};
ghost use Rattle.kept_steps.specs.Kept.{AreKept, HasAppended, HasLeft, IsFound};

use crate::keeper::Keeper;
use crate::lists::StepList;
use crate::step::StepsFault;
use block_visits::blocks_share_the_sequences;
use bounds::{announced_last, items};
use civil::Civil;
use definitions::Block;
use field_tables::{Tables, parts_of};
use race_words::{Race, Seat};
use signal_base::Window;
use std::alloc::Global;
use std::thread::Threads;
use symbol_cost::CostGrid;
use workers::{Found, Gate, finish, search_with, visit_with};

/// Visits a block of the tables' window as `workers::visit` does, and appends the steps of the visit to `steps`. Where memory
/// isn't found it ends: the first steps were appended, and the seat may have offered some of the block's keys; its share and the
/// numbers that it drew are as before.
pub fn visit_recorded(
    race: &Race,
    seat: &mut Seat,
    tables: &Tables,
    item: &Block,
    ceiling: u32,
    steps: &mut StepList,
) -> Result<(), StepsFault>
    requires race { seat.old.race ≡ race.now.id }
    requires block { IsBlock tables.now.window item.now }
    requires ceiling { ceiling ≤ GREATEST_COST }
    ensures race { seat.new.race ≡ seat.old.race }
    ensures visited { OnOk result (HasVisited (costs_of tables.now) tables.now.window ceiling item.now seat.old.view seat.new.view) }
    ensures appended { OnOk result (HasAppended (costs_of tables.now) tables.now.window ceiling item.now seat.old.view seat.new.view steps.old steps.new) }
    ensures left { OnErr result (HasLeft (costs_of tables.now) tables.now.window ceiling item.now seat.old.view seat.new.view steps.old steps.new) }
{
    blocks_share_the_sequences();
    let _window = tables.window();
    visit_with(race, seat, tables, item, ceiling, steps)
}

/// Searches as `workers::search` does, and answers the steps of each worker, in the order of their numbers. A worker that finds no
/// memory ends, the others go on, and then the seat has the whole share again, but no more is said of what was searched.
pub fn search_recorded<R: Threads + Sync, G: Gate + Sync>(
    rt: &R,
    alloc: Global,
    race: &Race,
    seat: &mut Seat,
    tables: &Tables,
    items: &[Block],
    ceiling: u32,
    workers: u8,
    gate: &G,
) -> Result<Vec<StepList>, StepsFault>
    requires race { seat.old.race ≡ race.now.id }
    requires workers { (1 ≤ workers) × (workers ≤ 8) }
    requires fresh { seat.old.view ≡ fresh_view workers }
    requires items { AreItemsOf tables.now.window items.now }
    requires ceiling { ceiling ≤ GREATEST_COST }
    ensures race { seat.new.race ≡ seat.old.race }
    ensures share { seat.new.view.share ≡ workers }
    ensures searched { OnOk result (HasSearched (costs_of tables.now) tables.now.window ceiling items.now seat.new.view) }
    ensures kept { IfOk result (λ lists. AreKept (costs_of tables.now) tables.now.window ceiling items.now workers seat.new.view lists.items) }
{
    let mut keeper = Keeper::new(alloc);
    search_with(
        rt,
        race,
        seat,
        tables,
        items,
        ceiling,
        workers,
        gate,
        &mut keeper,
    )?;
    keeper.into_lists()
}

/// What a search found, and the steps of its workers.
#[derive(Drop)]
pub struct Recorded {
    /// The keys of the first two sequences.
    pub found: Found,
    /// The steps of each worker, in the order of their numbers.
    pub lists: Vec<StepList>,
}

/// Decides a window as `bank::decide` does, and keeps the steps of the search.
pub fn decide_recorded<R: Threads + Sync, G: Gate + Sync>(
    rt: &R,
    alloc: Global,
    civil: &Civil,
    grids: &[CostGrid],
    window: &Window,
    ceiling: u32,
    workers: u8,
    gate: &G,
) -> Result<Recorded, StepsFault>
    requires window { IsWindow window.now }
    requires grids { AreGrids window.now grids.now }
    requires ceiling { ceiling ≤ GREATEST_COST }
    requires workers { (1 ≤ workers) × (workers ≤ 8) }
    ensures found { IfOk result (λ r. AreLeastTwo (IsWindowKey window.now (grid_costs grids.now) ceiling) r.found.first r.found.second) }
    ensures kept { IfOk result (λ r. IsFound (grid_costs grids.now) window.now ceiling workers r.found.second r.lists.items) }
{
    let parts = parts_of(alloc, civil, window)?;
    let tables = Tables::make(alloc, &parts, grids, civil, window)?;
    decide_tables(rt, alloc, civil, &tables, window, ceiling, workers, gate)
}

// The same by tables of the window.
fn decide_tables<R: Threads + Sync, G: Gate + Sync>(
    rt: &R,
    alloc: Global,
    civil: &Civil,
    tables: &Tables,
    window: &Window,
    ceiling: u32,
    workers: u8,
    gate: &G,
) -> Result<Recorded, StepsFault>
    requires window { IsWindow window.now }
    requires same { tables.now.window ≡ window.now }
    requires ceiling { ceiling ≤ GREATEST_COST }
    requires workers { (1 ≤ workers) × (workers ≤ 8) }
    ensures found { IfOk result (λ r. AreLeastTwo (IsWindowKey tables.now.window (costs_of tables.now) ceiling) r.found.first r.found.second) }
    ensures kept { IfOk result (λ r. IsFound (costs_of tables.now) tables.now.window ceiling workers r.found.second r.lists.items) }
{
    let order = search_order(alloc, civil, tables, window)?;
    let (race, mut seat) = Race::make(alloc, workers)?;
    let lists = search_recorded(
        rt, alloc, &race, &mut seat, tables, &order, ceiling, workers, gate,
    )?;
    let found = finish(race, seat, tables, &order, ceiling);
    Ok(Recorded { found, lists })
}

// The items of the window: the least bounds first, and those that announce a leap second after all others.
fn search_order(
    alloc: Global,
    civil: &Civil,
    tables: &Tables,
    window: &Window,
) -> Result<Vec<Block>, StepsFault>
    requires window { IsWindow window.now }
    requires same { tables.now.window ≡ window.now }
    ensures { IfOk result (λ list. AreItemsOf tables.now.window list.items) }
{
    let items = items(alloc, civil, window)?;
    let order = announced_last(alloc, tables, &items)?;
    Ok(order)
}

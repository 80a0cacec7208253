//! The search: workers beside each other share the items of a window.

ghost use Rattle.std.specs.Prelude.{◌≡◌, ◌≤◌, OnOk};
ghost use Rattle.field_tables.specs.Scored.{costs_of};
ghost use Rattle.signal_base.specs.declared.limits.TheConstants.{GREATEST_COST};
ghost use Rattle.race_words.specs.Views.{fresh_view};
ghost use Rattle.workers.specs.Recorded.{HaveRecorded};
ghost use Rattle.workers.specs.Searches.{AreItemsOf, HasSearched};

use crate::crew::Crew;
use crate::gate::Gate;
use crate::recorder::{NoRecord, Recorder};
use crate::sharing::share_out;
use crate::visitor::Visitor;
use block_visits::blocks_share_the_sequences;
use definitions::Block;
use field_tables::Tables;
use race_words::{Race, Seat};
use std::thread::Threads;

/// Searches the items of the tables' window, each once and in any order, with 1 to 8 workers. The race and the seat are as
/// `Race::make` gave them for so many workers. The ceiling is at most 1,920,000,000.
///
/// Each worker draws a number, passes the gate with its own number, counted from 0, and the drawn one, and visits the item
/// that has this number, until it draws one that no item has. Where a thread can't be made, workers take turns. It takes no
/// memory, and waits for its workers.
///
/// Afterwards the seat has the whole share again. Each item whose number it drew was visited, so each admitted sequence
/// of it has its key among those that were offered, or a key above the seat's floor.
pub fn search<R: Threads + Sync, G: Gate + Sync>(
    rt: &R,
    race: &Race,
    seat: &mut Seat,
    tables: &Tables,
    items: &[Block],
    ceiling: u32,
    workers: u8,
    gate: &G,
)
    requires race { seat.old.race ≡ race.now.id }
    requires workers { (1 ≤ workers) × (workers ≤ 8) }
    requires fresh { seat.old.view ≡ fresh_view workers }
    requires items { AreItemsOf tables.now.window items.now }
    requires ceiling { ceiling ≤ GREATEST_COST }
    ensures race { seat.new.race ≡ seat.old.race }
    ensures share { seat.new.view.share ≡ workers }
    ensures searched { HasSearched (costs_of tables.now) tables.now.window ceiling items.now seat.new.view }
{
    let mut recorder = NoRecord;
    match search_with(
        rt,
        race,
        seat,
        tables,
        items,
        ceiling,
        workers,
        gate,
        &mut recorder,
    ) {
        Ok(()) => {}
    }
}

/// Searches as `search` does, and tells the recorder of each step. The recorder is parted among the workers and joined again,
/// the parts in the order of the workers' numbers.
///
/// A worker whose steps can't be kept ends, and the others go on. Then the seat has the whole share again, and no more is said
/// of what was searched. What the recorder itself does for it is its own: it may take memory.
pub fn search_with<R: Threads + Sync, G: Gate + Sync, K: Recorder + Send + Drop>(
    rt: &R,
    race: &Race,
    seat: &mut Seat,
    tables: &Tables,
    items: &[Block],
    ceiling: u32,
    workers: u8,
    gate: &G,
    recorder: &mut K,
) -> Result<(), K::Fault>
where
    K::Fault: Send,
    requires race { seat.old.race ≡ race.now.id }
    requires workers { (1 ≤ workers) × (workers ≤ 8) }
    requires fresh { seat.old.view ≡ fresh_view workers }
    requires items { AreItemsOf tables.now.window items.now }
    requires ceiling { ceiling ≤ GREATEST_COST }
    ensures race { seat.new.race ≡ seat.old.race }
    ensures share { seat.new.view.share ≡ workers }
    ensures searched { OnOk result (HasSearched (costs_of tables.now) tables.now.window ceiling items.now seat.new.view) }
    ensures recorded { OnOk result (HaveRecorded K.told K.parts K.joins (costs_of tables.now) tables.now.window ceiling items.now workers seat.new.view recorder.old recorder.new) }
{
    blocks_share_the_sequences();
    let _window = tables.window();
    let visitor = Visitor {
        race,
        tables,
        ceiling,
    };
    let crew = Crew {
        visitor,
        items,
        gate,
    };
    share_out(rt, &crew, seat, workers, 0, recorder)
}

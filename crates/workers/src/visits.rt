//! The visit of one block of a window, over a seat of a race.

ghost use Rattle.std.specs.Prelude.{◌≡◌, ◌≤◌, OnErr, OnOk};
ghost use Rattle.definitions.specs.answers.Blocks.{IsBlock};
ghost use Rattle.field_tables.specs.Scored.{costs_of};
ghost use Rattle.signal_base.specs.declared.limits.TheConstants.{GREATEST_COST};
ghost use Rattle.workers.specs.Searches.{HasVisited};
ghost use Rattle.workers.specs.Steps.{HasStopped, HasWalked};

use crate::recorder::{NoRecord, Recorder};
use crate::visitor::Visitor;
use block_visits::blocks_share_the_sequences;
use definitions::Block;
use field_tables::Tables;
use race_words::{Race, Seat};

/// Visits a block of the tables' window under a ceiling of at most 1,920,000,000, and offers the keys of its cheapest
/// sequences to the race.
///
/// Each block that it comes to takes one read of the race's limit. A block that has no bound, or whose key is above the
/// lesser of the limit and the ceiling's key, is passed over. Of any other block the children are visited in their order,
/// and of a minute the key is offered. So each admitted sequence of the block has its key among those that were offered, or
/// a key above what the seat knows as its floor.
pub fn visit(race: &Race, seat: &mut Seat, tables: &Tables, item: &Block, ceiling: u32)
    requires race { seat.old.race ≡ race.now.id }
    requires block { IsBlock tables.now.window item.now }
    requires ceiling { ceiling ≤ GREATEST_COST }
    ensures race { seat.new.race ≡ seat.old.race }
    ensures visited { HasVisited (costs_of tables.now) tables.now.window ceiling item.now seat.old.view seat.new.view }
{
    blocks_share_the_sequences();
    let _window = tables.window();
    let visitor = Visitor {
        race,
        tables,
        ceiling,
    };
    let mut latest = u64::MAX;
    match visitor.visit_item(seat, item, &mut latest, &mut NoRecord) {
        Ok(()) => {}
    }
}

/// Visits a block as `visit` does, and tells the recorder of each step. Where a step can't be kept, the visit ends there: it may
/// have offered some keys of the block, and the seat's share and drawn numbers are as before.
pub fn visit_with<K: Recorder>(
    race: &Race,
    seat: &mut Seat,
    tables: &Tables,
    item: &Block,
    ceiling: u32,
    recorder: &mut K,
) -> Result<(), K::Fault>
    requires race { seat.old.race ≡ race.now.id }
    requires block { IsBlock tables.now.window item.now }
    requires ceiling { ceiling ≤ GREATEST_COST }
    ensures race { seat.new.race ≡ seat.old.race }
    ensures walked { let t = tables.now in
        OnOk result (HasWalked K.told (costs_of t) t.window ceiling item.now seat.old.view seat.new.view recorder.old recorder.new) }
    ensures stopped { let t = tables.now in
        OnErr result (HasStopped K.told K.fails (costs_of t) t.window ceiling item.now seat.old.view seat.new.view recorder.old recorder.new) }
{
    let _window = tables.window();
    let visitor = Visitor {
        race,
        tables,
        ceiling,
    };
    let mut latest = u64::MAX;
    visitor.visit_item(seat, item, &mut latest, recorder)
}

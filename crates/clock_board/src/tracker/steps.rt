//! What the tracker does.

ghost use Rattle.std.specs.Prelude.{◌≡◌, ◌<◌, ◌≤◌, [], ◌∷◌, ◌++◌, IfOk, IfSome, MatchResult, drop, fold, length};
ghost use Rattle.crossbeam_utils.specs.Register.{TurnsAt};
ghost use Rattle.left_right.specs.Sides.{view};
ghost use Rattle.clock_board.specs.declared.shelf.Shelf.{Shelf};
ghost use Rattle.clock_board.specs.Rule.{Keeps, Sees};
ghost use Rattle.clock_board.specs.Seats.{published, view_of};
ghost use Rattle.clock_board.specs.Shelves.{after_entry, told};
ghost use Rattle.clock_board.specs.Shown.{Shows};
ghost use Rattle.clock_board.specs.Views.{informed, newcomer};

use crate::rule::{Look, Note};
use crate::{BoardFault, MOST_ENTRIES, News, Published, Shelf, Tracker, View};
use board_entries::{Entry, Told};
use civil::Civil;
use core::mem::replace_with;
use left_right::reader::Reader;
use left_right::writer::Writer;
use std::alloc::{AllocError, Global};
use std::sync::Wait;

// Shows readers the entries that are pending. Adding them takes no memory, so this can't fail.
fn show<R: Wait>(
    writer: Writer<Shelf, Entry, View, Published>,
    rt: &R,
) -> Writer<Shelf, Entry, View, Published>
    requires { (next : Shelf) → next ≡ fold after_entry writer.desk.shown.value (drop writer.behind writer.log.items) → TurnsAt Keeps writer.desk.place.id (view writer.desk.place) writer.desk.shown.value next Sees }
    ensures value { result.desk.shown.value ≡ fold after_entry writer.desk.shown.value (drop writer.behind writer.log.items) }
    ensures all { drop result.behind result.log.items ≡ [] }
    ensures rule { Sees (view writer.desk.place) writer.desk.shown.value result.desk.shown.value (view result.desk.place) }
{
    let (writer, shown) = writer.publish_as::<Look, R>(rt);
    let Ok(()) = shown else { unreachable!() };
    writer
}

impl Tracker {
    /// A tracker that has published nothing, with room for so many readers.
    pub(crate) fn new(alloc: Global, readers: usize) -> Result<Tracker, AllocError>
        requires { (0 < readers) × (readers ≤ 8) }
        ensures { IfOk result (λ t. published t ≡ []) }
    {
        let blank = Shelf::blank();
        let writer = Writer::new(alloc, blank, blank, readers)?;
        Ok(Tracker { writer })
    }

    /// A reader of the board, if a place is found for it.
    pub(crate) fn reader(&self) -> Option<Reader<Shelf, View, Published>>
        ensures view { IfSome result (λ r. view r.place ≡ newcomer) }
        ensures table { IfSome result (λ r. r.place.table_id ≡ self.now.writer.desk.place.table_id) }
        ensures new { view_of (λ r. view r.place) result ≡ newcomer }
    {
        self.writer.factory().reader().ok()
    }

    /// Publishes an entry behind those that were published. It waits for askers that still read the older copy. Where there is no
    /// memory, all is as before.
    pub fn publish<R: Wait>(&mut self, rt: &R, entry: Entry) -> Result<(), BoardFault>
        requires { length (published self.old) < MOST_ENTRIES }
        ensures { MatchResult result (λ _. published self.new ≡ published self.old ++ entry ∷ []) (λ _. published self.new ≡ published self.old) }
    {
        replace_with(self, (rt, entry), |tracker, (rt, entry)| {
            tracker.with_entry(rt, entry)
        })
    }

    fn with_entry<R: Wait>(self, rt: &R, entry: Entry) -> (Tracker, Result<(), BoardFault>)
        requires { length (published self) < MOST_ENTRIES }
        ensures { MatchResult result.1 (λ _. published result.0 ≡ published self ++ entry ∷ []) (λ _. published result.0 ≡ published self) }
    {
        let Tracker { mut writer } = self;
        let Ok(()) = writer.append(entry) else {
            return (Tracker { writer }, Err(BoardFault::NoMemory));
        };
        let writer = show(writer, rt);
        (Tracker { writer }, Ok(()))
    }

    /// What is told of a millisecond by the entries that were published.
    pub fn ask(&self, civil: &Civil, ms: u64) -> Told
        ensures { result ≡ told (published self.now) ms }
    {
        self.writer.published().told(civil, ms)
    }

    /// News for one asker of the entries that were published. Where no place is found for a reader, they have none.
    pub fn news(&mut self) -> News
        ensures kept { published self.new ≡ published self.old }
        ensures shelf { Shows result.shelf (published self.old) }
        ensures reader { IfSome result.reader (λ r. view r.place ≡ informed newcomer (view self.old.writer.desk.place)) }
    {
        let shelf = *self.writer.published();
        let Some(mut reader) = self.reader() else {
            return News {
                shelf,
                reader: None,
            };
        };
        reader.learn::<Note>(self.writer.tell::<Note>());
        News {
            shelf,
            reader: Some(reader),
        }
    }

    /// Ends the board. It waits for askers that are reading. From then on they answer from their own copies.
    pub fn end<R: Wait>(self, rt: &R) {
        let Tracker { writer } = self;
        drop(writer.take(rt));
    }
}

//! An asker, which reads the board.

ghost use Rattle.std.specs.Prelude.{◌≡◌, ◌≤◌, List, [], IsNone, IsSome, IsTrue, IsFalse};
ghost use Rattle.left_right.specs.Sides.{view};
ghost use Rattle.board_entries.specs.declared.entry.Entry.{Entry};
ghost use Rattle.clock_board.specs.Seats.{brought, known, view_of};
ghost use Rattle.clock_board.specs.Shelves.{longer, told};
ghost use Rattle.clock_board.specs.Shown.{Shows};
ghost use Rattle.clock_board.specs.Views.{StartsWith, newcomer};

use crate::rule::Look;
use crate::{News, Published, Reading, Shelf, View};
use civil::Civil;
use left_right::reader::Reader;

/// A reader of the board, with a copy of the longest shelf that it read or was told of. Where no place was found for its reader it
/// has none, and answers from its copy.
#[derive(Drop)]
pub struct Asker {
    pub(crate) reader: Option<Reader<Shelf, View, Published>>,
    pub(crate) kept: Shelf,
}

impl Asker {
    /// An asker that knows of no entry, with this reader.
    pub(crate) fn new(reader: Option<Reader<Shelf, View, Published>>) -> Asker
        requires { view_of (λ r. view r.place) reader ≡ newcomer }
        ensures { Shows result.kept [] × (known result ≡ newcomer) }
    {
        Asker {
            reader,
            kept: Shelf::blank(),
        }
    }

    /// What is told of a millisecond: by the board, or by the asker's own copy where it can't be read.
    pub fn ask(&mut self, civil: &Civil, ms: u64) -> Reading
        ensures told { (list : List Entry) → Shows self.new.kept list → result.told ≡ told list ms }
        ensures count { result.count ≡ self.new.kept.count }
        ensures fresh { IsTrue result.fresh → Shows self.new.kept (known self.new).seen × StartsWith (known self.new).seen (known self.old).told }
        ensures kept { IsFalse result.fresh → self.new.kept ≡ self.old.kept }
        ensures rises { self.old.kept.count ≤ self.new.kept.count }
        ensures seen { StartsWith (known self.new).seen (known self.old).seen × ((known self.new).told ≡ (known self.old).told) }
    {
        let fresh = self.refresh();
        Reading {
            told: self.kept.told(civil, ms),
            count: self.kept.count,
            fresh,
        }
    }

    /// Takes in news of the tracker that was made with this asker. The asker's reader becomes that of the news, if they have one.
    pub fn learn(&mut self, news: News)
        ensures kept { self.new.kept ≡ longer self.old.kept news.shelf }
        ensures reader { IsSome news.reader → known self.new ≡ brought news }
        ensures none { IsNone news.reader → known self.new ≡ known self.old }
    {
        let News { shelf, reader } = news;
        if self.kept.count < shelf.count {
            self.kept = shelf;
        }
        if let Some(reader) = reader {
            self.reader = Some(reader);
        }
    }

    // Reads the board, and keeps what it shows unless that is less than what is kept. It returns whether it did.
    fn refresh(&mut self) -> bool
        ensures fresh { IsTrue result → Shows self.new.kept (known self.new).seen × StartsWith (known self.new).seen (known self.old).told }
        ensures kept { IsFalse result → self.new.kept ≡ self.old.kept }
        ensures rises { self.old.kept.count ≤ self.new.kept.count }
        ensures seen { StartsWith (known self.new).seen (known self.old).seen × ((known self.new).told ≡ (known self.old).told) }
    {
        let Some(reader) = self.reader.take() else {
            return false;
        };
        match reader.enter_as::<Look>() {
            Ok(reading) => {
                let taken = self.kept.take_in(reading.get());
                self.reader = Some(reading.leave());
                taken
            }
            Err(reader) => {
                self.reader = Some(reader);
                false
            }
        }
    }
}

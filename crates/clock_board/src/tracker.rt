//! The tracker, which alone writes the board.

ghost use Rattle.std.specs.Prelude.{◌≡◌, [], drop};
ghost use Rattle.left_right.specs.Sides.{view};
ghost use Rattle.clock_board.specs.Shown.{Shows};

use crate::{Published, Shelf, View};
use board_entries::Entry;
use left_right::writer::Writer;

mod steps;

/// The writer of a board. It has no drop: `end` ends it.
pub struct Tracker {
    pub(crate) writer: Writer<Shelf, Entry, View, Published>,
    pub ghost shows: { Shows writer.desk.shown.value (view writer.desk.place).seen },
    pub ghost all_shown: { drop writer.behind writer.log.items ≡ [] },
}

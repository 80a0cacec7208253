//! The last entries and the number of all: what each copy of the board has.

ghost use Rattle.std.specs.Prelude.{◌≡◌, ◌<◌, ◌≤◌, IsTrue, IsFalse};
ghost use Rattle.clock_board.specs.Shelves.{after_entry};

use board_entries::{Entry, LAST_ENTRIES};
use left_right::Absorb;
use std::alloc::AllocError;

/// A board takes no more entries than this.
pub const MOST_ENTRIES: u32 = 1_000_000_000;

/// The last 64 entries, in a ring: the entry of a number, counted from 0, lies at that number modulo 64. Adding one takes no memory.
#[derive(Clone, Copy)]
pub struct Shelf {
    pub(crate) entries: [Option<Entry>; LAST_ENTRIES],
    pub(crate) count: u32,
}

impl Shelf {
    /// Becomes as the other, unless that has fewer entries. It returns whether it did. This is the only copy that a question makes.
    pub(crate) fn take_in(&mut self, other: &Shelf) -> bool
        ensures taken { IsTrue result → self.new ≡ other.now }
        ensures kept { IsFalse result → (self.new ≡ self.old) × (other.now.count < self.old.count) }
        ensures rises { self.old.count ≤ self.new.count }
    {
        if other.count < self.count {
            return false;
        }
        *self = *other;
        true
    }
}

impl Absorb<Entry> for Shelf {
    type State = Shelf;

    ghost state = { λ s. s };

    ghost applied = { after_entry };

    ghost never_fails = { Unit {0} };

    fn absorb_first(&mut self, operation: &Entry, _other: &Shelf) -> Result<(), AllocError> {
        if self.count < MOST_ENTRIES {
            self.entries[self.count as usize % LAST_ENTRIES] = Some(*operation);
            self.count += 1;
        }
        Ok(())
    }
}

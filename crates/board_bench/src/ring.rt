//! The last entries and the number of all, as a board has them, to be kept under a lock.

use crate::entries::entry;
use board_entries::{Entry, LAST_ENTRIES};
use civil::Civil;
use clock_board::{Reading, told_of};

/// The last 64 entries and the number of all. Each entry lies in two places, 64 apart, so the last 64 lie side by side, in order.
#[derive(Drop)]
pub struct Ring {
    entries: [Entry; 2 * LAST_ENTRIES],
    count: u32,
}

impl Ring {
    /// Of no entry.
    pub fn new() -> Ring {
        Ring {
            entries: [entry(0); 2 * LAST_ENTRIES],
            count: 0,
        }
    }

    /// Adds an entry behind the others.
    pub fn add(&mut self, entry: Entry) {
        let place = self.count as usize % LAST_ENTRIES;
        self.entries[place] = entry;
        self.entries[place + LAST_ENTRIES] = entry;
        self.count = self.count.saturating_add(1);
    }

    /// What is told of a millisecond.
    pub fn ask(&self, civil: &Civil, ms: u64) -> Reading {
        Reading {
            told: told_of(civil, self.last(), ms),
            count: self.count,
            fresh: true,
        }
    }

    // The last 64 entries, or all where there are fewer.
    fn last(&self) -> &[Entry] {
        let count = self.count as usize;
        if count < LAST_ENTRIES {
            return &self.entries[..count];
        }
        let begin = count % LAST_ENTRIES;
        &self.entries[begin..begin + LAST_ENTRIES]
    }
}

//! What a shelf tells of a millisecond.

ghost use Rattle.std.specs.Prelude.{◌≡◌, ◌%◌, ◌<◌, true, List, [], length, map, None, Some, IfSome, slice_index_or};
ghost use Rattle.board_entries.specs.declared.entry.Entry.{Entry};
ghost use Rattle.board_entries.specs.Board.{has, last_entries, last_with, told_by};
ghost use Rattle.board_entries.specs.Plain.{plain};
ghost use Rattle.clock_board.specs.Shelves.{or_laid, plain_or_none, told};
ghost use Rattle.clock_board.specs.Shown.{Shows};
ghost use Rattle.clock_board.specs.Telling.{IsTold};

use crate::Shelf;
use board_entries::{Entry, LAST_ENTRIES, Told};
use civil::Civil;
use sequence::at;

// Whether the millisecond lies in the entry's window.
fn has(entry: &Entry, ms: u64) -> bool
    ensures { result ≡ has (plain entry.now) ms }
{
    let begin = entry.start + entry.phase as u64;
    begin <= ms && ms < begin + 1000 * entry.seconds as u64
}

// The entry in this place, where it has the millisecond.
fn if_it_has(laid: Option<Entry>, ms: u64) -> Option<Entry>
    ensures laid { plain_or_none result ≡ or_laid ms None laid }
    ensures has { IfSome result (λ e. has (plain e) ms ≡ true) }
{
    match laid {
        None => None,
        Some(entry) => {
            if has(&entry, ms) {
                return Some(entry);
            }
            None
        }
    }
}

// What the entry tells of a millisecond that it has.
fn told_by(civil: &Civil, entry: &Entry, ms: u64) -> Told
    requires { has (plain entry.now) ms ≡ true }
    ensures told { result ≡ told_by (Some (plain entry.now)) ms }
    ensures century { IsTold result }
{
    let slot = (ms - entry.start - entry.phase as u64) / 1000;
    match at(civil, &entry.sequence, slot as u16) {
        Some((minute, second)) => Told::At { minute, second },
        None => unreachable!(),
    }
}

/// What entries tell of a millisecond.
pub fn told_of(civil: &Civil, entries: &[Entry], ms: u64) -> Told
    ensures told { result ≡ told entries.now ms }
    ensures century { IsTold result }
{
    match last_of(entries, ms) {
        None => Told::Unknown,
        Some(entry) => told_by(civil, &entry, ms),
    }
}

// Of the last 64 of these entries, the last that has the millisecond. The walk begins with the newest and ends at the first that
// has it.
fn last_of(entries: &[Entry], ms: u64) -> Option<Entry>
    ensures list { plain_or_none result ≡ last_with ms (last_entries (map plain entries.now)) }
    ensures has { IfSome result (λ e. has (plain e) ms ≡ true) }
{
    for n in (entries.len().saturating_sub(LAST_ENTRIES)..entries.len()).rev() {
        if let Some(entry) = if_it_has(Some(entry_at(entries, n)), ms) {
            return Some(entry);
        }
    }
    None
}

// The entry of this number.
fn entry_at(entries: &[Entry], n: usize) -> Entry
    requires { n < length entries.now }
    ensures { result ≡ slice_index_or entries.now n result }
{
    entries[n]
}

impl Shelf {
    /// A shelf of no entry.
    pub(crate) fn blank() -> Shelf
        ensures { Shows result [] }
    {
        Shelf {
            entries: [None; LAST_ENTRIES],
            count: 0,
        }
    }

    /// What is told of a millisecond.
    pub(crate) fn told(&self, civil: &Civil, ms: u64) -> Told
        ensures { (list : List Entry) → Shows self.now list → result ≡ told list ms }
    {
        match self.last_with(ms) {
            None => Told::Unknown,
            Some(entry) => told_by(civil, &entry, ms),
        }
    }

    // Of the entries on the shelf, the last that has the millisecond.
    fn last_with(&self, ms: u64) -> Option<Entry>
        ensures list { (list : List Entry) → Shows self.now list → plain_or_none result ≡ last_with ms (last_entries (map plain list)) }
        ensures has { IfSome result (λ e. has (plain e) ms ≡ true) }
    {
        for n in (self.count.saturating_sub(LAST_ENTRIES as u32)..self.count).rev() {
            if let Some(entry) = if_it_has(self.laid(n), ms) {
                return Some(entry);
            }
        }
        None
    }

    // What lies in the place of the entry of this number.
    fn laid(&self, n: u32) -> Option<Entry>
        ensures { result ≡ slice_index_or self.now.entries (n % LAST_ENTRIES) None }
    {
        self.entries[n as usize % LAST_ENTRIES]
    }
}

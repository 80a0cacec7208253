//! Lists as rules see them: entries, and numbers.

ghost use Rattle.std.specs.Prelude.{◌≡◌, map};
ghost use Rattle.board_entries.specs.Plain.{plain};

use board_entries::Entry;
use std::marker::Model;

/// Entries, in their order.
#[derive(Drop)]
pub struct Entries {
    entries: Vec<Entry>,
}

impl Model for Entries {
    ghost use Rattle.std.specs.Prelude.{List, map};
    ghost use Rattle.board_entries.specs.Board.{PlainEntry};
    ghost use Rattle.board_entries.specs.Plain.{plain};

    ghost Value = { List PlainEntry };

    ghost view = { λ list. map plain list.entries.items };
}

impl Entries {
    /// These entries.
    pub fn new(entries: Vec<Entry>) -> Entries
        ensures { result ≡ map plain entries.items }
    {
        Entries { entries }
    }

    /// All of them.
    pub fn as_slice(&self) -> &[Entry]
        ensures { map plain result.now ≡ self.now }
    {
        self.entries.as_slice()
    }
}

/// Numbers, in their order.
#[derive(Drop)]
pub struct Numbers {
    numbers: Vec<u64>,
}

impl Model for Numbers {
    ghost use Rattle.std.specs.Prelude.{List, ℕ};

    ghost Value = { List ℕ };

    ghost view = { λ list. list.numbers.items };
}

impl Numbers {
    /// These numbers.
    pub fn new(numbers: Vec<u64>) -> Numbers
        ensures { result ≡ numbers.items }
    {
        Numbers { numbers }
    }

    /// All of them.
    pub fn as_slice(&self) -> &[u64]
        ensures { result.now ≡ self.now }
    {
        self.numbers.as_slice()
    }
}

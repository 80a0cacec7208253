//! What an asker answers.

use board_entries::Told;

/// What is told of a millisecond, and by how many entries.
#[derive(Clone, Copy, PartialEq, Eq)]
pub struct Reading {
    /// What is told.
    pub told: Told,
    /// How many entries had been published.
    pub count: u32,
    /// Whether the board was read, or else the asker's own copy.
    pub fresh: bool,
}

//! What a seat at the board knows.

use board_entries::Entry;
use std::collections::LinkedList;

/// What the tracker or an asker knows of the entries, as contracts see it. No value of it is made.
pub struct View {
    /// The entries that it saw, in order.
    pub seen: LinkedList<Entry>,
    /// The entries that it was told of, in order.
    pub told: LinkedList<Entry>,
}

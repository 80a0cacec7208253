//! What a seat knows of its race.
use std::collections::LinkedList;

/// A seat's view, as contracts see it. No value of it is made.
pub struct View {
    /// How much of the race it has. The shares of all seats add up to the number of workers.
    pub share: u8,
    /// The numbers that it drew, in order.
    pub drawn: LinkedList<u64>,
    /// The keys that it offered, in order.
    pub offered: LinkedList<u64>,
    /// What `limit` answered it, in order.
    pub reads: LinkedList<u64>,
    /// The key that it displaced from the first word and has yet to offer to the second, or the greatest `u64`.
    pub carried: u64,
    /// The least word is not above this key.
    pub low: u64,
    /// The second word is not above this key while nothing is carried.
    pub floor: u64,
}

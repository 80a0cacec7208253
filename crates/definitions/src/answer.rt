//! The three answers to the question which sequence was sent.

use crate::Sequence;

/// The answer for a window. Costs are at most 1,920,000,000.
#[derive(Clone, Copy)]
pub enum Answer {
    /// No sequence is admitted.
    Nothing,
    /// One admitted sequence costs less than every other.
    Decided {
        /// What it costs.
        cost: u32,
        /// The sequence.
        sequence: Sequence,
        /// The least cost among the others, if there is another.
        next: Option<u32>,
    },
    /// The first two admitted sequences cost the same.
    Undecided {
        /// What they cost.
        cost: u32,
        /// The first in order.
        sequence: Sequence,
        /// The second in order.
        other: Sequence,
    },
}

//! The level of a receiver's output.

/// What a logger says of the carrier.
#[derive(Clone, Copy, PartialEq, Eq)]
pub enum Level {
    /// The carrier is high.
    High,
    /// The carrier is low.
    Low,
    /// Nothing is known.
    Unknown,
}

//! A hypothesis about what was sent.

/// A sequence of minutes and seconds: it puts second `second` of minute `first` in the window's first slot, and
/// goes on second by second.
#[derive(Clone, Copy, Debug, PartialEq, Eq)]
pub struct Sequence {
    /// The first minute, counted from 2000-01-01T00:00Z, below 52,596,000.
    pub first: u32,
    /// The first second, 0 to 60.
    pub second: u8,
    /// Whether a leap second is announced for the end of the UTC June or December.
    pub announced: bool,
}

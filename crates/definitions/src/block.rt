//! Blocks of sequences.

/// How long a block is at most: a year, day, hour or minute of UTC.
#[derive(Clone, Copy, Debug, PartialEq, Eq)]
pub enum Span {
    /// A calendar year.
    Year,
    /// A day.
    Day,
    /// An hour.
    Hour,
    /// A minute.
    Minute,
}

/// All sequences of one announcement and one first second that begin in some minutes: in that part of a year, day,
/// hour or minute that lies in the range of a window.
#[derive(Clone, Copy, Debug, PartialEq, Eq)]
pub struct Block {
    /// Whether its sequences announce a leap second.
    pub announced: bool,
    /// Their first second, 0 to 60.
    pub second: u8,
    /// Of what the block is a part.
    pub span: Span,
    /// The first of the minutes, counted from 2000-01-01T00:00Z.
    pub lo: u32,
    /// The end of the minutes, above `lo`, at most 52,596,000.
    pub hi: u32,
}

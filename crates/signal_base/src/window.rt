//! The stretch of time that is decoded, and the minutes that may begin it.

use crate::Stations;

/// What is decoded: `seconds` seconds from millisecond `start + phase` of the receivers' clock, under the
/// hypothesis that the first of them lies in one of the minutes from `from` up to, and without, `to`.
#[derive(Clone, Copy, PartialEq, Eq)]
pub struct Window {
    /// The stations of the bank's receivers.
    pub stations: Stations,
    /// Milliseconds of the receivers' clock, below 10^12.
    pub start: u64,
    /// Milliseconds from `start` to the first second, below 1,000.
    pub phase: u16,
    /// How many seconds, 60 to 1,200.
    pub seconds: u16,
    /// The first minute of the range, counted from 2000-01-01T00:00Z.
    pub from: u32,
    /// The end of the range, above `from`, at most 52,596,000.
    pub to: u32,
}

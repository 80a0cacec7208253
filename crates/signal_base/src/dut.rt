//! DUT1, the tenths of a second between UT1 and UTC, as a window tells it.

use crate::Station;

/// What the cheapest sequence tells of DUT1.
#[derive(Clone, Copy, PartialEq, Eq)]
pub enum Dut {
    /// The station doesn't send it.
    Absent,
    /// The window lies in two UTC days, between which it may change.
    Free,
    /// At least two values cost least.
    Tied,
    /// This value alone costs least, in tenths of a second.
    Tenths(i8),
}

/// What a station's receivers tell of DUT1.
#[derive(Clone, Copy)]
pub struct StationDut {
    /// The station.
    pub station: Station,
    /// What it tells.
    pub dut: Dut,
}

//! A day of the calendar.

/// A day's date, weekday and place in the year.
#[derive(Clone, Copy, PartialEq, Eq)]
pub struct Day {
    /// The year, 2000 to 2100.
    pub year: u16,
    /// The month, 1 to 12.
    pub month: u8,
    /// The day of the month, from 1.
    pub day: u8,
    /// The weekday, from 0 for Sunday to 6 for Saturday.
    pub weekday: u8,
    /// The day of the year, from 1.
    pub day_of_year: u16,
}

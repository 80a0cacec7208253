//! The calendar's fields of a minute.

/// A minute's date and time of day.
#[derive(Clone, Copy)]
pub struct Fields {
    /// The year, 2000 to 2100.
    pub year: u16,
    /// The month, 1 to 12.
    pub month: u8,
    /// The day of the month, from 1.
    pub day: u8,
    /// The weekday, from 0 for Sunday to 6 for Saturday.
    pub weekday: u8,
    /// The day of the year, from 1.
    pub day_of_year: u16,
    /// The hour, 0 to 23.
    pub hour: u8,
    /// The minute, 0 to 59.
    pub minute: u8,
}

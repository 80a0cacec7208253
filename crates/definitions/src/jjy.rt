//! What a minute of JJY speaks of.

/// The facts that a minute of JJY carries: the sent minute's own fields in Japan's time, and what is announced.
#[derive(Clone, Copy)]
pub struct JjyFacts {
    /// The minute, 0 to 59.
    pub minute: u8,
    /// The hour, 0 to 23.
    pub hour: u8,
    /// The day of the year, 1 to 366.
    pub day_of_year: u16,
    /// The last two digits of the year.
    pub year: u8,
    /// The weekday, from 0 for Sunday to 6 for Saturday.
    pub weekday: u8,
    /// Whether the minute warns of a leap second at the end of its UTC month.
    pub leap: bool,
    /// Whether the minute has 61 seconds.
    pub long: bool,
}

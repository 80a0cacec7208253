//! What a minute of WWVB speaks of.

/// The facts that a minute of WWVB carries: the sent minute's own fields in UTC, and what is announced.
#[derive(Clone, Copy)]
pub struct WwvbFacts {
    /// The minute, 0 to 59.
    pub minute: u8,
    /// The hour, 0 to 23.
    pub hour: u8,
    /// The day of the year, 1 to 366.
    pub day_of_year: u16,
    /// The last two digits of the year.
    pub year: u8,
    /// The two bits of summer time in the United States, by the UTC day: 0 standard time, 2 begins on this day, 3 summer
    /// time, 1 ends on this day.
    pub us_code: u8,
    /// Whether a leap second is announced for the end of the UTC month.
    pub leap: bool,
    /// Whether the minute has 61 seconds.
    pub long: bool,
}

//! What a minute of DCF77 speaks of.

/// The facts that a minute of DCF77 carries: the fields of the encoded minute, which is the next one, in Central
/// European time, and what the sent minute announces.
#[derive(Clone, Copy)]
pub struct DcfFacts {
    /// The minute, 0 to 59.
    pub minute: u8,
    /// The hour, 0 to 23.
    pub hour: u8,
    /// The day of the month, 1 to 31.
    pub day: u8,
    /// The weekday, from 0 for Sunday to 6 for Saturday.
    pub weekday: u8,
    /// The month, 1 to 12.
    pub month: u8,
    /// The last two digits of the year.
    pub year: u8,
    /// Whether the encoded minute is in summer time.
    pub summer: bool,
    /// Whether summer time begins or ends within the hour after the sent minute.
    pub change: bool,
    /// Whether the sent minute warns of a leap second at the end of its hour.
    pub leap: bool,
    /// Whether the sent minute has 61 seconds.
    pub long: bool,
}

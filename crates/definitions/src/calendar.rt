//! How long the calendar's units are, in which minutes and days are counted.

/// The minutes of an hour.
pub const MINUTES_PER_HOUR: u32 = 60;

/// The minutes of a day.
pub const MINUTES_PER_DAY: u32 = 1440;

/// The days of the years 2000 to 2099.
pub const CENTURY_DAYS: u32 = 36_525;

/// The minutes of the years 2000 to 2099.
pub const CENTURY_MINUTES: u32 = CENTURY_DAYS * MINUTES_PER_DAY;

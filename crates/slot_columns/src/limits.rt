//! How large the tables are.

use definitions::{MINUTES_PER_DAY, MINUTES_PER_HOUR};

/// The seconds of a minute, but for one that a leap second ends.
pub const SECONDS_PER_MINUTE: usize = 60;

/// How many sets a row of costs has: those of at most five symbols.
pub(crate) const SETS: usize = 32;

/// The most minutes of a walk after its first: 1,200 slots from second 59 on.
pub(crate) const LATER_MINUTES: usize = 20;

/// A column for each first second of a walk and each second.
pub(crate) const COLUMNS: usize = SECONDS_PER_MINUTE * SECONDS_PER_MINUTE;

/// The minutes of a day, as a length.
pub(crate) const DAY_MINUTES: usize = MINUTES_PER_DAY as usize;

/// The minutes of an hour, as a length.
pub(crate) const HOUR_MINUTES: usize = MINUTES_PER_HOUR as usize;

/// The minutes of a day, and after them those that a walk from the day's last minute may reach.
pub(crate) const REACHED_MINUTES: usize = DAY_MINUTES + LATER_MINUTES;

/// The hours of a day, and behind them the one that a walk from the day's last hour may reach.
pub(crate) const REACHED_HOURS: usize = DAY_MINUTES / HOUR_MINUTES + 1;

//! The greatest costs of a second and of its parts.

use signal_base::{MOST_COST, MOST_SECOND_COST, MOST_SECONDS, MOST_WEIGHT, START_LIMIT};

/// A second, in milliseconds.
pub(crate) const SECOND: u64 = 1000;

/// The seconds of a window begin before this millisecond, for a receiver that lags too.
pub const SECOND_LIMIT: u64 = START_LIMIT + 2 * (MOST_SECONDS as u64 + 1) * SECOND;

/// How many tenths a second has.
pub(crate) const TENTHS: usize = 10;

/// The most that a tenth of a second costs, before its receiver's weight: 200.
pub(crate) const TENTH_COST: u32 = MOST_COST as u32;

/// The most that a second costs, before its receiver's weight: 2,000.
pub(crate) const SECOND_COST: u32 = MOST_SECOND_COST as u32;

/// The most that a second costs a receiver, which counts it at most 100 times: 200,000.
pub const RECEIVER_COST: u32 = MOST_WEIGHT as u32 * SECOND_COST;

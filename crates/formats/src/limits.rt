//! How much a log may hold.

/// The most bytes of a log's text.
pub const LOG_LIMIT: u64 = 8_000_000;

/// The most records of a log.
pub const MOST_RECORDS: usize = 200_000;

/// Times of records are below this, in milliseconds, so that they have at most 12 digits.
pub const TIME_LIMIT: u64 = 1_000_000_000_000;

/// The most bytes of a receiver's name.
pub const LONGEST_NAME: usize = 32;

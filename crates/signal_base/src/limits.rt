//! The ranges of what a bank is told and of what its sequences cost.

/// The most receivers of a bank.
pub const MOST_RECEIVERS: usize = 8;

/// The greatest delay of a receiver, in milliseconds.
pub const MOST_DELAY: u16 = 500;

/// The least weight of a receiver.
pub const LEAST_WEIGHT: u8 = 1;

/// The greatest weight of a receiver.
pub const MOST_WEIGHT: u8 = 100;

/// The greatest entry of a cost table.
pub const MOST_COST: u8 = 200;

/// The least of what a second may cost a receiver at the most, where a cost table says that.
pub const LEAST_SECOND_COST: u16 = 1;

/// The greatest of it: ten tenths of 200.
pub const MOST_SECOND_COST: u16 = 2_000;

/// The fewest seconds of a window.
pub const LEAST_SECONDS: u16 = 60;

/// The most seconds of a window.
pub const MOST_SECONDS: u16 = 1_200;

/// A window starts before this millisecond of the receivers' clock.
pub const START_LIMIT: u64 = 1_000_000_000_000;

/// The greatest cost of a sequence: 1,200 seconds of ten tenths at eight receivers of weight 100, a tenth at most 200.
pub const GREATEST_COST: u32 = 1_920_000_000;

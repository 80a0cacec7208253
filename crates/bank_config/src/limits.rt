//! The ranges of what a configuration says, beside those of a bank's numbers, and what it says where a key is missing.

use signal_base::GREATEST_COST;

/// The most bytes of a configuration's text.
pub const CONFIG_LIMIT: usize = 1_000_000;

/// The most bytes of the name of a receiver's log.
pub const LONGEST_FILE: usize = 200;

/// How many costs a list of the cost table has: one for each number of low milliseconds, 0 to 100, of a tenth of a second.
pub const COSTS: usize = 101;

/// The ceiling where none is given: no sequence costs more.
pub const DEFAULT_CEILING: u32 = GREATEST_COST;

/// The delay of a receiver that gives none, in milliseconds.
pub const DEFAULT_DELAY: u16 = 0;

/// The weight of a receiver that gives none.
pub const DEFAULT_WEIGHT: u8 = 1;

//! What the sets of a window's slots cost where each minute of the walk has 60 seconds, added up second by second.
//!
//! A bound sums the costs of up to 1,200 slots, and a search asks for hundreds of millions of bounds. Where each second
//! carries the same set in all minutes of the walk, or in all but the first, that sum is one over 60 seconds of sums that
//! were made once.
#![tactic(auto)]

mod columns;
mod day_columns;
mod layered;
mod limits;
mod part;
mod slots;
mod split;
mod sums;
mod tables;
mod terms;
mod walks;

pub use columns::SlotColumns;
pub use layered::LayerTable;
pub use limits::SECONDS_PER_MINUTE;
pub use part::Part;
pub use split::{SPLITS, SplitCosts};
pub use walks::{WalkRow, WalkTable};

//! Windows, what tenths of a second cost, and what a receiver hears by a log: what tests of searches begin with.
#![tactic(auto)]

mod grids;
mod windows;

pub use grids::{grid, minute_grid, silent_grid, table};
pub use windows::{YEAR_2001, dcf77, jjy, window};

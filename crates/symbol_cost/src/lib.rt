//! What each symbol of a station costs in each slot of a window, by what the receivers heard.
#![tactic(auto)]

mod grid;
mod limits;
mod receivers;
mod rows;
mod second;

pub use grid::{CostGrid, GridFault};
pub use limits::{RECEIVER_COST, SECOND_LIMIT};
pub use second::{Row, second_costs};

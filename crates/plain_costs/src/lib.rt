//! What sequences cost and what blocks of them cost at the least, by the grids of a window's stations: by a walk over each
//! slot of each sequence.
#![tactic(auto)]

mod bound;
mod dut;
mod grids;
mod laws;
mod plain;
mod tenths;
mod unions;
mod walk;

pub use bound::union_bound;
pub use dut::dut1;
pub use grids::grid_of;
pub use laws::{agreeing_costs_cost_alike, grids_agree_with_their_costs};
pub use plain::plain_cost;
pub use tenths::{MOST_VALUES, has_dut1, is_dut1_second, symbol_of, value_count};
pub use unions::{Sets, has_walk, unions_of};

//! What the sequences of a block allow together where a leap second is announced: for the blocks of a search whose walks
//! may meet a minute of 61 seconds.
#![tactic(auto)]

mod kept;
mod leap_ends;
mod pieces;
mod row_maker;
mod rows;
mod sets;
mod tapes;
mod together;
mod unions;
mod walk;

pub use sets::Sets;
pub use unions::LeapUnions;
pub use walk::LeapWalk;

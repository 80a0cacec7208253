//! What the telegrams of the four stations have in common: sets of symbols, and decimal fields whose bits are spread over
//! seconds.
#![tactic(auto)]

mod field;
pub mod marked;
mod set;

pub use field::{Field, carried_bit};
pub use set::{FREE, NO_SECOND, only, seconds_of};

//! What a walk of a sequence costs a station, by sums that were made before: the exact cost, of three numbers, where each
//! minute has 60 seconds and the date tells the same in all of them; and floors, which no such walk costs less than, where a
//! walk goes from one date to the next, sends a call sign, announces a change, or goes over a change of summer time.
#![tactic(auto)]

mod announced;
mod apart;
mod call;
mod change;
mod crossing;
mod date;
mod dut;
mod kept;
mod kinds;
mod least;
mod over;
mod set_costs;
mod shown;
mod span;
mod thirds;
mod walks;

pub use apart::DateFloor;
pub use crossing::Crossing;
pub use date::ByMinute;
pub use over::Over;
pub use shown::Shown;
pub use span::{Near, SpanCosts};
pub use walks::{StationWalks, minutes_to_call};

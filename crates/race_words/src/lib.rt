//! Three shared words, from which workers draw numbers and which they lower to the two least keys that they offer.
//!
//! A key is a `u64` below the greatest one, which stands for no key. Each worker has a seat, with a share of the race and a
//! view of what it drew, offered and read. Seats are split for threads and joined again; the one with the whole share closes
//! the race. No step waits for another, and there is no lock.
#![tactic(auto)]

mod ends;
mod laws;
mod race;
mod rule;
mod seat;
#[cfg(test)]
mod tests;
mod view;

pub use ends::Ends;
pub use laws::{races_stay_sound, two_least_are_told_by_counts};
pub use race::{Race, RaceFault};
pub use rule::Often;
pub use seat::Seat;
pub use view::View;

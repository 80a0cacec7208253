//! A board of the last decided windows: one tracker writes it, and many askers, in threads of their own, read it. No reader
//! waits for the tracker or for another reader.
//!
//! The board has two copies of a shelf of 64 entries. Askers read the one while the tracker writes the other, then the two change
//! places. What a list of entries tells of a millisecond is defined in `board_entries`.
#![tactic(auto)]

mod asker;
mod board;
mod news;
mod reading;
mod rule;
mod shelf;
#[cfg(test)]
mod tests;
mod told;
mod tracker;
mod view;

pub use asker::Asker;
pub use board::{BoardFault, MOST_READERS, make};
pub use news::News;
pub use reading::Reading;
pub use rule::Published;
pub use shelf::{MOST_ENTRIES, Shelf};
pub use told::told_of;
pub use tracker::Tracker;
pub use view::View;

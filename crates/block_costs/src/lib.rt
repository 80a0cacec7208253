//! What the blocks of a search cost one station where each minute that their walks go through has 60 seconds: the costs of
//! what their sequences may carry, all of them together.
#![tactic(auto)]

mod blocks;
mod kept;
mod local_hours;
mod sequences;
mod unkept;
mod walks;

pub use blocks::StationBlocks;
pub use walks::Walks;

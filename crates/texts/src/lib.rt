//! The texts that the program writes to standard output. Each is built whole, without taking memory, and written
//! by one append where standard output takes it whole.
#![tactic(auto)]

mod feed;
mod frames;
mod heard;
mod lines;
mod listing;
mod minutes;
mod page;
mod pieces;
mod refusal;
mod report;
mod trial;

pub use feed::write_feed;
pub use formats::Refusal;
pub use frames::{write_bad_frame, write_frame_list, write_large_frames};
pub use heard::{MOST_SYMBOLS, write_slot_heard, write_sums_heard};
pub use listing::write_listing;
pub use refusal::write_refusal;
pub use report::write_report;
pub use trial::write_trial;

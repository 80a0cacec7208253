//! The files of a receiver bank: what they tell of their contents, and what counts as a fault of theirs.
#![tactic(auto)]

mod examples;
mod files;
mod memory;
mod one_byte;
mod store;
mod sure;
mod text;
mod whole;

pub use examples::{what_a_failed_write_leaves, what_is_told_of_a_file, what_tells_of_a_fault};
pub use files::{Failed, Files, OUTPUT};
pub use memory::MemoryFiles;
pub use one_byte::OneByte;
pub use sure::SureFiles;
pub use text::{TEXT_ROOM, Text, push_number, write_text};
pub use whole::{GREATEST_LIMIT, ReadWhole, read_whole, write_all};

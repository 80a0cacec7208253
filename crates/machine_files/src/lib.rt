//! The files of a machine: which stands open, from which place it is read, and how the machine's answers are
//! taken, over a small trait of what an operating system gives.
#![tactic(auto)]

mod examples;
mod failure;
mod files;
mod kept;
mod machine;
mod memory;
mod opened;
mod store;
mod tries;

pub use examples::{what_is_seen_of_one_file, without_a_fault_files_are_as_the_disk_tells};
pub use failure::Failure;
pub use files::RealFiles;
pub use machine::{Machine, count_answer, count_taking};
pub use memory::{MemoryHandle, MemoryMachine};

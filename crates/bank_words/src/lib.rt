//! The words of the command line, read into what they ask for.
#![tactic(auto)]

mod grammar;
mod line;
mod numbers;
mod order;
mod read;
mod table;
mod values;

pub use formats::{Asked, OptionName, WordFault};
pub use order::{Order, Reach};
pub use read::{read_reach, read_words};

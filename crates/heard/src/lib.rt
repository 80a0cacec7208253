//! What was heard of a decided window, second by second: a program as one call over files.
#![tactic(auto)]

mod ask;
mod command;
mod costs;
mod deliver;
mod find;
mod hearing;
mod list;
mod places;
mod program;
mod receivers;
mod slots;
mod sums;
mod symbols;
mod told;
mod values;
mod words;
mod write;

pub use program::run;

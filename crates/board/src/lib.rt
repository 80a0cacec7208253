//! The command `board` as one call over files: one tracker publishes the decided windows of a log, and askers beside it ask a board
//! of them for the time at milliseconds.
#![tactic(auto)]

mod answers;
mod board_run;
mod command;
mod counts;
mod deliver;
mod desk;
mod find;
mod minute;
mod publish;
#[cfg(test)]
mod tests;
mod text;
mod words;

pub use board_run::board;

//! The command `judge` as one call over files: the certificates of a sweep are judged one after the other, and what all of them
//! certify is the swept answer.
#![tactic(auto)]

mod command;
mod deliver;
mod file_name;
mod find;
mod judge_run;
mod judging;
mod offsets;
mod owed;
mod report;
mod words;

pub use judge_run::judge;

//! The command `check` as one call over files: a certificate is judged by the bank that it is of, and what it certifies is the
//! answer.
#![tactic(auto)]

mod check_run;
mod command;
mod deliver;
mod fault_line;
mod find;
mod reading;
mod told;
mod window;
mod words;

pub use check_run::check;
pub use deliver::print_certified;
pub use fault_line::{FAULT_ROOM, push_fault};
pub use told::{line_fault, verdict_fault};
pub use window::judge_window;

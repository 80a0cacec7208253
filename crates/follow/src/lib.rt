//! The command `follow` as one call over files: the answers for windows that follow one another over a log.
#![tactic(auto)]

mod command;
mod deliver;
mod find;
mod follow_run;
mod window_gate;
mod windows;
mod words;

pub use follow_run::follow;
pub use window_gate::WindowGate;
pub use windows::{move_to, report_of, starts_too_late};

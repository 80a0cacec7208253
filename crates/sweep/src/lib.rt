//! The command `sweep` as one call over files: the answer where the phase is a part of what is asked.
#![tactic(auto)]

mod certify;
mod command;
mod find;
mod heard;
mod kept;
mod phase_gate;
mod phases;
mod sweep_run;
mod turns;
mod words;

pub use phase_gate::PhaseGate;
pub use phases::{told_window, window_at};
pub use sweep_run::sweep;

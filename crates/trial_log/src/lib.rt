//! Trials: logs that are made up by a number, to decode what was sent for certain. A station sends a sequence, and up to
//! eight receivers hear it for twenty minutes, each with a noise of its own that moves edges by up to 20 ms.
#![tactic(auto)]

mod clean;
mod laws;
mod noisy;
mod symbol;
mod text;
mod trial;

pub use laws::{clean_logs_tell_what_is_sent, trials_are_logs};
pub use trial::{
    FIRST_MINUTES, FIRST_SECONDS, MINUTE_STEP, MOST_SHIFT, STATIONS, TRIAL_SECONDS, Trial,
    TrialFault, make,
};

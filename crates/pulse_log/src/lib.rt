//! Logs of pulse edges: what a logger wrote is read into records of time and level, which are asked for the level
//! at a millisecond, for the low milliseconds of a stretch, and for those of each tenth of a second in order.
#![tactic(auto)]

mod fault;
mod line;
mod log;
mod look;
mod read;
mod tenths;

pub use definitions::Level;
pub use fault::LogFault;
pub use log::Log;
pub use read::read_log;
pub use tenths::{TENTH, Tenths};

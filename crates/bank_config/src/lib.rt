//! Configurations: a TOML text that names a bank's receivers and says how they are tuned is read into plain values.
#![tactic(auto)]

mod config;
mod examples;
mod fault;
mod limits;
mod lists;
mod places;
mod read;
mod tables;
mod values;

pub use config::{Config, Receiver};
pub use fault::{ConfigFault, Key};
pub use limits::{CONFIG_LIMIT, DEFAULT_CEILING, DEFAULT_DELAY, DEFAULT_WEIGHT, LONGEST_FILE};
pub use read::read_config;

//! Tests of texts that are read and written, by what the crates promise: `pulse_log`, `symbol_cost`, `bank_config`, `bank_words`,
//! `board_queries`, `irig_frames`, `texts`, `trial_log` and `certificate_texts`. They stand apart, so that each of those crates is
//! proved once and not a second time with its tests.
#![tactic(auto)]

#[cfg(test)]
mod certificate_lines;
#[cfg(test)]
mod command_lines;
#[cfg(test)]
mod config_faults;
#[cfg(test)]
mod configurations;
#[cfg(test)]
mod feeds;
#[cfg(test)]
mod frames;
#[cfg(test)]
mod grids;
#[cfg(test)]
mod listings;
#[cfg(test)]
mod made;
#[cfg(test)]
mod pulses;
#[cfg(test)]
mod queries;
#[cfg(test)]
mod reports;
#[cfg(test)]
mod summaries;
#[cfg(test)]
mod trials;

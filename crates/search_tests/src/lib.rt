//! Tests of searches: blocks and their order (`bounds`, `field_tables`), workers and the steps that are kept (`workers`,
//! `kept_steps`), and certificates of searches (`certificate_walks`, `certificate_judge`).
//!
//! They go by what these crates promise, and stand apart from them: a crate with tests would be proved twice.
#![tactic(auto)]

#[cfg(test)]
mod checks;
#[cfg(test)]
mod floors;
#[cfg(test)]
mod items;
#[cfg(test)]
mod judged;
#[cfg(test)]
mod last_minutes;
#[cfg(test)]
mod order;
#[cfg(test)]
mod searches;
#[cfg(test)]
mod silence;
#[cfg(test)]
mod steps;
#[cfg(test)]
mod written;

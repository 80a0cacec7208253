//! Tests of what the costs of walks stand on and no clause says: into how few runs a century's dates are parted (`minute_parts`), which
//! walks are kept near leap seconds (`leap_unions`), and how much the floors of walks say (`walk_costs`).
//!
//! They go by what these crates promise, and stand apart from them: a crate with tests would be proved twice.
#![tactic(auto)]

#[cfg(test)]
mod leaps;
#[cfg(test)]
mod parts;
#[cfg(test)]
mod walks;

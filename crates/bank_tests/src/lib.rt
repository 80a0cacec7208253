//! Tests of `bank` and `heard`, which go by what these crates promise. They stand apart so that each crate is proved once.
#![tactic(auto)]

#[cfg(test)]
mod banks;
#[cfg(test)]
mod certified;
#[cfg(test)]
mod commands;
#[cfg(test)]
mod made;
#[cfg(test)]
mod stations;
#[cfg(test)]
mod told;

//! Tests of `frame_runs`, `follow` and `checks`, which go by what these crates promise. They stand apart so that each crate is
//! proved once.
#![tactic(auto)]

#[cfg(test)]
mod certified;
#[cfg(test)]
mod certified_banks;
#[cfg(test)]
mod frames;
#[cfg(test)]
mod made;
#[cfg(test)]
mod windows;

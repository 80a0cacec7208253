//! Tests of `sweep` and `judges`, which go by what these crates promise. They stand apart so that each crate is proved once.
#![tactic(auto)]

#[cfg(test)]
mod judged;
#[cfg(test)]
mod made;
#[cfg(test)]
mod phases;
#[cfg(test)]
mod swept;
#[cfg(test)]
mod written;

//! The phase of a window: how many milliseconds after a whole second of the receivers' clock the seconds begin that
//! they heard.
#![tactic(auto)]

mod edges;
mod fit;
#[cfg(test)]
mod tests;

pub use fit::phase;

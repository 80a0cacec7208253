//! Searches whose steps are kept: each block that a worker came to, its bound, and what was read there.
#![tactic(auto)]

mod keeper;
mod lists;
mod recorded;
mod step;

pub use lists::StepList;
pub use recorded::{Recorded, decide_recorded, search_recorded, visit_recorded};
pub use step::{Step, StepsFault};

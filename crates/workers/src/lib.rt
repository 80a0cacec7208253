//! Workers that share the items of a search, and the keys of the first two sequences that they find.
#![tactic(auto)]

mod crew;
mod ending;
mod floored;
mod gate;
mod laws;
mod recorder;
mod searches;
mod sharing;
mod visitor;
mod visits;

pub use block_visits::{visit_is_one, visits_cover_their_blocks};
pub use ending::{Found, finish};
pub use gate::{Gate, NoGate};
pub use laws::{first_two_are_found, floors_pass_over};
pub use recorder::{NoRecord, Recorder};
pub use searches::{search, search_with};
pub use visits::{visit, visit_with};

//! What a search asks of a window's sequences and of blocks of them, by tables that are made once for a log. They are tables
//! of costs: of the fields of telegrams, after which the crate is named, they know nothing.
#![tactic(auto)]

mod bound;
mod floor;
mod leaps;
mod minute;
mod parts;
mod quiet;
mod season_floor;
mod seasons;
mod station;
mod station_floor;
mod stations;
mod sums;
mod tables;
mod year_floor;

pub use parts::{StationParts, parts_of};
pub use plain_costs::{agreeing_costs_cost_alike, dut1, grids_agree_with_their_costs, plain_cost};
pub use tables::{Tables, TablesFault};

//! The telegrams of the century in parts: what the time of day tells, for each minute of a day, and what the date tells,
//! for each run of minutes over which it stays the same. And what a second may carry over a range of minutes, all of them
//! together: once for the minutes in which walks begin, once for the later ones.
#![tactic(auto)]

mod call;
mod date_parts;
mod date_rows;
mod dates;
mod hour_layers;
mod laws;
mod layers;
mod part;
mod parts;
mod pieces;
mod runs;
mod seconds;
mod time_unions;
mod times;
mod unions;
mod walks;

pub use call::{
    CALL_BEGIN, CALL_END, CALL_MARKER, CALL_MINUTE, CALL_MINUTES, gives_up, is_given_up,
};
pub use hour_layers::HOUR_MINUTES;
pub use laws::{block_unions_are_unions_over_minutes, hours_tell_time_and_date};
pub use layers::Layers;
pub use part::{Part, SECONDS, either};
pub use parts::Parts;
pub use runs::Run;
pub use unions::Unions;
pub use walks::later_minutes;

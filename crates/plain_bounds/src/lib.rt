//! What blocks cost at the least and what they are bounded by, as the definitions say it: by a walk through each slot of each
//! sequence. And which floors are too high for that.
#![tactic(auto)]

mod case;
mod plain;
mod too_high;

pub use case::Case;
pub use plain::{first_of, least_cost, plain_bound, sequence_from};
pub use too_high::is_too_high;

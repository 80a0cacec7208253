//! Sequences: the telegrams that they send, the seconds that they walk through, which of them are legal, and their order.
#![tactic(auto)]

mod encoded;
mod keys;
mod legality;
mod telegrams;
mod walks;

pub use definitions::{Answer, Sequence};
pub use keys::{answer_of, ceiling_key, cost_of, index, key, sequence_of};
pub use legality::{legal, walkable};
pub use telegrams::{minute_length, set_in, telegram};
pub use walks::{allowed, at, next_place};

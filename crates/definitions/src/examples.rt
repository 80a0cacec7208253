//! Worked examples, whose values are the public's or were worked out by hand. The checker computes each from the
//! definitions alone, so a wrong definition is refused here.

pub mod answers;
pub mod blocks;
pub mod calendar;
pub mod caps;
pub mod receivers;
pub mod sequences;
pub mod telegrams;

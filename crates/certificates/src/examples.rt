//! Worked examples of certificates, which the checker computes from the definitions alone.

mod faults;
mod texts;
mod verdicts;

pub use faults::first_steps_that_are_wrong;
pub use texts::{
    bad_lines, heads_of_certificates, lines_of_certificates, named_keys, steps_at_their_limits,
    text_of_an_hour,
};
pub use verdicts::{limits_that_keys_name, verdicts_on_an_hour, walks_of_an_hour};

//! What a run of `sweep` owes for its words and the contents of files: the answer where the phase is a part of what is asked, and
//! a status. The rules stand in `specs/`; here are the plain types that they speak of, laws and worked examples.
#![tactic(auto)]

mod certificate_laws;
mod examples;
mod judge_examples;
mod judge_laws;
mod laws;
mod offsets;
mod search_laws;
mod standing;

pub use certificate_laws::{certificates_of_a_sweep_are_valid, certificates_of_a_sweep_decide_it};
pub use examples::{
    certificates_owed_of_a_sweep, costs_of_a_sweep, files_of_a_sweep, offsets_that_are_swept,
    refused_words_of_a_sweep, report_of_a_sweep, searches_that_are_put_together,
    what_is_asked_of_a_sweep,
};
pub use judge_examples::{
    certificates_that_are_written, first_file_without_a_byte, lines_of_judge,
    what_is_asked_of_the_certificates_of_a_sweep,
};
pub use judge_laws::{
    one_thing_is_told_of_the_certificates_of_a_sweep, valid_certificates_decide_a_sweep,
};
pub use laws::{
    no_failure_is_due_of_a_sweep, one_thing_is_due_of_a_sweep, one_thing_is_owed_of_a_sweep,
    reads_decide_a_sweep,
};
pub use offsets::{OFFSET_REACH, OFFSET_STEP, OFFSETS, PHASE_LIMIT, is_swept, phase_at};
pub use search_laws::{
    a_sweep_costs_the_least, another_is_among_the_first_two, searches_decide_a_sweep,
};
pub use standing::{Placed, Standing};

//! What a run of `judge` owes for its words and the contents of files: the judgement of a sweep's certificates, and a status. The
//! rules stand in `specs/`; here are laws and worked examples.
#![tactic(auto)]

mod examples;
mod laws;

pub use examples::{
    files_that_are_read, first_certificate_without_a_byte, refused_words_of_a_judgement,
    statuses_of_a_judgement, what_is_asked_of_a_judgement,
};
pub use laws::{
    certificates_are_read_in_their_order, certificates_of_a_sweep_are_certified,
    no_failure_is_due_of_a_judgement, one_thing_is_due_of_a_judgement, reads_decide_a_judgement,
    what_is_certified_is_the_swept_answer,
};

//! What a run of `check` owes for its words and the contents of files: the judgement of a certificate, and a status. The rules
//! stand in `specs/`; here are the plain type that they speak of, laws and worked examples.
#![tactic(auto)]

mod check_owed;
mod examples;
mod laws;

pub use check_owed::CheckOwed;
pub use examples::{
    certificate_without_a_byte, refused_words_of_a_check, statuses_of_a_check,
    what_is_asked_of_a_check,
};
pub use laws::{
    a_check_that_ends_with_0_prints_the_answer, no_failure_is_due_of_a_check,
    one_thing_is_due_of_a_check, reads_decide_a_check, the_certificate_is_read_last,
    what_a_check_certifies_is_the_answer, written_certificates_are_certified,
};

//! What a run of a program owes for its words and the contents of files: a text for standard output, and a status.
//! The rules stand in `specs/`; here are the plain types that they
//! speak of, laws and worked examples.
#![tactic(auto)]

mod bank_examples;
mod bank_laws;
mod certificate_examples;
mod certificate_laws;
mod check_due;
mod due;
mod duts;
mod examples;
mod frame_due;
mod frame_examples;
mod frame_laws;
mod heard_due;
mod heard_examples;
mod heard_laws;
mod laws;
mod status;

pub use bank_examples::{banks_of_configurations, costs_of_a_phase, duts_of_four_stations};
pub use bank_laws::{
    a_station_is_heard_where_a_receiver_listens, bank_has_one_answer,
    the_order_of_receivers_does_not_matter, window_is_in_range,
};
pub use certificate_examples::{
    bounds_that_are_not_cheaper, certificates_of_two_workers, certificates_that_are_refused,
    lines_of_checks, what_is_asked_of_certificates,
};
pub use certificate_laws::{
    certificates_that_are_due_are_certified, certificates_that_are_due_are_valid,
    no_block_is_opened_in_vain, one_certificate_is_due, one_thing_is_told_of_a_certificate,
    pruned_blocks_are_not_cheaper_than_the_answer,
};
pub use check_due::{CertificateFault, CheckDue};
pub use due::Due;
pub use duts::{Duts, MOST_STATIONS};
pub use examples::{
    bad_configurations, bad_logs, bank_of_a_trial, first_times_of_logs, listings_that_are_due,
    logs_of_two_receivers, numbers_of_statuses, stations_of_a_bank, statuses_of_what_is_due,
    trial_that_is_due, what_is_asked, what_is_reported, what_is_written, windows_of_a_bank,
    words_that_are_refused,
};
pub use frame_due::{FrameDue, FrameList};
pub use frame_examples::{
    numbers_of_frame_statuses, printed_answers, refused_frames, refused_words_of_frames,
    two_frames_that_are_read, what_is_asked_of_frames,
};
pub use frame_laws::{
    no_failure_is_due_of_frames, one_thing_is_due_of_frames, printed_frames_are_read_as_the_walk,
    reads_decide_frames,
};
pub use heard_due::HeardDue;
pub use heard_examples::{
    statuses_of_what_is_shown, what_is_shown, words_of_a_hearing, words_that_are_no_hearing,
};
pub use heard_laws::{one_hearing_is_due, reads_decide_what_is_shown, what_a_decode_would_tell};
pub use laws::{
    checks_are_refused, configuration_has_one_outcome, configuration_is_read_first, due_is_one,
    logs_have_one_outcome, no_failure_is_due, one_thing_is_owed, reads_decide, something_is_due,
    words_ask_one_thing,
};
pub use status::Status;

//! What a run of `follow` owes for its words and the contents of files: the reports of windows that follow one another over
//! a log, and a status. The rules stand in `specs/`; here are the plain types that they speak of, laws and worked examples.
#![tactic(auto)]

mod examples;
mod follow_due;
mod laws;
mod reports;
mod window_laws;
mod window_report;

pub use examples::{
    counts_that_are_refused, last_windows, refused_words_of_follow, reports_of_two_minutes,
    statuses_of_windows, what_is_asked_of_follow, what_is_due_of_a_bank, windows_of_a_log,
};
pub use follow_due::FollowDue;
pub use laws::{no_failure_is_due_of_follow, one_thing_is_due_of_follow, reads_decide_follow};
pub use reports::Reports;
pub use window_laws::{windows_are_in_range, windows_follow_one_another};
pub use window_report::WindowReport;

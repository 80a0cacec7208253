//! What a run of `board` owes for its words and the contents of files: answers to queries by the entries of the decided windows, and
//! a status. The rules stand in `specs/`; here are the plain types that they speak of, constants, laws and worked examples.
#![tactic(auto)]

mod board_due;
mod examples;
mod laws;
mod lists;
mod queries;

pub use board_due::BoardDue;
pub use examples::{
    entries_of_reports, limits_of_queries, lines_of_two_windows, numbers_of_entries,
    queries_in_a_text, queries_that_are_refused, refused_words_of_board, what_is_asked_of_a_board,
    what_is_due_of_queries, what_is_refused_behind_the_logs,
};
pub use laws::{
    no_failure_is_due_of_board, one_thing_is_due_of_board, queries_have_one_outcome,
    reads_decide_board, the_queries_are_read_last,
};
pub use lists::{Entries, Numbers};
pub use queries::{MOST_QUERIES, QUERIES_LIMIT, QUERY_LIMIT};

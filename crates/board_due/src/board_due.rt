//! What a run of `board` owes: the text that it tells, and the status with which it ends.

ghost use Rattle.std.specs.Prelude.{◌≡◌};
ghost use Rattle.board_due.specs.BoardDues.{board_status};

use crate::{Entries, Numbers};
use due::{Due, Status};

/// What a run of `board` owes for its words and for the contents of the files that it reads.
#[derive(Drop)]
pub enum BoardDue {
    /// What a run owes too: the line of a refusal.
    Told {
        /// What it owes.
        due: Due,
    },
    /// That the text of the queries is too large.
    TooLarge,
    /// The first bad line of the queries.
    BadLine {
        /// The line's number, from 1.
        line: u32,
    },
    /// The answers to the queries.
    Answers {
        /// The entries of the decided windows, in order.
        entries: Entries,
        /// The queries: milliseconds below 1,000,000,000,000.
        queries: Numbers,
        /// By how many of the entries each query was answered while they were published.
        counts: Numbers,
    },
}

impl BoardDue {
    /// The status with which a run ends that told this.
    pub fn status(&self) -> Status
        ensures { result ≡ board_status self.now }
    {
        match self {
            BoardDue::Told { due } => due.status(),
            BoardDue::TooLarge | BoardDue::BadLine { .. } => Status::BadQueries,
            BoardDue::Answers { .. } => Status::Done,
        }
    }
}

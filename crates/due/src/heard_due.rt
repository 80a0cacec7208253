//! What a run owes that shows what was heard.

ghost use Rattle.std.specs.Prelude.{◌≡◌};
ghost use Rattle.due.specs.HeardRuns.{heard_status};

use crate::{Due, Status};

/// What a run of `tsheard` owes for its words and for the contents of the files that it reads.
#[derive(Drop)]
pub enum HeardDue<H> {
    /// What a decode tells too: a refusal, or the report of an answer that isn't decided.
    Told {
        /// What is told.
        due: Due,
    },
    /// What was heard of the window that was decided.
    Heard {
        /// What is looked at.
        hearing: H,
    },
}

impl<H> HeardDue<H> {
    /// The status with which a run ends that showed this.
    pub fn status(&self) -> Status
        ensures { result ≡ heard_status self.now }
    {
        match self {
            HeardDue::Told { due } => due.status(),
            HeardDue::Heard { .. } => Status::Done,
        }
    }
}

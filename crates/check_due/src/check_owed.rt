//! What a run of `check` owes.

ghost use Rattle.std.specs.Prelude.{◌≡◌};
ghost use Rattle.check_due.specs.CheckTexts.{owed_status};

use due::{CheckDue, Due, Status};

/// What `check` owes for its words and for the contents of the files that it reads.
#[derive(Drop)]
pub enum CheckOwed {
    /// What a run owes too: the line of a refusal, of the words, the configuration or a log.
    Told {
        /// What it owes.
        due: Due,
    },
    /// What is told of the certificate.
    Judged {
        /// What is told.
        due: CheckDue,
    },
}

impl CheckOwed {
    /// The status with which a run ends that delivered this.
    pub fn status(&self) -> Status
        ensures { result ≡ owed_status self.now }
    {
        match self {
            CheckOwed::Told { due } => due.status(),
            CheckOwed::Judged { due } => due.status(),
        }
    }
}

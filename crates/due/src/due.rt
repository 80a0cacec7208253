//! What a run owes: the text that it tells, and the status with which it ends.

ghost use Rattle.std.specs.Prelude.{◌≡◌};
ghost use Rattle.due.specs.Dues.{answer_status, refusal_status, status_of};

use crate::{Duts, Status};
use definitions::{Answer, Sequence};
use formats::Refusal;
use signal_base::{Station, Window};

/// What a run owes for its words and for the contents of the files that it reads.
#[derive(Drop)]
pub enum Due {
    /// The line of a refusal.
    Refused {
        /// What is refused.
        refusal: Refusal,
    },
    /// The report of an answer.
    Report {
        /// What was decoded.
        window: Window,
        /// The answer.
        answer: Answer,
        /// What each station of the window tells of DUT1, where the answer is decided.
        duts: Duts,
    },
    /// The minutes of a decided answer as sentences.
    Feed {
        /// What was decoded.
        window: Window,
        /// The sequence that was decided on.
        sequence: Sequence,
    },
    /// The listing of a minute.
    Listing {
        /// The station.
        station: Station,
        /// The minute, counted from 2000-01-01T00:00Z.
        minute: u32,
        /// Whether a leap second is announced.
        announced: bool,
    },
    /// The summary of a trial.
    Trial {
        /// The trial's number.
        number: u32,
        /// The station that was heard.
        station: Station,
        /// How many receivers heard it.
        receivers: u8,
        /// What was sent.
        sent: Sequence,
        /// What was decoded.
        answer: Answer,
    },
}

impl Due {
    /// The status with which a run ends that told this.
    pub fn status(&self) -> Status
        ensures { result ≡ status_of self.now }
    {
        match self {
            Due::Refused { refusal } => refusal_status(refusal),
            Due::Report { answer, .. } => answer_status(answer),
            Due::Feed { .. } => Status::Done,
            Due::Listing { .. } => Status::Done,
            Due::Trial { answer, .. } => answer_status(answer),
        }
    }
}

fn refusal_status(refusal: &Refusal) -> Status
    ensures { result ≡ refusal_status refusal.now }
{
    match refusal {
        Refusal::WordsUsage | Refusal::WordsBad { .. } | Refusal::WordsEmptyRange => {
            Status::BadWords
        }
        Refusal::ConfigTooLarge
        | Refusal::ConfigNotToml
        | Refusal::ConfigMissing { .. }
        | Refusal::ConfigWrongKind { .. }
        | Refusal::ConfigOutOfRange { .. }
        | Refusal::ConfigUnknownKey => Status::BadConfiguration,
        Refusal::LogTooLarge { .. } | Refusal::LogLine { .. } => Status::BadLog,
    }
}

fn answer_status(answer: &Answer) -> Status
    ensures { result ≡ answer_status answer.now }
{
    match answer {
        Answer::Decided { .. } => Status::Done,
        Answer::Undecided { .. } => Status::Undecided,
        Answer::Nothing => Status::Nothing,
    }
}

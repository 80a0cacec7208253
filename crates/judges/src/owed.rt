//! What a run of `judge` owes.

ghost use Rattle.std.specs.Prelude.{◌≡◌};
ghost use Rattle.judge_due.specs.JudgeTexts.{owed_status};
ghost use Rattle.judges.specs.Seen.{owed_seen};

use due::{CertificateFault, Due, Duts, Status};
use sequence::Answer;
use signal_base::Window;

/// What `judge` owes for its words and for the contents of the files that it reads.
#[derive(Drop)]
pub enum JudgeOwed {
    /// What a run owes too: the line of a refusal, of the words, the configuration or a log.
    Told {
        /// What it owes.
        due: Due,
    },
    /// All certificates are valid, and this is the report of the swept answer.
    Certified {
        /// The window of a decode at the phase of the first sequence.
        window: Window,
        /// The answer.
        answer: Answer,
        /// What each station of the window tells of DUT1, where the answer is decided.
        duts: Duts,
    },
    /// A certificate isn't valid, and all before it are.
    NotCertified {
        /// Its offset, from 0 to 10.
        offset: u8,
        /// What is wrong with it.
        fault: CertificateFault,
    },
}

impl JudgeOwed {
    /// The status with which a run ends that delivered this.
    pub fn status(&self) -> Status
        ensures { result ≡ owed_status (owed_seen self.now) }
    {
        match self {
            JudgeOwed::Told { due } => due.status(),
            JudgeOwed::Certified { .. } => Status::Done,
            JudgeOwed::NotCertified { .. } => Status::BadCertificate,
        }
    }
}

//! What a check of a certificate owes: what it tells, and the status with which it ends.

ghost use Rattle.std.specs.Prelude.{◌≡◌};
ghost use Rattle.due.specs.CheckDues.{check_status};

use crate::{Duts, Status};
use definitions::Answer;
use signal_base::Window;

/// The first of all that is wrong with bytes that are to be a valid certificate.
#[derive(Clone, Copy, Debug)]
pub enum CertificateFault {
    /// There are more than 128,000,000 bytes.
    TooLarge,
    /// A line is none that may stand there, or it isn't there.
    BadLine {
        /// The line's number, from 1.
        line: u32,
    },
    /// A line is the 2,000,001st step.
    TooManySteps {
        /// The line's number, from 1.
        line: u32,
    },
    /// It is of another window, or under another ceiling.
    OtherWindow,
    /// A step's block isn't due, or the steps end before all is covered.
    Uncovered {
        /// The step's number, from 1.
        step: u32,
    },
    /// A step names another bound than its block has.
    WrongBound {
        /// The step's number, from 1.
        step: u32,
    },
    /// A step passes over a block whose key isn't above the named second key and the ceiling's.
    NotAbove {
        /// The step's number, from 1.
        step: u32,
    },
    /// The named keys aren't the least two of the leaves' keys.
    WrongEnds {
        /// The true one in place of the first that is wrong, or none.
        key: Option<u64>,
    },
}

/// What a check tells of a certificate.
#[derive(Drop)]
pub enum CheckDue {
    /// It is valid, and this is the report of the answer that it names.
    Certified {
        /// What was decoded.
        window: Window,
        /// The answer.
        answer: Answer,
        /// What each station of the window tells of DUT1, where the answer is decided.
        duts: Duts,
    },
    /// It isn't valid.
    NotCertified {
        /// What is wrong with it.
        fault: CertificateFault,
    },
}

impl CheckDue {
    /// The status with which a run ends that told this.
    pub fn status(&self) -> Status
        ensures { result ≡ check_status self.now }
    {
        match self {
            CheckDue::Certified { .. } => Status::Done,
            CheckDue::NotCertified { .. } => Status::BadCertificate,
        }
    }
}

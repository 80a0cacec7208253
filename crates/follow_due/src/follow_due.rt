//! What a run of `follow` owes: the text that it tells, and the status with which it ends.

ghost use Rattle.std.specs.Prelude.{◌≡◌};
ghost use Rattle.follow_due.specs.declared.follow_due.FollowDue.TheVariants.{Windows};
ghost use Rattle.follow_due.specs.FollowDues.{all_decided, follow_status, is_decided};

use crate::{Reports, WindowReport};
use definitions::Answer;
use due::{Due, Status};

/// What a run of `follow` owes for its words and for the contents of the files that it reads.
#[derive(Drop)]
pub enum FollowDue {
    /// What a run owes too: the line of a refusal.
    Told {
        /// What it owes.
        due: Due,
    },
    /// The reports of all windows.
    Windows {
        /// The reports.
        reports: Reports,
    },
}

impl FollowDue {
    /// The status with which a run ends that told this.
    pub fn status(&self) -> Status
        ensures { result ≡ follow_status self.now }
    {
        match self {
            FollowDue::Told { due } => due.status(),
            FollowDue::Windows { reports } => windows_status(reports.as_slice()),
        }
    }
}

fn windows_status(reports: &[WindowReport]) -> Status
    ensures { result ≡ follow_status (Windows reports.now) }
{
    if all_decided(reports) {
        Status::Done
    } else {
        Status::Undecided
    }
}

fn all_decided(reports: &[WindowReport]) -> bool
    ensures { result ≡ all_decided reports.now }
{
    for i in 0..reports.len() {
        if !is_decided(&reports[i].answer) {
            return false;
        }
    }
    true
}

fn is_decided(answer: &Answer) -> bool
    ensures { result ≡ is_decided answer.now }
{
    match answer {
        Answer::Decided { .. } => true,
        Answer::Undecided { .. } | Answer::Nothing => false,
    }
}

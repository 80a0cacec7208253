//! A run of `follow` for words that are in order.

ghost use Rattle.bank_words.specs.Seen.{texts_of};
ghost use Rattle.follow_due.specs.FollowPlans.{follow_plan};
ghost use Rattle.follow.specs.Finding.{CanBeWritten};

use crate::deliver::deliver;
use bank::Job;
use bank_files::{Failed, Files};
use civil::Civil;
use due::Status;
use follow_due::FollowDue;

/// A run for these words.
#[derive(Drop)]
pub struct FollowCommand<'a> {
    pub words: &'a [String],
    pub civil: &'a Civil,
}

impl Job for FollowCommand<'_> {
    type Due = FollowDue;

    ghost plan = { λ command. follow_plan (texts_of command.words.now) };

    ghost can_be_written = { CanBeWritten };

    fn deliver<F: Files>(&self, files: &mut F, due: &FollowDue) -> Result<(), Failed> {
        deliver(files, self.civil, due)
    }

    fn status(&self, due: &FollowDue) -> Status {
        due.status()
    }
}

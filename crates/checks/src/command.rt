//! A run of `check` for words that are in order.

ghost use Rattle.bank_words.specs.Seen.{texts_of};
ghost use Rattle.check_due.specs.CheckPlans.{check_plan};
ghost use Rattle.checks.specs.Writable.{CanBeWritten};

use crate::deliver::deliver;
use bank::Job;
use bank_files::{Failed, Files};
use check_due::CheckOwed;
use civil::Civil;
use due::Status;

/// A run for these words.
#[derive(Drop)]
pub struct CheckCommand<'a> {
    pub words: &'a [String],
    pub civil: &'a Civil,
}

impl Job for CheckCommand<'_> {
    type Due = CheckOwed;

    ghost plan = { λ command. check_plan (texts_of command.words.now) };

    ghost can_be_written = { CanBeWritten };

    fn deliver<F: Files>(&self, files: &mut F, owed: &CheckOwed) -> Result<(), Failed> {
        deliver(files, self.civil, owed)
    }

    fn status(&self, owed: &CheckOwed) -> Status {
        owed.status()
    }
}

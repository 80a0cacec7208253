//! A run of the program for words that are in order.

ghost use Rattle.bank_words.specs.Seen.{texts_of};
ghost use Rattle.due.specs.Owed.{told_alone};
ghost use Rattle.due.specs.Plans.{run_plan};
ghost use Rattle.bank.specs.Ending.{over};
ghost use Rattle.bank.specs.Finding.{CanBeWritten};

use crate::deliver::deliver_due;
use crate::job::Job;
use bank_files::{Failed, Files};
use civil::Civil;
use due::{Due, Status};

/// A run for these words.
#[derive(Drop)]
pub struct Command<'a> {
    pub words: &'a [String],
    pub civil: &'a Civil,
}

impl Job for Command<'_> {
    type Due = Due;

    ghost plan = { λ command. over told_alone (run_plan (texts_of command.words.now)) };

    ghost can_be_written = { CanBeWritten };

    fn deliver<F: Files>(&self, files: &mut F, due: &Due) -> Result<(), Failed> {
        deliver_due(files, self.civil, due)
    }

    fn status(&self, due: &Due) -> Status {
        due.status()
    }
}

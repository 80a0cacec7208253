//! A run of `sweep` for words that are in order, where no certificate is written.

ghost use Rattle.bank_words.specs.Seen.{texts_of};
ghost use Rattle.sweep_due.specs.SweepOwed.{told_alone};
ghost use Rattle.sweep_due.specs.SweepPlans.{sweep_plan};
ghost use Rattle.bank.specs.Ending.{over};
ghost use Rattle.bank.specs.Finding.{CanBeWritten};

use bank::{Job, deliver_due};
use bank_files::{Failed, Files};
use civil::Civil;
use due::{Due, Status};

/// A run for these words.
#[derive(Drop)]
pub struct SweepCommand<'a> {
    pub words: &'a [String],
    pub civil: &'a Civil,
}

impl Job for SweepCommand<'_> {
    type Due = Due;

    ghost plan = { λ command. over told_alone (sweep_plan (texts_of command.words.now)) };

    ghost can_be_written = { CanBeWritten };

    fn deliver<F: Files>(&self, files: &mut F, due: &Due) -> Result<(), Failed> {
        deliver_due(files, self.civil, due)
    }

    fn status(&self, due: &Due) -> Status {
        due.status()
    }
}

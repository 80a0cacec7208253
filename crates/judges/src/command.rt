//! A run of `judge` for words that are in order.

ghost use Rattle.bank_words.specs.Seen.{texts_of};
ghost use Rattle.judges.specs.Seen.{CanBeWritten, kept_plan};

use crate::deliver::deliver;
use crate::owed::JudgeOwed;
use bank::Job;
use bank_files::{Failed, Files};
use civil::Civil;
use due::Status;

/// A run for these words.
#[derive(Drop)]
pub struct JudgeCommand<'a> {
    pub words: &'a [String],
    pub civil: &'a Civil,
}

impl Job for JudgeCommand<'_> {
    type Due = JudgeOwed;

    ghost plan = { λ command. kept_plan (texts_of command.words.now) };

    ghost can_be_written = { CanBeWritten };

    fn deliver<F: Files>(&self, files: &mut F, owed: &JudgeOwed) -> Result<(), Failed> {
        deliver(files, self.civil, owed)
    }

    fn status(&self, owed: &JudgeOwed) -> Status {
        owed.status()
    }
}

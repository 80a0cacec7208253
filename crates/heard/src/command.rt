//! A run for words that are in order.

ghost use Rattle.bank_words.specs.Seen.{texts_of};
ghost use Rattle.heard.specs.Seen.{CanBeShown, kept_plan};

use crate::deliver::deliver;
use crate::hearing::Hearing;
use bank::Job;
use bank_files::{Failed, Files};
use civil::Civil;
use due::{HeardDue, Status};

/// A run for these words.
#[derive(Drop)]
pub struct Command<'a> {
    pub words: &'a [String],
    pub civil: &'a Civil,
}

impl Job for Command<'_> {
    type Due = HeardDue<Hearing>;

    ghost plan = { λ command. kept_plan (texts_of command.words.now) };

    ghost can_be_written = { CanBeShown };

    fn deliver<F: Files>(&self, files: &mut F, due: &HeardDue<Hearing>) -> Result<(), Failed> {
        deliver(files, self.civil, due)
    }

    fn status(&self, due: &HeardDue<Hearing>) -> Status {
        due.status()
    }
}

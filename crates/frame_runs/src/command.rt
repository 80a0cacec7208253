//! A run of a command of frames for words that are in order.

ghost use Rattle.bank_words.specs.Seen.{texts_of};
ghost use Rattle.due.specs.Plans.{frame_plan};
ghost use Rattle.frame_runs.specs.Finding.{CanBeWritten};

use crate::deliver::deliver;
use bank::Job;
use bank_files::{Failed, Files};
use civil::Civil;
use due::{FrameDue, Status};

/// A run for these words.
#[derive(Drop)]
pub struct FrameCommand<'a> {
    pub words: &'a [String],
    pub civil: &'a Civil,
}

impl Job for FrameCommand<'_> {
    type Due = FrameDue;

    ghost plan = { λ command. frame_plan (texts_of command.words.now) };

    ghost can_be_written = { CanBeWritten };

    fn deliver<F: Files>(&self, files: &mut F, due: &FrameDue) -> Result<(), Failed> {
        deliver(files, self.civil, due)
    }

    fn status(&self, due: &FrameDue) -> Status {
        due.status()
    }
}

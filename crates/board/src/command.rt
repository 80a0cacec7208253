//! A run of `board` for words that are in order.

ghost use Rattle.bank_words.specs.Seen.{texts_of};
ghost use Rattle.board_due.specs.BoardPlans.{board_plan};
ghost use Rattle.board.specs.Finding.{CanBeWritten};

use crate::deliver::deliver;
use bank::Job;
use bank_files::{Failed, Files};
use board_due::BoardDue;
use civil::Civil;
use due::Status;

/// A run for these words.
#[derive(Drop)]
pub struct BoardCommand<'a> {
    pub words: &'a [String],
    pub civil: &'a Civil,
}

impl Job for BoardCommand<'_> {
    type Due = BoardDue;

    ghost plan = { λ command. board_plan (texts_of command.words.now) };

    ghost can_be_written = { CanBeWritten };

    fn deliver<F: Files>(&self, files: &mut F, due: &BoardDue) -> Result<(), Failed> {
        deliver(files, self.civil, due)
    }

    fn status(&self, due: &BoardDue) -> Status {
        due.status()
    }
}

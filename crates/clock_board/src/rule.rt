//! The rule that the board is under, and what each step of the tracker and of an asker tells.

ghost use Rattle.clock_board.specs.Rule.{Keeps, Sees};
ghost use Rattle.clock_board.specs.Views.{informed, newcomer};

use crate::{Shelf, View};
use atomic_table::{Join, Split};
use crossbeam_utils::rule::{Outcome, Protocol};

/// What readers see is the entries that were published, up to some one, and never less than before.
pub struct Published;

impl Protocol<Shelf, View> for Published {
    ghost holds = { Keeps };

    ghost first = { newcomer };
}

pub(crate) struct Look;

impl Outcome<Shelf, View> for Look {
    ghost then = { Sees };
}

pub(crate) struct Note;

impl Split<View> for Note {
    ghost left = { λ v. v };

    ghost right = { λ v. v };
}

impl Join<View> for Note {
    ghost both = { informed };

    ghost spent = { newcomer };
}

//! Writing what is due. Nothing here reads a file or takes memory.

ghost use Rattle.due.specs.HeardRuns.{heard_outputs};
ghost use Rattle.bank.specs.Ending.{WritesAll};
ghost use Rattle.heard.specs.Seen.{CanBeShown, due_seen};

use crate::hearing::Hearing;
use bank::deliver_due;
use bank_files::{Failed, Files};
use civil::Civil;
use due::HeardDue;

/// Writes all that a run writes where this is due: one text, to standard output.
pub fn deliver<F: Files>(
    files: &mut F,
    civil: &Civil,
    due: &HeardDue<Hearing>,
) -> Result<(), Failed>
    requires { CanBeShown due.now }
    ensures { WritesAll (heard_outputs (due_seen due.now)) (F.view files.old) (F.view files.new) result }
{
    match due {
        HeardDue::Told { due } => deliver_due(files, civil, due),
        HeardDue::Heard { hearing } => hearing.write(files, civil),
    }
}

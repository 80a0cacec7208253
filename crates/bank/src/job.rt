//! How a command ends that has found what is due: by delivering it.

ghost use Rattle.std.specs.Prelude.{◌≡◌, IfOk};
ghost use Rattle.bank_files.specs.Seen.{OnlyReads, Seen};
ghost use Rattle.due.specs.Plans.{Plan};
ghost use Rattle.bank.specs.Ending.{Ends, FindsDue, OnlyWritesAmong, WritesAll, status_after};

use crate::stop::Stop;
use bank_files::{Failed, Files};
use due::Status;

/// A command whose words are in order, as its end sees it: what is due is delivered. All files are read and all memory is
/// taken while that is found, before; here no file is read, and no memory is taken.
pub trait Job {
    /// What can be due, as a plain value.
    type Due: Drop;

    // what the command reads, owes and writes
    ghost plan: { Self → Plan Self.Due };

    // what is due can be written
    ghost can_be_written: { Self.Due → Type 0 };

    /// Writes what is due, one text after the other.
    fn deliver<F: Files>(&self, files: &mut F, due: &Self::Due) -> Result<(), Failed>
        requires { can_be_written due.now }
        ensures { WritesAll ((plan self.now).outputs due.now) (F.view files.old) (F.view files.new) result };

    /// The status with which a run ends that delivered it.
    fn status(&self, due: &Self::Due) -> Status
        ensures { result ≡ (plan self.now).status due.now };
}

/// Delivers what was found due, and answers how the run ends, from the files as it found them.
pub fn perform<J: Job, F: Files>(
    job: &J,
    files: &mut F,
    found: Result<J::Due, Stop>,
) -> Result<Status, Stop>
    requires { IfOk found J.can_be_written }
    ensures ends { (old : Seen) → FindsDue (J.plan job.now) old (F.view files.old) found → Ends (J.plan job.now) old (F.view files.new) result }
    ensures only { (old : Seen) → OnlyReads old (F.view files.old) → OnlyWritesAmong (J.plan job.now).files old (F.view files.new) }
{
    let due = found?;
    job.deliver(files, &due)?;
    Ok(job.status(&due))
}

/// The status of a run that ended so.
pub fn status_after(end: Result<Status, Stop>) -> Status
    ensures { result ≡ status_after end }
{
    match end {
        Ok(status) => status,
        Err(Stop::Failed) => Status::Failed,
        Err(Stop::NoMemory) => Status::NoMemory,
    }
}

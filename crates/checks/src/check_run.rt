//! One run of `check`.

ghost use Rattle.std.specs.Prelude.{◌≡◌, Err};
ghost use Rattle.bank_words.specs.Seen.{texts_of};
ghost use Rattle.check_due.specs.CheckOrders.{check_order_in};
ghost use Rattle.check_due.specs.CheckPlans.{check_plan};
ghost use Rattle.bank.specs.Ending.{Ends, HasRun, OnlyWritesAmong};
ghost use Rattle.checks.specs.Tasks.{Asks, IsInRange};

use crate::command::CheckCommand;
use crate::find::find_due;
use crate::words::{CheckTask, task_of};
use bank::{Stop, perform, status_after, word_refusal};
use bank_files::Files;
use civil::Civil;
use due::{Status, one_thing_is_told_of_a_certificate};
use formats::WordFault;
use std::alloc::Global;
use texts::write_refusal;

/// Runs the words of `check` over the files, and answers the status. The words don't include the program's name. No search is made:
/// the certificate shows the answer, or it is refused.
///
/// | Status | Comes | Standard output got |
/// |---|---|---|
/// | 0 | where the certificate is valid | `certified`, and the report of the answer, whatever that is |
/// | 3 | where the words aren't of the grammar, or of another command | the refusal |
/// | 4 | where the configuration is refused | the refusal |
/// | 5 | where a log is refused | the refusal of the first |
/// | 6 | only where reading a file or writing standard output has failed | nothing, or a front of the text due |
/// | 7 | where memory wasn't found | nothing |
/// | 8 | where the certificate isn't valid | the first of all that is wrong with it |
pub fn check<F: Files>(alloc: Global, words: &[String], files: &mut F) -> u8
    // Seven promises: `due`, `exactly`, `failed`, `no_fault`, `front`, `memory` and `only`.
    ensures { HasRun (check_plan (texts_of words.now)) (F.view files.old) (F.view files.new) result }
{
    one_thing_is_told_of_a_certificate();
    status_after(carry_out(alloc, words, files)).code()
}

// Judges the words, and does what they ask for.
fn carry_out<F: Files>(alloc: Global, words: &[String], files: &mut F) -> Result<Status, Stop>
    ensures ends { Ends (check_plan (texts_of words.now)) (F.view files.old) (F.view files.new) result }
    ensures only { OnlyWritesAmong (check_plan (texts_of words.now)).files (F.view files.old) (F.view files.new) }
{
    match task_of(words) {
        Err(fault) => refuse(words, fault, files),
        Ok(task) => carry_out_task(alloc, words, &task, files),
    }
}

// Writes the line that refused words get.
fn refuse<F: Files>(words: &[String], fault: WordFault, files: &mut F) -> Result<Status, Stop>
    requires { check_order_in (texts_of words.now) ≡ Err fault }
    ensures ends { Ends (check_plan (texts_of words.now)) (F.view files.old) (F.view files.new) result }
    ensures only { OnlyWritesAmong (check_plan (texts_of words.now)).files (F.view files.old) (F.view files.new) }
{
    write_refusal(files, &word_refusal(fault))?;
    Ok(Status::BadWords)
}

// Finds what is due for what the words ask, and delivers it.
fn carry_out_task<F: Files>(
    alloc: Global,
    words: &[String],
    task: &CheckTask,
    files: &mut F,
) -> Result<Status, Stop>
    requires asks { Asks (texts_of words.now) task.now }
    requires in_range { IsInRange task.now }
    ensures ends { Ends (check_plan (texts_of words.now)) (F.view files.old) (F.view files.new) result }
    ensures only { OnlyWritesAmong (check_plan (texts_of words.now)).files (F.view files.old) (F.view files.new) }
{
    let civil = Civil::make(alloc)?;
    let found = find_due(alloc, &civil, task, files);
    let command = CheckCommand {
        words,
        civil: &civil,
    };
    perform(&command, files, found)
}

//! One run of `judge`.

ghost use Rattle.std.specs.Prelude.{◌≡◌, Err};
ghost use Rattle.bank_words.specs.Seen.{texts_of};
ghost use Rattle.judge_due.specs.JudgeOrders.{judge_order_in};
ghost use Rattle.judge_due.specs.JudgePlans.{judge_plan};
ghost use Rattle.bank.specs.Ending.{Ends, HasRun, OnlyWritesAmong};
ghost use Rattle.judges.specs.Tasks.{Asks, IsInRange};

use crate::command::JudgeCommand;
use crate::find::find_due;
use crate::words::{JudgeTask, task_of};
use bank::{Stop, perform, status_after, word_refusal};
use bank_files::Files;
use civil::Civil;
use due::Status;
use formats::WordFault;
use std::alloc::Global;
use sweep_due::one_thing_is_told_of_the_certificates_of_a_sweep;
use texts::write_refusal;

/// Runs the words of `judge` over the files, and answers the status. The words don't include the program's name. No search is made:
/// the certificates show the swept answer, or the first bad one is told.
///
/// | Status | Comes | Standard output got |
/// |---|---|---|
/// | 0 | where the certificates of all swept offsets are valid | `certified`, and the report of the swept answer, whatever that is |
/// | 3 | where the words aren't of the grammar, or of another command | the refusal |
/// | 4 | where the configuration is refused | the refusal |
/// | 5 | where a log is refused | the refusal of the first |
/// | 6 | only where reading a file or writing standard output has failed | nothing, or a front of the text due |
/// | 7 | where memory wasn't found | nothing |
/// | 8 | where a certificate isn't valid | the offset of the first such, and the first of all that is wrong with it |
pub fn judge<F: Files>(alloc: Global, words: &[String], files: &mut F) -> u8
    // Seven promises: `due`, `exactly`, `failed`, `no_fault`, `front`, `memory` and `only`.
    ensures { HasRun (judge_plan (texts_of words.now)) (F.view files.old) (F.view files.new) result }
{
    one_thing_is_told_of_the_certificates_of_a_sweep();
    status_after(carry_out(alloc, words, files)).code()
}

// Judges the words, and does what they ask for.
fn carry_out<F: Files>(alloc: Global, words: &[String], files: &mut F) -> Result<Status, Stop>
    ensures ends { Ends (judge_plan (texts_of words.now)) (F.view files.old) (F.view files.new) result }
    ensures only { OnlyWritesAmong (judge_plan (texts_of words.now)).files (F.view files.old) (F.view files.new) }
{
    match task_of(words) {
        Err(fault) => refuse(words, fault, files),
        Ok(task) => carry_out_task(alloc, words, &task, files),
    }
}

// Writes the line that refused words get.
fn refuse<F: Files>(words: &[String], fault: WordFault, files: &mut F) -> Result<Status, Stop>
    requires { judge_order_in (texts_of words.now) ≡ Err fault }
    ensures ends { Ends (judge_plan (texts_of words.now)) (F.view files.old) (F.view files.new) result }
    ensures only { OnlyWritesAmong (judge_plan (texts_of words.now)).files (F.view files.old) (F.view files.new) }
{
    write_refusal(files, &word_refusal(fault))?;
    Ok(Status::BadWords)
}

// Finds what is due for what the words ask, and delivers it.
fn carry_out_task<F: Files>(
    alloc: Global,
    words: &[String],
    task: &JudgeTask,
    files: &mut F,
) -> Result<Status, Stop>
    requires asks { Asks (texts_of words.now) task.now }
    requires in_range { IsInRange task.now }
    ensures ends { Ends (judge_plan (texts_of words.now)) (F.view files.old) (F.view files.new) result }
    ensures only { OnlyWritesAmong (judge_plan (texts_of words.now)).files (F.view files.old) (F.view files.new) }
{
    let civil = Civil::make(alloc)?;
    let found = find_due(alloc, &civil, task, files);
    let command = JudgeCommand {
        words,
        civil: &civil,
    };
    perform(&command, files, found)
}

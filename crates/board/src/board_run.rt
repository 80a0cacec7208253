//! One run of `board`.

ghost use Rattle.std.specs.Prelude.{◌≡◌, ℕ, Err, List};
ghost use Rattle.bank_words.specs.Seen.{texts_of};
ghost use Rattle.board_due.specs.BoardOrders.{board_order_in};
ghost use Rattle.board_due.specs.BoardPlans.{board_plan, board_plan_by};
ghost use Rattle.bank.specs.Ending.{Ends, HasRun, OnlyWritesAmong};
ghost use Rattle.board.specs.Tasks.{Asks, IsInRange};

use crate::command::BoardCommand;
use crate::find::find_due;
use crate::words::{BoardTask, task_of};
use bank::{Stop, perform, status_after, word_refusal};
use bank_files::Files;
use civil::Civil;
use due::Status;
use follow::WindowGate;
use formats::WordFault;
use std::alloc::Global;
use std::sync::Wait;
use std::thread::Threads;
use texts::write_refusal;
use workers::Gate;

/// Runs the words of `board` over the files, and answers the status. The words don't include the program's name. The workers
/// that search pass the gate, and it is passed at each window. What is printed last, each query's answer by all decided windows,
/// doesn't depend on who comes to what when. Before it stand answers that askers gave while windows were decided, each with the number
/// of windows by which it was given.
///
/// | Status | Comes | Standard output got |
/// |---|---|---|
/// | 0 | where the queries are answered | the answers |
/// | 3 | where the words aren't of the grammar, or of another command, or where the last window starts too late, which is judged behind the logs | the refusal |
/// | 4 | where the configuration is refused | the refusal |
/// | 5 | where a log is refused | the refusal of the first |
/// | 6 | only where reading a file or writing standard output has failed | nothing, or a front of the text due |
/// | 7 | where memory wasn't found | nothing |
/// | 9 | where the queries are refused, which are read behind the logs | the refusal |
pub fn board<R: Threads + Wait + Sync, F: Files, G: Gate + WindowGate + Sync>(
    rt: &R,
    alloc: Global,
    words: &[String],
    files: &mut F,
    gate: &G,
) -> u8
    // Of some numbers of entries, by which queries were answered while these were published, seven promises: `due`, `exactly`, `failed`,
    // `no_fault`, `front`, `memory` and `only`.
    ensures { (live : List ℕ) × HasRun (board_plan_by live (texts_of words.now)) (F.view files.old) (F.view files.new) result }
{
    status_after(carry_out(rt, alloc, words, files, gate)).code()
}

// Judges the words, and does what they ask for.
fn carry_out<R: Threads + Wait + Sync, F: Files, G: Gate + WindowGate + Sync>(
    rt: &R,
    alloc: Global,
    words: &[String],
    files: &mut F,
    gate: &G,
) -> Result<Status, Stop>
    ensures ends { Ends (board_plan (texts_of words.now)) (F.view files.old) (F.view files.new) result }
    ensures only { OnlyWritesAmong (board_plan (texts_of words.now)).files (F.view files.old) (F.view files.new) }
{
    match task_of(words) {
        Err(fault) => refuse(words, fault, files),
        Ok(task) => carry_out_task(rt, alloc, words, &task, files, gate),
    }
}

// Writes the line that refused words get.
fn refuse<F: Files>(words: &[String], fault: WordFault, files: &mut F) -> Result<Status, Stop>
    requires { board_order_in (texts_of words.now) ≡ Err fault }
    ensures ends { Ends (board_plan (texts_of words.now)) (F.view files.old) (F.view files.new) result }
    ensures only { OnlyWritesAmong (board_plan (texts_of words.now)).files (F.view files.old) (F.view files.new) }
{
    write_refusal(files, &word_refusal(fault))?;
    Ok(Status::BadWords)
}

// Finds what is due for what the words ask, and delivers it.
fn carry_out_task<R: Threads + Wait + Sync, F: Files, G: Gate + WindowGate + Sync>(
    rt: &R,
    alloc: Global,
    words: &[String],
    task: &BoardTask<'_>,
    files: &mut F,
    gate: &G,
) -> Result<Status, Stop>
    requires asks { Asks (texts_of words.now) task.now }
    requires in_range { IsInRange task.now }
    ensures ends { Ends (board_plan (texts_of words.now)) (F.view files.old) (F.view files.new) result }
    ensures only { OnlyWritesAmong (board_plan (texts_of words.now)).files (F.view files.old) (F.view files.new) }
{
    let civil = Civil::make(alloc)?;
    let found = find_due(rt, alloc, &civil, task, files, gate);
    let command = BoardCommand {
        words,
        civil: &civil,
    };
    perform(&command, files, found)
}

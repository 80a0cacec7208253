//! One run that shows what was heard.

ghost use Rattle.std.specs.Prelude.{◌≡◌, Err};
ghost use Rattle.formats.specs.OrderRanges.{IsAsked, IsFile};
ghost use Rattle.bank_words.specs.Seen.{texts_of};
ghost use Rattle.due.specs.HeardRuns.{AsksHeard, heard_order, heard_plan};
ghost use Rattle.bank.specs.Ending.{Ends, HasRun, OnlyWritesAmong};
ghost use Rattle.bank.specs.Tasks.{AreWorkers};
ghost use Rattle.heard.specs.Asking.{asked_seen};

use crate::ask::Ask;
use crate::command::Command;
use crate::find::find_due;
use crate::words::{asked_by, decode_words};
use bank::{Stop, perform, status_after, word_refusal};
use bank_files::Files;
use civil::Civil;
use due::Status;
use formats::WordFault;
use std::alloc::Global;
use std::thread::Threads;
use texts::write_refusal;
use workers::Gate;

/// Runs the words over the files, and answers the status. The words don't include the program's name. They are those of a
/// decode without its first, `--workers` and `--certificate`. Default workers search, and pass the gate. How they come to
/// what doesn't change what is printed or answered.
///
/// | Status | Comes | Standard output got |
/// |---|---|---|
/// | 0 | where one sequence costs less than every other | what was heard |
/// | 1 | where the two cheapest sequences cost the same | the report |
/// | 2 | where no sequence is admitted | the report |
/// | 3 | where the words aren't of the grammar | the refusal |
/// | 4 | where the configuration is refused | the refusal |
/// | 5 | where a log is refused | the refusal of the first |
/// | 6 | only where reading a file or writing standard output has failed | nothing, or a front of the text due |
/// | 7 | where memory wasn't found | nothing |
pub fn run<R: Threads + Sync, F: Files, G: Gate + Sync>(
    rt: &R,
    alloc: Global,
    words: &[String],
    files: &mut F,
    gate: &G,
) -> u8
    // Seven promises: `due`, `exactly`, `failed`, `no_fault`, `front`, `memory` and `only`.
    ensures { HasRun (heard_plan (texts_of words.now)) (F.view files.old) (F.view files.new) result }
{
    status_after(carry_out(rt, alloc, words, files, gate)).code()
}

// Judges the words, and does what they ask for.
fn carry_out<R: Threads + Sync, F: Files, G: Gate + Sync>(
    rt: &R,
    alloc: Global,
    words: &[String],
    files: &mut F,
    gate: &G,
) -> Result<Status, Stop>
    ensures ends { Ends (heard_plan (texts_of words.now)) (F.view files.old) (F.view files.new) result }
    ensures only { OnlyWritesAmong (heard_plan (texts_of words.now)).files (F.view files.old) (F.view files.new) }
{
    let all = decode_words(alloc, words)?;
    match asked_by(words, all.as_slice()) {
        Err(fault) => refuse(words, fault, files),
        Ok(ask) => carry_out_task(rt, alloc, words, &ask, files, gate),
    }
}

// Writes the line that refused words get.
fn refuse<F: Files>(words: &[String], fault: WordFault, files: &mut F) -> Result<Status, Stop>
    requires { heard_order (texts_of words.now) ≡ Err fault }
    ensures ends { Ends (heard_plan (texts_of words.now)) (F.view files.old) (F.view files.new) result }
    ensures only { OnlyWritesAmong (heard_plan (texts_of words.now)).files (F.view files.old) (F.view files.new) }
{
    write_refusal(files, &word_refusal(fault))?;
    Ok(Status::BadWords)
}

// Finds what is due for what the words ask, and delivers it.
fn carry_out_task<R: Threads + Sync, F: Files, G: Gate + Sync>(
    rt: &R,
    alloc: Global,
    words: &[String],
    ask: &Ask,
    files: &mut F,
    gate: &G,
) -> Result<Status, Stop>
    requires asks { AsksHeard (texts_of words.now) (asked_seen ask.now) }
    requires file { IsFile ask.now.config.now }
    requires asked { IsAsked ask.now.asked }
    requires workers { AreWorkers ask.now.workers }
    ensures ends { Ends (heard_plan (texts_of words.now)) (F.view files.old) (F.view files.new) result }
    ensures only { OnlyWritesAmong (heard_plan (texts_of words.now)).files (F.view files.old) (F.view files.new) }
{
    let civil = Civil::make(alloc)?;
    let found = find_due(rt, alloc, &civil, ask, files, gate);
    let command = Command {
        words,
        civil: &civil,
    };
    perform(&command, files, found)
}

//! One run of the program.

ghost use Rattle.std.specs.Prelude.{◌≡◌, Err, IfOk};
ghost use Rattle.bank_words.specs.Seen.{texts_of};
ghost use Rattle.due.specs.CertificateRules.{AsksCertificate};
ghost use Rattle.due.specs.Orders.{order_in};
ghost use Rattle.due.specs.Plans.{run_plan};
ghost use Rattle.bank.specs.Ending.{Ends, HasRun, OnlyWritesAmong};
ghost use Rattle.bank.specs.Finding.{CanBeWritten, IsToldUnloaded};
ghost use Rattle.bank.specs.Tasks.{Asks, IsCertifyInRange, IsInRange, certificate_order};

use crate::certificate_gate::CertificateGate;
use crate::certify::decode_certified;
use crate::command::Command;
use crate::find::find_due;
use crate::hearing::bank_of;
use crate::job::{perform, status_after};
use crate::loading::{Unloaded, load};
use crate::stop::Stop;
use crate::words::{Certify, Task, Work, word_refusal, work_of};
use bank_files::Files;
use civil::Civil;
use due::{Due, Status, one_thing_is_owed};
use formats::WordFault;
use std::alloc::Global;
use std::thread::Threads;
use texts::write_refusal;
use workers::Gate;

/// Runs the words over the files, and answers the status. The words don't include the program's name. The workers that
/// search pass the gate. Neither their number nor how they come to what changes what is printed or answered.
///
/// | Status | Comes | Standard output got |
/// |---|---|---|
/// | 0 | where one sequence costs less than every other, or a minute is listed | the report, the sentences, the summary or the listing |
/// | 1 | where the two cheapest sequences cost the same | the report or the summary |
/// | 2 | where no sequence is admitted | the report or the summary |
/// | 3 | where the words aren't of the grammar, or of another command | the refusal |
/// | 4 | where the configuration is refused | the refusal |
/// | 5 | where a log is refused | the refusal of the first |
/// | 6 | only where reading a file, or writing a certificate or standard output has failed | nothing, or a front of the text due |
/// | 7 | where memory wasn't found | nothing |
///
/// A certificate that is asked for is written anew to its file, before standard output is, and the gate is told how many steps it has.
pub fn run<R: Threads + Sync, F: Files, G: Gate + CertificateGate + Sync>(
    rt: &R,
    alloc: Global,
    words: &[String],
    files: &mut F,
    gate: &G,
) -> u8
    // Seven promises: `due`, `exactly`, `failed`, `no_fault`, `front`, `memory` and `only`.
    ensures { HasRun (run_plan (texts_of words.now)) (F.view files.old) (F.view files.new) result }
{
    status_after(carry_out(rt, alloc, words, files, gate)).code()
}

// Judges the words, and does what they ask for.
fn carry_out<R: Threads + Sync, F: Files, G: Gate + CertificateGate + Sync>(
    rt: &R,
    alloc: Global,
    words: &[String],
    files: &mut F,
    gate: &G,
) -> Result<Status, Stop>
    ensures ends { Ends (run_plan (texts_of words.now)) (F.view files.old) (F.view files.new) result }
    ensures only { OnlyWritesAmong (run_plan (texts_of words.now)).files (F.view files.old) (F.view files.new) }
{
    match work_of(words) {
        Err(fault) => refuse(words, fault, files),
        Ok(work) => match work {
            Work::Tell { task } => carry_out_task(rt, alloc, words, &task, files, gate),
            Work::Certify { certify } => certify_bank(rt, alloc, words, &certify, files, gate),
        },
    }
}

// Writes the line that refused words get.
fn refuse<F: Files>(words: &[String], fault: WordFault, files: &mut F) -> Result<Status, Stop>
    requires { order_in (texts_of words.now) ≡ Err fault }
    ensures ends { Ends (run_plan (texts_of words.now)) (F.view files.old) (F.view files.new) result }
    ensures only { OnlyWritesAmong (run_plan (texts_of words.now)).files (F.view files.old) (F.view files.new) }
{
    write_refusal(files, &word_refusal(fault))?;
    Ok(Status::BadWords)
}

// Finds what is due for what the words ask, and delivers it.
fn carry_out_task<R: Threads + Sync, F: Files, G: Gate + Sync>(
    rt: &R,
    alloc: Global,
    words: &[String],
    task: &Task,
    files: &mut F,
    gate: &G,
) -> Result<Status, Stop>
    requires asks { Asks (texts_of words.now) task.now }
    requires in_range { IsInRange task.now }
    ensures ends { Ends (run_plan (texts_of words.now)) (F.view files.old) (F.view files.new) result }
    ensures only { OnlyWritesAmong (run_plan (texts_of words.now)).files (F.view files.old) (F.view files.new) }
{
    let civil = Civil::make(alloc)?;
    let found = find_due(rt, alloc, &civil, task, files, gate);
    let command = Command {
        words,
        civil: &civil,
    };
    perform(&command, files, found)
}

// Loads what is asked about, and decodes it with a certificate; or tells what is refused of it.
fn certify_bank<R: Threads + Sync, F: Files, G: Gate + CertificateGate + Sync>(
    rt: &R,
    alloc: Global,
    words: &[String],
    certify: &Certify,
    files: &mut F,
    gate: &G,
) -> Result<Status, Stop>
    requires asks { AsksCertificate (texts_of words.now) (certificate_order certify.now) }
    requires in_range { IsCertifyInRange certify.now }
    ensures ends { Ends (run_plan (texts_of words.now)) (F.view files.old) (F.view files.new) result }
    ensures only { OnlyWritesAmong (run_plan (texts_of words.now)).files (F.view files.old) (F.view files.new) }
{
    one_thing_is_owed();
    let civil = Civil::make(alloc)?;
    match load(alloc, files, certify.config) {
        Ok(loaded) => {
            let bank = bank_of(alloc, loaded)?;
            decode_certified(rt, alloc, &civil, &bank, certify, files, gate)
        }
        Err(unloaded) => {
            let command = Command {
                words,
                civil: &civil,
            };
            perform(&command, files, not_loaded(unloaded))
        }
    }
}

// What is due where nothing is loaded: the refusal.
fn not_loaded(unloaded: Unloaded) -> Result<Due, Stop>
    ensures told { IsToldUnloaded unloaded result }
    ensures can_be_written { IfOk result CanBeWritten }
{
    match unloaded {
        Unloaded::Refused { refusal } => Ok(Due::Refused { refusal }),
        Unloaded::Failed => Err(Stop::Failed),
        Unloaded::NoMemory => Err(Stop::NoMemory),
    }
}

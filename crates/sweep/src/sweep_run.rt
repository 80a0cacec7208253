//! One run of `sweep`.

ghost use Rattle.std.specs.Prelude.{◌≡◌, Err, IfOk};
ghost use Rattle.bank_words.specs.Seen.{texts_of};
ghost use Rattle.sweep_due.specs.SweepCertificates.{AsksCertificates};
ghost use Rattle.sweep_due.specs.SweepOrders.{sweep_order_in};
ghost use Rattle.sweep_due.specs.SweepPlans.{sweep_plan};
ghost use Rattle.bank.specs.Ending.{Ends, HasRun, OnlyWritesAmong};
ghost use Rattle.bank.specs.Finding.{CanBeWritten, IsToldUnloaded};
ghost use Rattle.sweep.specs.Tasks.{Asks, IsCertifyInRange, IsInRange, certificates_order};

use crate::certify::sweep_certified;
use crate::command::SweepCommand;
use crate::find::find_due;
use crate::phase_gate::PhaseGate;
use crate::words::{SweepCertify, SweepTask, SweepWork, work_of};
use bank::{CertificateGate, Stop, Unloaded, bank_of, load, perform, status_after, word_refusal};
use bank_files::Files;
use civil::Civil;
use due::{Due, Status};
use formats::WordFault;
use std::alloc::Global;
use std::thread::Threads;
use sweep_due::one_thing_is_owed_of_a_sweep;
use texts::write_refusal;
use workers::Gate;

/// Runs the words of `sweep` over the files, and answers the status. The words don't include the program's name. The workers
/// that search pass the gate, and it is passed at each phase. Neither their number nor how they come to what changes what is printed or answered.
///
/// | Status | Comes | Standard output got |
/// |---|---|---|
/// | 0 | where one sequence costs less, at its best phase, than every other at any | the report, as of that phase |
/// | 1 | where the two cheapest sequences cost the same, each at its best phase | the report, as of the phase of the first |
/// | 2 | where no sequence is admitted at any phase | the report, as of the phase of a decode |
/// | 3 | where the words aren't of the grammar, or of another command | the refusal |
/// | 4 | where the configuration is refused | the refusal |
/// | 5 | where a log is refused | the refusal of the first |
/// | 6 | only where reading a file, or writing a certificate or standard output has failed | nothing, or a front of the text due |
/// | 7 | where memory wasn't found | nothing |
///
/// Certificates that are asked for are written anew to their files, in the order of the phases and before standard output is, and the
/// gate is told how many steps each has.
pub fn sweep<R: Threads + Sync, F: Files, G: Gate + PhaseGate + CertificateGate + Sync>(
    rt: &R,
    alloc: Global,
    words: &[String],
    files: &mut F,
    gate: &G,
) -> u8
    // Seven promises: `due`, `exactly`, `failed`, `no_fault`, `front`, `memory` and `only`.
    ensures { HasRun (sweep_plan (texts_of words.now)) (F.view files.old) (F.view files.new) result }
{
    status_after(carry_out(rt, alloc, words, files, gate)).code()
}

// Judges the words, and does what they ask for.
fn carry_out<R: Threads + Sync, F: Files, G: Gate + PhaseGate + CertificateGate + Sync>(
    rt: &R,
    alloc: Global,
    words: &[String],
    files: &mut F,
    gate: &G,
) -> Result<Status, Stop>
    ensures ends { Ends (sweep_plan (texts_of words.now)) (F.view files.old) (F.view files.new) result }
    ensures only { OnlyWritesAmong (sweep_plan (texts_of words.now)).files (F.view files.old) (F.view files.new) }
{
    match work_of(words) {
        Err(fault) => refuse(words, fault, files),
        Ok(work) => match work {
            SweepWork::Tell { task } => carry_out_task(rt, alloc, words, &task, files, gate),
            SweepWork::Certify { certify } => certify_bank(rt, alloc, words, &certify, files, gate),
        },
    }
}

// Writes the line that refused words get.
fn refuse<F: Files>(words: &[String], fault: WordFault, files: &mut F) -> Result<Status, Stop>
    requires { sweep_order_in (texts_of words.now) ≡ Err fault }
    ensures ends { Ends (sweep_plan (texts_of words.now)) (F.view files.old) (F.view files.new) result }
    ensures only { OnlyWritesAmong (sweep_plan (texts_of words.now)).files (F.view files.old) (F.view files.new) }
{
    write_refusal(files, &word_refusal(fault))?;
    Ok(Status::BadWords)
}

// Finds what is due for what the words ask, and delivers it.
fn carry_out_task<R: Threads + Sync, F: Files, G: Gate + PhaseGate + CertificateGate + Sync>(
    rt: &R,
    alloc: Global,
    words: &[String],
    task: &SweepTask,
    files: &mut F,
    gate: &G,
) -> Result<Status, Stop>
    requires asks { Asks (texts_of words.now) task.now }
    requires in_range { IsInRange task.now }
    ensures ends { Ends (sweep_plan (texts_of words.now)) (F.view files.old) (F.view files.new) result }
    ensures only { OnlyWritesAmong (sweep_plan (texts_of words.now)).files (F.view files.old) (F.view files.new) }
{
    let civil = Civil::make(alloc)?;
    let found = find_due(rt, alloc, &civil, task, files, gate);
    let command = SweepCommand {
        words,
        civil: &civil,
    };
    perform(&command, files, found)
}

// Loads what is asked about, and sweeps it with certificates; or tells what is refused of it.
fn certify_bank<R: Threads + Sync, F: Files, G: Gate + PhaseGate + CertificateGate + Sync>(
    rt: &R,
    alloc: Global,
    words: &[String],
    certify: &SweepCertify,
    files: &mut F,
    gate: &G,
) -> Result<Status, Stop>
    requires asks { AsksCertificates (texts_of words.now) (certificates_order certify.now) }
    requires in_range { IsCertifyInRange certify.now }
    ensures ends { Ends (sweep_plan (texts_of words.now)) (F.view files.old) (F.view files.new) result }
    ensures only { OnlyWritesAmong (sweep_plan (texts_of words.now)).files (F.view files.old) (F.view files.new) }
{
    one_thing_is_owed_of_a_sweep();
    let civil = Civil::make(alloc)?;
    match load(alloc, files, certify.task.config) {
        Ok(loaded) => {
            let bank = bank_of(alloc, loaded)?;
            sweep_certified(rt, alloc, &civil, &bank, certify, files, gate)
        }
        Err(unloaded) => {
            let command = SweepCommand {
                words,
                civil: &civil,
            };
            perform(&command, files, not_loaded(unloaded))
        }
    }
}

// What is due where nothing is loaded: the refusal.
fn not_loaded(unloaded: Unloaded) -> Result<Due, Stop>
    ensures told { IsToldUnloaded unloaded result }
    ensures can_be_written { IfOk result CanBeWritten }
{
    match unloaded {
        Unloaded::Refused { refusal } => Ok(Due::Refused { refusal }),
        Unloaded::Failed => Err(Stop::Failed),
        Unloaded::NoMemory => Err(Stop::NoMemory),
    }
}

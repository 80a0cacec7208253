//! A run over a machine, for the words of a command line.

ghost use Rattle.std.specs.Prelude.{◌≡◌, ℕ, List};
ghost use Rattle.bank_files.specs.Seen.{Seen};
ghost use Rattle.bank_words.specs.Seen.{texts_of};
ghost use Rattle.bank.specs.Ending.{HasRun};
ghost use Rattle.board_due.specs.BoardPlans.{board_plan_by};
ghost use Rattle.machine_files.specs.Seeing.{IsSeenThrough};
ghost use Rattle.program.specs.Families.{plan_for, returning_plan};
ghost use Rattle.program.specs.Runs.{HasRunOn};

use crate::commands::family_of;
use crate::family::{Family, Returning};
use crate::messages::{Speaker, explain, explain_steps};
use crate::progress::Progress;
use bank::CertificateGate;
use bank_files::Files;
use follow::WindowGate;
use machine_files::{Machine, RealFiles};
use std::alloc::Global;
use std::rt::Clock;
use std::sync::Wait;
use std::thread::Threads;
use sweep::PhaseGate;
use workers::Gate;

/// How a run ended.
#[derive(Drop)]
pub struct Ended<M> {
    /// The status.
    pub status: u8,
    /// The machine as the run left it.
    pub machine: M,
}

/// Runs the words over the files of a machine, and says on standard error why it ended, where that is to be said. Only a board's
/// words are run by a call that may wait.
pub fn run<R: Threads + Wait + Sync, M: Machine, E: Eprint, S: Clock + Eprint + Sync>(
    rt: &R,
    alloc: Global,
    words: &[String],
    machine: M,
    error: &E,
    progress: &Progress<'_, S>,
) -> Ended<M>
    ensures { (live : List ℕ) × HasRunOn (plan_for live (texts_of words.now)) (M.disk machine) (M.disk result.machine) (M.failures result.machine) result.status }
{
    match family_of(words) {
        Family::Returns(commands) => {
            run_returning(rt, alloc, commands, words, machine, error, progress)
        }
        Family::OfBoard => run_board(rt, alloc, words, machine, error, progress),
    }
}

/// Runs words of such commands. It has no leave to wait, so that it returns.
pub fn run_returning<R: Threads + Sync, M: Machine, E: Eprint, S: Clock + Eprint + Sync>(
    rt: &R,
    alloc: Global,
    commands: Returning,
    words: &[String],
    machine: M,
    error: &E,
    progress: &Progress<'_, S>,
) -> Ended<M>
    ensures { HasRunOn (returning_plan commands (texts_of words.now)) (M.disk machine) (M.disk result.machine) (M.failures result.machine) result.status }
{
    let mut files = RealFiles::new(alloc, machine);
    let status = answer(rt, alloc, commands, words, &mut files, progress);
    end_run(Speaker::Tsbank, status, files, error, progress)
}

/// Runs the words of a board, which waits for its askers.
pub fn run_board<R: Threads + Wait + Sync, M: Machine, E: Eprint, S: Clock + Eprint + Sync>(
    rt: &R,
    alloc: Global,
    words: &[String],
    machine: M,
    error: &E,
    progress: &Progress<'_, S>,
) -> Ended<M>
    ensures { (live : List ℕ) × HasRunOn (board_plan_by live (texts_of words.now)) (M.disk machine) (M.disk result.machine) (M.failures result.machine) result.status }
{
    let mut files = RealFiles::new(alloc, machine);
    let status = board::board(rt, alloc, words, &mut files, progress);
    end_run(Speaker::Tsbank, status, files, error, progress)
}

/// The one call that runs words of such commands. All that the call promises holds of it. It has no leave to wait, so that it
/// returns.
pub fn answer<
    R: Threads + Sync,
    F: Files,
    G: Gate + CertificateGate + PhaseGate + WindowGate + Sync,
>(rt: &R, alloc: Global, commands: Returning, words: &[String], files: &mut F, gate: &G) -> u8
    ensures { HasRun (returning_plan commands (texts_of words.now)) (F.view files.old) (F.view files.new) result }
{
    match commands {
        Returning::OfRun => bank::run(rt, alloc, words, files, gate),
        Returning::OfFrames => frame_runs::irig(rt, alloc, words, files, gate),
        Returning::OfFollow => follow::follow(rt, alloc, words, files, gate),
        Returning::OfSweep => sweep::sweep(rt, alloc, words, files, gate),
        Returning::OfCheck => checks::check(alloc, words, files),
        Returning::OfJudge => judges::judge(alloc, words, files),
    }
}

/// Ends a run with this status over these files: standard error says why, where that is to be said, and the machine is given back.
pub fn end_run<M: Machine, E: Eprint, S: Clock + Eprint + Sync>(
    speaker: Speaker,
    status: u8,
    files: RealFiles<M>,
    error: &E,
    progress: &Progress<'_, S>,
) -> Ended<M>
    ensures status { result.status ≡ status }
    ensures seen { IsSeenThrough (M.disk result.machine) (M.failures result.machine) (⟦<RealFiles<M> as Files>⟧.view files) }
{
    progress.end();
    explain_steps(error, progress.steps());
    explain(error, speaker, status, files.failure());
    Ended {
        status,
        machine: files.into_machine(),
    }
}

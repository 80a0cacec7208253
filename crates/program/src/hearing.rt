//! The program `tsheard`, which shows what was heard: all as in `tsbank`, but for the one call in its middle.

ghost use Rattle.std.specs.Process.{exit_status};
ghost use Rattle.bank_words.specs.Seen.{texts_of};
ghost use Rattle.due.specs.HeardRuns.{heard_plan};
ghost use Rattle.bank.specs.Ending.{HasRun};
ghost use Rattle.program.specs.HeardRuns.{EndsHeard};
ghost use Rattle.program.specs.Runs.{HasRunOn};

use crate::command_line::{CommandLine, HostLine, words};
use crate::ending::{Exited, exit_code};
use crate::host::hold;
use crate::machine::HostMachine;
use crate::messages::{Speaker, explain_no_words};
use crate::progress::Progress;
use crate::running::{Ended, end_run};
use bank_files::Files;
use machine_files::{Machine, RealFiles};
use std::alloc::Global;
use std::process::ExitCode;
use std::rt;
use std::rt::Clock;
use std::thread::Threads;
use workers::Gate;

/// The exit code of the program for the host's command line, over the host's files.
pub fn run_on<R: Threads + Clock + rt::Files + rt::Env + Print + Eprint + AllocGlobal + Sync>(
    rt: &R,
    error_is_terminal: bool,
) -> ExitCode {
    let _held = (hold(rt), hold(rt), hold(rt));
    let progress = Progress::of(Speaker::Tsheard, rt, error_is_terminal);
    end(
        rt,
        rt.alloc(),
        &HostLine(rt),
        HostMachine::new(rt, &progress),
        rt,
        &progress,
    )
    .code
}

/// Ends the program for this command line, over this machine.
pub fn end<R: Threads + Sync, C: CommandLine, M: Machine, E: Eprint, S: Clock + Eprint + Sync>(
    rt: &R,
    alloc: Global,
    line: &C,
    machine: M,
    error: &E,
    progress: &Progress<'_, S>,
) -> Exited<M>
    ensures { EndsHeard (C.given line.now) (M.disk machine) (M.disk result.machine) (M.failures result.machine) (exit_status result.code) }
{
    let ended = status(rt, alloc, line, machine, error, progress);
    Exited {
        code: exit_code(ended.status),
        machine: ended.machine,
    }
}

/// Runs the words of the command line over the machine. Where these can't be had, nothing is run, and standard error says why.
pub fn status<R: Threads + Sync, C: CommandLine, M: Machine, E: Eprint, S: Clock + Eprint + Sync>(
    rt: &R,
    alloc: Global,
    line: &C,
    machine: M,
    error: &E,
    progress: &Progress<'_, S>,
) -> Ended<M>
    ensures { EndsHeard (C.given line.now) (M.disk machine) (M.disk result.machine) (M.failures result.machine) result.status }
{
    match words(alloc, line) {
        Ok(words) => run(rt, alloc, &words, machine, error, progress),
        Err(why) => {
            explain_no_words(error, Speaker::Tsheard, why);
            Ended {
                status: why.status().code(),
                machine,
            }
        }
    }
}

/// Runs the words over the files of a machine, and says on standard error why it ended, where that is to be said.
pub fn run<R: Threads + Sync, M: Machine, E: Eprint, S: Clock + Eprint + Sync>(
    rt: &R,
    alloc: Global,
    words: &[String],
    machine: M,
    error: &E,
    progress: &Progress<'_, S>,
) -> Ended<M>
    ensures { HasRunOn (heard_plan (texts_of words.now)) (M.disk machine) (M.disk result.machine) (M.failures result.machine) result.status }
{
    let mut files = RealFiles::new(alloc, machine);
    let status = answer(rt, alloc, words, &mut files, progress);
    end_run(Speaker::Tsheard, status, files, error, progress)
}

/// The program's one call of `heard`. All that `heard::run` promises holds of it.
pub fn answer<R: Threads + Sync, F: Files, G: Gate + Sync>(
    rt: &R,
    alloc: Global,
    words: &[String],
    files: &mut F,
    gate: &G,
) -> u8
    ensures { HasRun (heard_plan (texts_of words.now)) (F.view files.old) (F.view files.new) result }
{
    heard::run(rt, alloc, words, files, gate)
}

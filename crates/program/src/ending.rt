//! How the program ends: the status for its command line, and the process's exit code.
ghost use Rattle.std.specs.Prelude.{◌≡◌};
ghost use Rattle.std.specs.Process.{exit_status};
ghost use Rattle.program.specs.Endings.{Ends};

use crate::command_line::{CommandLine, words};
use crate::messages::{Speaker, explain_no_words};
use crate::progress::Progress;
use crate::running::{Ended, run};
use machine_files::Machine;
use std::alloc::Global;
use std::process::ExitCode;
use std::rt::Clock;
use std::sync::Wait;
use std::thread::Threads;

/// How the program ended.
#[derive(Drop)]
pub struct Exited<M> {
    /// The exit code of its process.
    pub code: ExitCode,
    /// The machine as the program left it.
    pub machine: M,
}

/// Ends the program for this command line, over this machine.
pub fn end<
    R: Threads + Wait + Sync,
    C: CommandLine,
    M: Machine,
    E: Eprint,
    S: Clock + Eprint + Sync,
>(rt: &R, alloc: Global, line: &C, machine: M, error: &E, progress: &Progress<'_, S>) -> Exited<M>
    ensures { Ends (C.given line.now) (M.disk machine) (M.disk result.machine) (M.failures result.machine) (exit_status result.code) }
{
    let ended = status(rt, alloc, line, machine, error, progress);
    Exited {
        code: exit_code(ended.status),
        machine: ended.machine,
    }
}

/// Runs the words of the command line over the machine. Where these can't be had, nothing is run, and standard error says why.
pub fn status<
    R: Threads + Wait + Sync,
    C: CommandLine,
    M: Machine,
    E: Eprint,
    S: Clock + Eprint + Sync,
>(rt: &R, alloc: Global, line: &C, machine: M, error: &E, progress: &Progress<'_, S>) -> Ended<M>
    ensures { Ends (C.given line.now) (M.disk machine) (M.disk result.machine) (M.failures result.machine) result.status }
{
    match words(alloc, line) {
        Ok(words) => run(rt, alloc, &words, machine, error, progress),
        Err(why) => {
            explain_no_words(error, Speaker::Tsbank, why);
            Ended {
                status: why.status().code(),
                machine,
            }
        }
    }
}

/// The exit code of a process that ends with this status.
pub fn exit_code(status: u8) -> ExitCode
    ensures { exit_status result ≡ status }
{
    ExitCode::from(status)
}

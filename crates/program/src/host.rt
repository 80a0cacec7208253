//! The program on this host.

use crate::command_line::HostLine;
use crate::ending::end;
use crate::machine::HostMachine;
use crate::progress::Progress;
use std::process::ExitCode;
use std::rt::Clock;
use std::sync::Wait;
use std::thread::Threads;
use std::{fs, rt};

/// The exit code of the program for the host's command line, over the host's files. How far a search has come is shown where
/// standard error is a terminal.
pub fn run_on<
    R: Threads + Wait + Clock + rt::Files + rt::Env + Print + Eprint + AllocGlobal + Sync,
>(rt: &R, error_is_terminal: bool) -> ExitCode {
    let _held = (hold(rt), hold(rt), hold(rt));
    let progress = Progress::new(rt, error_is_terminal);
    end(
        rt,
        rt.alloc(),
        &HostLine(rt),
        HostMachine::new(rt, &progress),
        rt,
        &progress,
    )
    .code
}

/// Opens /dev/null to occupy a standard stream's descriptor. Where the stream was closed, a file that is opened later would else
/// get its number, and what is printed.
pub fn hold<R: rt::Files>(rt: &R) -> Option<R::File> {
    fs::open(rt, "/dev/null").ok()
}

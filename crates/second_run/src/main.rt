//! The program `tsbank` once more, so that a second run of it is stored, which ends with another status.
#![tactic(auto)]

use program::run_on;
use std::io::IsTerminal;
use std::process::ExitCode;

fn main(rt: HostRuntime) -> ExitCode {
    run_on(&rt, rt.stderr().is_terminal())
}

//! The program `tsheard`.
#![tactic(auto)]

use program::hearing::run_on;
use std::io::IsTerminal;
use std::process::ExitCode;

fn main(rt: HostRuntime) -> ExitCode {
    run_on(&rt, rt.stderr().is_terminal())
}

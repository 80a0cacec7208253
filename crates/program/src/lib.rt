//! The program but for its `main`: it hands its words and the machine's files to `bank`, `frame_runs`, `follow`, `sweep`, `checks`,
//! `judges` or `board`, and ends with the status that is answered. Where that is neither an answer nor a refused log, standard error
//! says why.
#![tactic(auto)]

mod command_line;
mod commands;
mod ending;
mod ending_examples;
#[cfg(test)]
mod fake;
mod family;
#[cfg(test)]
mod file_tests;
pub mod hearing;
mod host;
mod machine;
mod messages;
mod progress;
mod running;
#[cfg(test)]
mod tests;

pub use command_line::{CommandLine, HostLine, NoWords};
pub use commands::{families_of_words, family_of};
pub use ending::{Exited, end, exit_code, status};
pub use ending_examples::{
    no_run_empties_its_configuration, no_run_fails_without_a_failure, runs_leave_other_files,
    what_a_run_without_words_does,
};
pub use family::{Family, Returning};
pub use host::run_on;
pub use machine::HostMachine;
pub use progress::Progress;
pub use running::{Ended, answer, run, run_board, run_returning};

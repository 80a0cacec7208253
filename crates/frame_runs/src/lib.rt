//! The commands of frames as one call over files: `irig`, which prints the decided seconds as frames of IRIG-B, and
//! `irig-read`, which prints the seconds that such frames tell.
#![tactic(auto)]

mod command;
mod deliver;
mod find;
mod frame_run;
mod text;
mod words;

pub use frame_run::irig;

//! The program as one call over files: what is printed is what is due.
#![tactic(auto)]

mod certificate_gate;
mod certify;
mod command;
mod decoding;
mod deliver;
mod ending_examples;
mod find;
mod first_two;
mod grids;
mod hearing;
mod job;
mod loading;
mod order;
mod program;
mod stop;
mod trial;
mod words;

pub use certificate_gate::CertificateGate;
pub use decoding::{Decoded, decode, decode_window, decode_window_by, duts_of};
pub use deliver::{deliver_due, print};
pub use ending_examples::{
    fronts_of_a_certificate, how_no_run_ends, other_files_stay, texts_in_their_order, whole_texts,
};
pub use first_two::{DecideFault, decide, decide_by, decide_tables};
pub use grids::{advance_grids, grids_of, places_of};
pub use hearing::{Bank, bank_of, window_of};
pub use job::{Job, perform, status_after};
pub use loading::{Loaded, Unloaded, load, load_as_configured};
pub use order::in_station_order;
pub use program::run;
pub use stop::Stop;
pub use words::word_refusal;

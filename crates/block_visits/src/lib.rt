//! Visits of blocks as plain data: what they offer by what they read, and which sequences that covers. A search takes them step
//! by step, and a certificate tells them line by line. The definitions stand in `specs/`; here are their laws.
#![tactic(auto)]

mod laws;

pub use laws::{blocks_share_the_sequences, visit_is_one, visits_cover_their_blocks};

//! Certificates written: the walks of all items under the limit of the keys that were found, line by line, while a file takes
//! them. The blocks that are due are one type, over which a writer and a checker are loops.
#![tactic(auto)]

mod pending;
mod walk;
mod write;

pub use pending::Pending;
pub use write::write_certificate;

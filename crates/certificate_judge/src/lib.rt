//! Certificates judged: a checker takes the bytes of a text in pieces, keeps no more of it than the line at hand, and tells what
//! comes of all of them: that there are too many, the first bad line, or the verdict on the certificate.
#![tactic(auto)]

mod begun;
mod checker;
mod checking;
mod due_blocks;
mod heading;
mod judge;
mod judging;
mod kept;
mod laws;
mod outcome;
mod text;
mod text_fault;
mod whole;

pub use begun::{Begun, MOST_ITEMS};
pub use checker::Checker;
pub use due_blocks::DueBlocks;
pub use heading::Heading;
pub use judge::Judge;
pub use kept::Kept;
pub use laws::bytes_have_one_outcome;
pub use outcome::Outcome;
pub use text::{CertificateText, read_text};
pub use text_fault::TextFault;
pub use whole::{check, check_text};

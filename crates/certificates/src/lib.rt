//! Certificates: what each line of one says, when it is valid, and its text. The definitions stand in `specs/`; here are the
//! plain types that they speak of, laws of them, and worked examples.
#![tactic(auto)]

mod certificate;
pub mod examples;
mod fault;
mod laws;
mod limits;
mod text_law;
mod verdict;

pub use certificate::{Head, Kind, Line};
pub use fault::CertificateLineFault;
pub use laws::{
    bytes_have_one_judgement, certificate_has_one_verdict,
    each_sequence_is_in_a_leaf_or_a_pruned_block, good_lines_are_walks,
    pruned_blocks_are_not_cheaper, tight_walks_are_one, tight_walks_keep_to_their_leaves,
    valid_certificates_name_the_first_two, walks_under_the_second_are_valid,
};
pub use limits::{CERTIFICATE_LIMIT, MOST_PARTS, MOST_STEPS, ONE_STATION, SEVERAL_STATIONS};
pub use text_law::certificate_has_one_outcome;
pub use verdict::Verdict;

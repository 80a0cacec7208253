//! What comes of a text.

use certificates::{CertificateLineFault, Verdict};

/// What comes of bytes that are to be a certificate: the first of these that is so.
#[derive(Clone, Copy)]
pub enum Outcome {
    /// There are more than 128,000,000.
    TooLarge,
    /// They are no text of a certificate.
    Refused {
        /// The number of the first bad line, from 1.
        line: u32,
        /// What is wrong with it.
        fault: CertificateLineFault,
    },
    /// They are the text of a certificate.
    Judged {
        /// What is found of it.
        verdict: Verdict,
        /// The first key that it names, if any.
        first: Option<u64>,
        /// The second.
        second: Option<u64>,
    },
}

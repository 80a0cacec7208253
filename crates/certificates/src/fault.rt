//! Why the text of a certificate is refused.

/// Why a line of a certificate is refused.
#[derive(Clone, Copy, Debug, PartialEq, Eq)]
pub enum CertificateLineFault {
    /// It is no line that may stand there, or it isn't there.
    Shape,
    /// It is the 2,000,001st step.
    TooManySteps,
}

//! What is told of the certificates that are written.

use workers::NoGate;

/// Is passed each time that a certificate has been written whole.
pub trait CertificateGate {
    /// How many steps the certificate has.
    fn wrote(&self, steps: u64);
}

impl CertificateGate for NoGate {
    fn wrote(&self, _steps: u64) {}
}

//! Why the text of a certificate isn't read.

ghost use Rattle.std.specs.Prelude.{◌≡◌};
ghost use Rattle.certificate_judge.specs.declared.text_fault.TextFault.TheVariants.{NoMemory};

use certificates::CertificateLineFault;
use std::alloc::AllocFailed;

/// Why a text isn't read.
#[derive(Clone, Copy, Debug)]
pub enum TextFault {
    /// It is no text of a certificate.
    Refused {
        /// The number of the first bad line, from 1.
        line: u32,
        /// What is wrong with it.
        fault: CertificateLineFault,
    },
    /// Memory wasn't found.
    NoMemory,
}

impl<T: Drop> From<AllocFailed<T>> for TextFault {
    ghost from_gives = { λ _ fault. fault ≡ NoMemory };

    fn from(_failed: AllocFailed<T>) -> TextFault {
        TextFault::NoMemory
    }
}

//! The names of the certificates' files.

ghost use Rattle.std.specs.Prelude.{◌≡◌, IfOk, string_bytes};
ghost use Rattle.sweep_due.specs.CertificateNames.{file_at};

use std::alloc::{AllocError, Global};

/// That of an offset, where all of them begin with this name.
pub fn file_at(alloc: Global, name: &str, offset: u8) -> Result<String, AllocError>
    ensures { IfOk result (λ file. string_bytes file ≡ file_at name.now offset) }
{
    format!(in alloc; "{name}.{offset}")
}

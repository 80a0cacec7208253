//! What is kept of a text that is checked.

ghost use Rattle.std.specs.Prelude.{◌≤◌};
ghost use Rattle.certificates.specs.declared.limits.TheConstants.{CERTIFICATE_LIMIT};

use crate::{Heading, Judge};
use certificate_texts::Reader;

/// A checker of a text that comes in pieces. It takes no memory.
#[derive(Drop)]
pub struct Checker<'a> {
    /// What was read.
    pub reader: Reader,
    /// What the head told.
    pub heading: Heading,
    /// What was judged of the steps.
    pub judge: Judge<'a>,
    /// How many bytes came, up to 128,000,000.
    pub bytes: u64,
    /// Whether more came.
    pub large: bool,
    pub ghost few_bytes: { bytes ≤ CERTIFICATE_LIMIT },
    pub ghost few_lines: { reader.lines ≤ bytes },
}

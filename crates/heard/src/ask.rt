//! What is asked for.

use formats::Asked;

/// What the words of the command line ask for. The name is borrowed from the words.
#[derive(Clone, Copy)]
pub struct Ask<'a> {
    /// The name of the configuration's file.
    pub config: &'a str,
    /// Which window is asked about.
    pub asked: Asked,
    /// How many workers search, 1 to 8.
    pub workers: u8,
}

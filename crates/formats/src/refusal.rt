//! What is refused of what was handed in.

use crate::{KeyName, LineFault, Name, OptionName};

/// Why the program doesn't answer.
#[derive(Drop)]
pub enum Refusal {
    /// The words aren't of the grammar.
    WordsUsage,
    /// The words are of the grammar, and a value that they give is bad.
    WordsBad {
        /// The first bad value, in the order of `OptionName`.
        option: OptionName,
    },
    /// All values are good, and `--to` is before `--from`.
    WordsEmptyRange,
    /// The configuration has more than 1,000,000 bytes.
    ConfigTooLarge,
    /// The configuration isn't UTF-8, or no TOML.
    ConfigNotToml,
    /// A key of the configuration that must stand isn't there.
    ConfigMissing {
        /// The key.
        key: KeyName,
        /// The number of the receiver that it is of, from 1, or none.
        receiver: Option<u8>,
    },
    /// What stands at a key isn't of the kind that it wants: a text, a whole number, a list or a table.
    ConfigWrongKind {
        /// The key.
        key: KeyName,
        /// The number of the receiver that it is of, from 1, or none.
        receiver: Option<u8>,
    },
    /// What stands at a key is of the right kind, and not one of the values that it may have.
    ConfigOutOfRange {
        /// The key.
        key: KeyName,
        /// The number of the receiver that it is of, from 1, or none.
        receiver: Option<u8>,
    },
    /// All known keys of the configuration are good, and another stands beside them.
    ConfigUnknownKey,
    /// A log has more than 8,000,000 bytes.
    LogTooLarge {
        /// The receiver's number, from 1.
        receiver: u8,
        /// The receiver's name.
        name: Name,
    },
    /// A line of a log is bad, and none before it.
    LogLine {
        /// The receiver's number, from 1.
        receiver: u8,
        /// The receiver's name.
        name: Name,
        /// The line's number, from 1.
        line: u32,
        /// In what way the line is bad.
        fault: LineFault,
    },
}

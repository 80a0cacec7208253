//! Why a configuration isn't read.

ghost use Rattle.std.specs.Prelude.{◌≡◌};
ghost use Rattle.bank_config.specs.declared.fault.ConfigFault.TheVariants.{NoMemory};

use std::alloc::{AllocError, AllocFailed};

/// A key of a configuration. Receivers are numbered from 1.
#[derive(Clone, Copy, Debug, PartialEq, Eq)]
pub enum Key {
    /// `station`, at the top.
    Station,
    /// `ceiling`.
    Ceiling,
    /// `receiver`, the list of the receivers.
    Receiver,
    /// `name` of a receiver.
    Name {
        /// The receiver.
        receiver: u8,
    },
    /// `log` of a receiver, the name of its file.
    File {
        /// The receiver.
        receiver: u8,
    },
    /// `delay_ms` of a receiver.
    Delay {
        /// The receiver.
        receiver: u8,
    },
    /// `weight` of a receiver.
    Weight {
        /// The receiver.
        receiver: u8,
    },
    /// `station` of a receiver.
    ReceiverStation {
        /// The receiver.
        receiver: u8,
    },
    /// `table`, a cost table.
    CostTable {
        /// The receiver whose own it is; none for the bank's.
        receiver: Option<u8>,
    },
    /// `low` of a cost table.
    Low {
        /// The receiver whose own it is; none for the bank's.
        receiver: Option<u8>,
    },
    /// `high` of a cost table.
    High {
        /// The receiver whose own it is; none for the bank's.
        receiver: Option<u8>,
    },
    /// `second` of a cost table.
    Second {
        /// The receiver whose own it is; none for the bank's.
        receiver: Option<u8>,
    },
}

/// Why a configuration isn't read.
#[derive(Clone, Copy, Debug, PartialEq, Eq)]
pub enum ConfigFault {
    /// The bytes aren't UTF-8, or not TOML.
    NotToml,
    /// A key that must stand isn't there.
    Missing {
        /// The key.
        key: Key,
    },
    /// What stands at a key is no text, no whole number, no list or no table, where it must be one.
    WrongKind {
        /// The key.
        key: Key,
    },
    /// What stands at a key is of the right kind, but not one of the values that it may have.
    OutOfRange {
        /// The key.
        key: Key,
    },
    /// All known keys are fine, and another stands at the top, in a receiver or in a cost table.
    UnknownKey,
    /// Memory wasn't found.
    NoMemory,
}

impl From<AllocError> for ConfigFault {
    ghost from_gives = { λ _ fault. fault ≡ NoMemory };

    fn from(_error: AllocError) -> ConfigFault {
        ConfigFault::NoMemory
    }
}

impl<T: Drop> From<AllocFailed<T>> for ConfigFault {
    ghost from_gives = { λ _ fault. fault ≡ NoMemory };

    fn from(_failed: AllocFailed<T>) -> ConfigFault {
        ConfigFault::NoMemory
    }
}

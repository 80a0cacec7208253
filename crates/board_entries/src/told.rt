//! What a board tells of a millisecond.

/// So many entries, the last ones, are asked.
pub const LAST_ENTRIES: usize = 64;

/// The time at a millisecond of the receivers' clock, as far as it is known.
#[derive(Clone, Copy, PartialEq, Eq)]
pub enum Told {
    /// No window that is asked has this millisecond.
    Unknown,
    /// The second that this millisecond lies in.
    At {
        /// Its minute, counted from 2000-01-01T00:00Z.
        minute: u32,
        /// The second, 0 to 60.
        second: u8,
    },
}

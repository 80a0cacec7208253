//! The two least keys of a race.

/// The least and the second-least of the offered keys, where a key that was offered twice counts twice.
/// The greatest `u64` stands where there is none.
#[derive(Clone, Copy)]
pub struct Ends {
    pub least: u64,
    pub second: u64,
}

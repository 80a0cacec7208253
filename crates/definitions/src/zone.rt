//! Civil time zones.

/// A zone in whose time a telegram is written.
#[derive(Clone, Copy)]
pub enum Zone {
    /// UTC.
    Utc,
    /// Central European Time, an hour ahead of UTC, in summer two.
    CentralEurope,
    /// The United Kingdom's time: UTC, in summer an hour ahead.
    Uk,
    /// Japan Standard Time, nine hours ahead of UTC.
    Japan,
}

//! What a configuration says.

use signal_base::{CostTable, Station, Tuning};

/// A receiver of a bank.
#[derive(Drop)]
pub struct Receiver {
    /// Its name, 1 to 32 of the characters `a` to `z`, `0` to `9`, `_` and `-`.
    pub name: String,
    /// The name of the file with its log, 1 to 200 bytes, the first not `-`.
    pub file: String,
    /// How it lags, how much it counts, and its own cost table, if it has one.
    pub tuning: Tuning,
    /// The station that it listens to.
    pub station: Station,
}

/// A bank of receivers.
#[derive(Drop)]
pub struct Config {
    /// The station of each receiver that names none.
    pub station: Station,
    /// Sequences that cost more aren't admitted; at most 1,920,000,000.
    pub ceiling: u32,
    /// The receivers in the order of the text, 1 to 8.
    pub receivers: Vec<Receiver>,
    /// What a tenth of a second costs each receiver without a table of its own.
    pub table: CostTable,
}

//! What is kept of a decided window.

ghost use Rattle.std.specs.Prelude.{◌<◌, ◌≤◌};
ghost use Rattle.signal_base.specs.declared.limits.TheConstants.{LEAST_SECONDS, MOST_SECONDS, START_LIMIT};
ghost use Rattle.definitions.specs.sequences.Walks.{IsSequence};
ghost use Rattle.board_entries.specs.Stays.{StaysInCentury};

use definitions::Sequence;

/// A window and the sequence that was decided of it.
#[derive(Clone, Copy)]
pub struct Entry {
    /// Milliseconds of the receivers' clock, below 10^12.
    pub start: u64,
    /// Milliseconds from `start` to the first second, below 1,000.
    pub phase: u16,
    /// How many seconds, 60 to 1,200.
    pub seconds: u16,
    /// What was decided. Its walk through the seconds stays in the century.
    pub sequence: Sequence,
    pub ghost ranges: { (start < START_LIMIT) × (phase < 1000) × (LEAST_SECONDS ≤ seconds) × (seconds ≤ MOST_SECONDS) },
    pub ghost begins: { IsSequence sequence },
    pub ghost stays: { StaysInCentury sequence seconds },
}

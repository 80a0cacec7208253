//! Walks of a station that begin in one second of some minutes.

ghost use Rattle.std.specs.Prelude.{◌+◌, ◌<◌, length};
ghost use Rattle.minute_parts.specs.Unions.{AreRegular};
ghost use Rattle.minute_parts.specs.Walks.{later_minutes};
ghost use Rattle.slot_columns.specs.declared.limits.TheConstants.{SECONDS_PER_MINUTE};

use walk_costs::StationWalks;

/// The walks of a station from one second of the minutes from `lo` up to, and without, `hi`. Each minute of theirs has 60
/// seconds, and can be encoded.
#[derive(Clone, Copy)]
pub struct Walks<'a> {
    /// What the station's walks cost.
    pub station: &'a StationWalks<'a>,
    /// Whether a leap second is announced.
    pub announced: bool,
    /// The second in which they begin.
    pub second: u8,
    /// The first minute in which one begins.
    pub lo: u32,
    /// The minute after the last.
    pub hi: u32,
    pub ghost in_a_minute: { second < SECONDS_PER_MINUTE },
    pub ghost some: { lo < hi },
    pub ghost regular: { AreRegular announced lo (hi + later_minutes (length station.now.grid.rows) second) station.now.parts.end },
}

//! What walks cost so far.

use crate::limits::{DAY_MINUTES, HOUR_MINUTES, REACHED_HOURS};

/// What those cost that begin in each minute of an hour.
pub type HourRow = [u32; HOUR_MINUTES];

/// What a minute of a walk costs in each hour.
pub type ByHour = [u32; REACHED_HOURS];

/// What walks cost so far: in seconds of any kind, in those that carry the same in each hour, and in those of one walk minute that
/// carry the same throughout an hour.
#[derive(Clone, Copy)]
pub struct Sums {
    /// For each minute of the day in which a walk may begin.
    pub costs: [u32; DAY_MINUTES],
    /// For each minute of an hour.
    pub hourly: HourRow,
    /// For each hour in which the walk minute may lie.
    pub by_hour: ByHour,
    /// The walk minute.
    pub minute: usize,
}

//! The look-ups, over the records as a slice.

ghost use Rattle.std.specs.Prelude.{◌≡◌, ◌+◌, ◌-◌, ◌<◌, ◌≤◌, length};
ghost use Rattle.std.specs.Option.{ForSome};
ghost use Rattle.definitions.specs.heard.Logs.{level_at, low_count};
ghost use Rattle.formats.specs.LogOrder.{IsRising};
ghost use Rattle.pulse_log.specs.Place.{StandsAfter, count_levels, level_after};

use definitions::Level;

/// The longest stretch that is counted at once, in milliseconds.
pub const SECOND: u64 = 1000;

/// How many of the records aren't after the millisecond.
pub fn count_until(records: &[(u64, Level)], ms: u64) -> usize
    requires { IsRising records.now }
    ensures { StandsAfter records.now ms result }
{
    records.partition_point(|record| record.0 <= ms)
}

// The level from the last of the first `count` records on.
fn level_after(records: &[(u64, Level)], count: usize) -> Level
    requires { count ≤ length records.now }
    ensures { result ≡ level_after records.now count }
{
    if count == 0 || count == records.len() {
        Level::Unknown
    } else {
        records[count - 1].1
    }
}

// The level at the millisecond.
pub fn level_in(records: &[(u64, Level)], ms: u64) -> Level
    requires { IsRising records.now }
    ensures { result ≡ level_at records.now ms }
{
    level_after(records, count_until(records, ms))
}

// How many milliseconds are low with a stretch of one level after those that were counted, or `None` where one of
// them is unknown.
fn with_stretch(low: Option<u32>, level: Level, length: u32) -> Option<u32>
    requires { ForSome low (λ low. low + length ≤ SECOND) }
    ensures { result ≡ count_levels level length low }
{
    if length == 0 {
        return low;
    }
    match level {
        Level::Low => Some(low? + length),
        Level::High => low,
        Level::Unknown => None,
    }
}

// How many milliseconds from `from` on and below `to` are low, or `None` where one of them is unknown; and how many
// records aren't after `to`, of which the first `count` aren't after `from`. It goes from record to record.
pub fn low_from(records: &[(u64, Level)], count: usize, from: u64, to: u64) -> (Option<u32>, usize)
    requires rising { IsRising records.now }
    requires order { from ≤ to }
    requires short { to ≤ from + SECOND }
    requires place { StandsAfter records.now from count }
    ensures low { result.0 ≡ low_count records.now from (to - from) }
    ensures place { StandsAfter records.now to result.1 }
{
    let mut count = count;
    let mut at = from;
    let mut low = Some(0);
    while count < records.len() && records[count].0 <= to {
        let next = records[count].0;
        low = with_stretch(low, level_after(records, count), (next - at) as u32);
        at = next;
        count += 1;
    }
    low = with_stretch(low, level_after(records, count), (to - at) as u32);
    (low, count)
}

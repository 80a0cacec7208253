//! Counting the edges that begin a second.

ghost use Rattle.std.specs.Prelude.{◌≡◌, ◌+◌, ◌*◌, ◌<◌, ◌≤◌, ℕ, length, slice_index, sum_by};
ghost use Rattle.std.specs.Option.{ForSome, option_map_or};
ghost use Rattle.definitions.specs.heard.Phase.{is_start_edge};
ghost use Rattle.align.specs.Counters.{AreAtMost, CountsMore};
ghost use Rattle.align.specs.Edges.{offsets_from, start_offset};

use pulse_log::{Level, Log};
use signal_base::Station;

/// A second in milliseconds.
pub const SECOND: u16 = 1000;

/// How many edges have each offset, in milliseconds from a whole second of the window.
pub type Counters = [u32; 1000];

// Whether a second begins as one level follows another: the carrier falls, and at JJY it rises.
fn is_start_edge(station: Station, before: Level, after: Level) -> bool
    ensures { result ≡ is_start_edge station before after }
{
    match station {
        Station::Jjy => before == Level::Low && after == Level::High,
        _ => before == Level::High && after == Level::Low,
    }
}

// The offset of a record, if it begins a second of those from millisecond `begin` on.
fn start_offset(
    station: Station,
    begin: u64,
    seconds: u16,
    before: Level,
    entry: (u64, Level),
) -> Option<u16>
    requires { begin < 2_000_000_000_000 }
    ensures offset { result ≡ start_offset station begin seconds before entry }
    ensures bound { ForSome result (λ offset. offset < 1000) }
{
    let (time, level) = entry;
    let end = begin + SECOND as u64 * seconds as u64;
    if is_start_edge(station, before, level) && begin <= time && time < end {
        Some(((time - begin) % SECOND as u64) as u16)
    } else {
        None
    }
}

// Counts an offset, if there is one.
fn count(counts: &mut Counters, offset: Option<u16>)
    requires within { ForSome offset (λ offset. offset < 1000) }
    requires room { AreAtMost 2_000_000 counts.old }
    ensures more { CountsMore counts.old counts.new (λ g. option_map_or g offset 0) }
    ensures bound { (o : ℕ) → slice_index counts.new o ≤ slice_index counts.old o + 1 }
{
    if let Some(offset) = offset {
        counts[offset as usize] += 1;
    }
}

/// Counts the edges of a log that begin a second of those from millisecond `begin` on.
pub fn count_log(counts: &mut Counters, station: Station, begin: u64, seconds: u16, log: &Log)
    requires begin { begin < 2_000_000_000_000 }
    requires room { AreAtMost 1_400_000 counts.old }
    ensures more { CountsMore counts.old counts.new (λ g. sum_by g (offsets_from station begin seconds log.now)) }
    ensures bound { (o : ℕ) → slice_index counts.new o ≤ slice_index counts.old o + 200_000 }
{
    let mut before = Level::Unknown;
    for i in 0..log.len() {
        let entry = log.entry(i);
        let offset = start_offset(station, begin, seconds, before, entry);
        count(counts, offset);
        before = entry.1;
    }
}

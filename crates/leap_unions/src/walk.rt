//! The walks that may meet a leap second, one by one.

ghost use Rattle.std.specs.Prelude.{ℕ, ◌≡◌, ◌≢◌, ◌+◌, ◌-◌, ◌*◌, ◌/◌, ◌<◌, ◌≤◌, IfSome, false, slice_index, true};
ghost use Rattle.std.specs.List.{All};
ghost use Rattle.signal_base.specs.declared.limits.TheConstants.{MOST_SECONDS};
ghost use Rattle.definitions.specs.sequences.Walks.{set_at};
ghost use Rattle.leap_unions.specs.Kept.{IsKeptTape};
ghost use Rattle.leap_unions.specs.Walks.{IsLeapWalk, unannounced_from};

use crate::leap_ends::LONGEST_YEAR;
use crate::rows::{Row, regular_row};
use crate::sets::{Sets, sets_from};
use crate::tapes::KeptTape;
use minute_parts::{SECONDS, Unions, later_minutes};
use signal_base::Station;

/// What an announced walk carries that begins shortly before a leap second may be inserted.
#[derive(Clone, Copy)]
pub struct LeapWalk {
    /// A set for each slot.
    pub sets: Sets,
    /// Whether it is known that the walk goes on to the next UTC day.
    pub next_day: bool,
    /// Whether it is known that it ends before the leap second.
    pub early: bool,
}

/// The tape that has a minute. The tapes are in order, two a year, and no year is longer than 366 days.
pub fn tape_with<'a>(
    tapes: &'a [KeptTape],
    _station: Station,
    _seconds: u16,
    first: u32,
) -> Option<&'a KeptTape>
    requires { All (IsKeptTape _station _seconds) tapes.now }
    ensures kept { IfSome result (λ kept. IsKeptTape _station _seconds kept.now) }
    ensures begun { IfSome result (λ kept. kept.now.lo ≤ first) }
    ensures ends { IfSome result (λ kept. first < kept.now.hi) }
{
    for i in (first / LONGEST_YEAR * 2) as usize..tapes.len() {
        if first < tapes[i].lo {
            return None;
        }
        if first < tapes[i].hi {
            return Some(&tapes[i]);
        }
    }
    None
}

/// The walk of `seconds` seconds from second `p` of one of a tape's minutes.
pub fn walk_of(kept: &KeptTape, _station: Station, seconds: u16, p: u8, first: u32) -> LeapWalk
    requires some { 1 ≤ seconds }
    requires few { seconds ≤ MOST_SECONDS }
    requires kept { IsKeptTape _station seconds kept.now }
    requires second { p < SECONDS }
    requires begun { kept.now.lo ≤ first }
    requires ends { first < kept.now.hi }
    ensures { IsLeapWalk (record { station = _station; seconds = seconds }) p first result }
{
    let from = SECONDS * (first - kept.lo) as usize + p as usize;
    let minutes = kept.hi - first;
    LeapWalk {
        sets: sets_from(&kept.tape, from),
        next_day: goes_on(minutes, seconds, p),
        early: ends_before(minutes, seconds, p),
    }
}

// Whether a walk from second `p` goes on after so many minutes, of which the last one has 61 seconds.
fn goes_on(minutes: u32, seconds: u16, p: u8) -> bool
    requires { minutes ≤ 21 }
    ensures { result ≡ true → SECONDS * minutes + 1 < p + seconds }
{
    SECONDS as u32 * minutes + 1 < p as u32 + seconds as u32
}

// Whether it ends before the last second of these minutes.
fn ends_before(minutes: u32, seconds: u16, p: u8) -> bool
    requires { minutes ≤ 21 }
    ensures { result ≡ true → p + seconds ≤ SECONDS * minutes }
{
    p as u32 + seconds as u32 <= SECONDS as u32 * minutes
}

/// Whether some of the sets is another than the walk from second `p` of a minute carries without an announcement.
pub fn shows(sets: &Sets, unions: &Unions, seconds: u16, p: u8, first: u32) -> bool
    requires some { 1 ≤ seconds }
    requires few { seconds ≤ MOST_SECONDS }
    requires second { p < SECONDS }
    requires encoded { first + 1 + (p + seconds - 1) / SECONDS ≤ unions.now.end }
    ensures shown { result ≡ true → (k : ℕ) × (k < seconds) × (slice_index sets.now k ≢ set_at unions.now.station (unannounced_from p first) k) }
    ensures hidden { result ≡ false → (k : ℕ) → k < seconds → slice_index sets.now k ≡ set_at unions.now.station (unannounced_from p first) k }
{
    // What ends before the parts' end fits.
    unions.parts().end();
    let reach = later_minutes(seconds, p);
    let row = regular_row(unions, false, first, first + 1, reach);
    some_differ(sets, &row, p as usize, seconds as usize)
}

// Whether some of the first sets is another than the row has from second `from` on.
fn some_differ(sets: &Sets, row: &Row, from: usize, count: usize) -> bool
    requires from { from < SECONDS }
    requires few { count ≤ MOST_SECONDS }
    ensures differ { result ≡ true → (k : ℕ) × (k < count) × (slice_index sets.now k ≢ slice_index row.now (from + k)) }
    ensures same { result ≡ false → (k : ℕ) → k < count → slice_index sets.now k ≡ slice_index row.now (from + k) }
{
    for k in 0..count {
        if sets[k] != row[from + k] {
            return true;
        }
    }
    false
}

//! What the time of day tells of each second.

ghost use Rattle.std.specs.Prelude.{◌≡◌, ◌<◌, if◌then◌else◌, slice_index};
ghost use Rattle.definitions.specs.time.Calendar.{minutes_per_day};
ghost use Rattle.minute_parts.specs.Overlay.{is_clock_second, is_time_second, tells_time};
ghost use Rattle.minute_parts.specs.Dates.{time_part};
ghost use Rattle.minute_parts.specs.declared.part.TheConstants.{SECONDS};

use crate::call::{is_call_minute, is_given_up};
use crate::dates::DateFacts;
use crate::part::{Part, SECONDS, nothing};
use crate::seconds::sets_by;
use definitions::Day;
use signal_base::Station;

/// The time of day tells the same whatever the date is.
pub const SOME_DATE: DateFacts = DateFacts {
    day: Day {
        year: 2000,
        month: 1,
        day: 1,
        weekday: 6,
        day_of_year: 1,
    },
    summer: false,
    change: false,
    us_code: 0,
    leap: false,
};

/// What the time of day tells in the minutes that encode the minute `u` of the local day, 0 to 1439.
pub fn time_part(station: Station, u: u16) -> Part
    requires { u < minutes_per_day }
    ensures { result ≡ time_part station u }
{
    let sets = sets_by(station, &SOME_DATE, u);
    let mut part = nothing();
    for s in 0..SECONDS {
        part[s] = time_set(station, u, &sets, s);
    }
    part
}

// What it tells of a second by these sets of the minute.
fn time_set(station: Station, u: u16, sets: &[u8; 61], second: usize) -> u8
    requires { second < SECONDS }
    ensures { result ≡ (if tells_time station u second then slice_index sets.now second else 0) }
{
    if tells_time(station, u, second as u8) {
        sets[second]
    } else {
        0
    }
}

/// Whether the time of day always tells the second.
pub fn is_time_second(station: Station, second: u8) -> bool
    ensures { result ≡ is_time_second station second }
{
    match station {
        Station::Dcf77 => matches!(second, 21..=35),
        Station::Msf => matches!(second, 39..=51 | 57),
        Station::Wwvb => is_clock_second(second),
        Station::Jjy => is_clock_second(second) || matches!(second, 36 | 37),
    }
}

// The seconds of the minute and of the hour at WWVB and JJY.
fn is_clock_second(second: u8) -> bool
    ensures { result ≡ is_clock_second second }
{
    matches!(second, 1..=3 | 5..=8 | 12..=13 | 15..=18)
}

// Whether the time of day tells the second in this minute: always, or where the call sign takes it.
fn tells_time(station: Station, u: u16, second: u8) -> bool
    ensures { result ≡ tells_time station u second }
{
    is_time_second(station, second) || is_call_minute(u) && is_given_up(station, second as usize)
}

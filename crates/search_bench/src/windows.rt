//! Windows by chance: which stations are heard, for how long, and where in the century.

ghost use Rattle.std.specs.Prelude.{◌<◌, ◌≤◌, length};
ghost use Rattle.definitions.specs.time.Calendar.{century_minutes};
ghost use Rattle.formats.specs.OrderRanges.{IsAsked};
ghost use Rattle.signal_base.specs.declared.limits.TheConstants.{MOST_RECEIVERS};
ghost use Rattle.search_bench.specs.declared.windows.TheConstants.{LONG_REACH};

use crate::chance::Chance;
use crate::places::Place;
use definitions::{CENTURY_MINUTES, MINUTES_PER_DAY};
use formats::Asked;
use signal_base::{LEAST_SECONDS, MOST_SECONDS, Station};

/// Each station alone, and all four.
pub const STATION_SETS: u8 = 5;

/// Each station alone.
pub const STATIONS_ALONE: u8 = 4;

// Half of the windows are no longer than this.
const FEW_SECONDS: u16 = 180;

// How many minutes a range reaches at most to either side of its place: to the next minute, within an hour, over some hours,
// over some days.
const NEXT_MINUTE: u32 = 1;

const SHORT_REACH: u32 = 20;

const REACH: u32 = 300;

const LONG_REACH: u32 = 4000;

// A range of a year.
const LONGEST_YEAR: u32 = 366 * MINUTES_PER_DAY;

/// The stations of a set. Where there are four, each has two receivers.
pub fn stations(set: u8) -> &'static [Station]
    ensures some { 1 ≤ length result.now }
    ensures few { length result.now ≤ MOST_RECEIVERS }
{
    match set {
        0 => &[Station::Dcf77],
        1 => &[Station::Msf],
        2 => &[Station::Wwvb],
        3 => &[Station::Jjy],
        _ => &[
            Station::Dcf77,
            Station::Dcf77,
            Station::Msf,
            Station::Msf,
            Station::Wwvb,
            Station::Wwvb,
            Station::Jjy,
            Station::Jjy,
        ],
    }
}

/// A name of a set.
pub fn name_of(set: u8) -> &'static str {
    match set {
        0 => "dcf77",
        1 => "msf",
        2 => "wwvb",
        3 => "jjy",
        _ => "all four",
    }
}

/// A window that may begin in some minutes around this one.
pub fn asked_near(chance: &mut Chance, place: Place, t: u32) -> Asked
    requires { t < century_minutes }
    ensures { IsAsked result }
{
    let reach = reach(chance, place);
    let before = chance.between(0, reach);
    let after = chance.between(0, reach);
    let most = if chance.flip() {
        FEW_SECONDS
    } else {
        MOST_SECONDS
    };
    let seconds = chance.between(LEAST_SECONDS as u32, most as u32) as u16;
    asked_around(t, before, after, seconds)
}

/// A short window that may begin in some days around this minute.
pub fn asked_for_days(chance: &mut Chance, t: u32) -> Asked
    requires { t < century_minutes }
    ensures { IsAsked result }
{
    let before = chance.between(0, LONG_REACH);
    let after = chance.between(0, LONG_REACH);
    let seconds = chance.between(LEAST_SECONDS as u32, FEW_SECONDS as u32) as u16;
    asked_around(t, before, after, seconds)
}

// A window of so many seconds that may begin up to so many minutes before this one and after it.
fn asked_around(t: u32, before: u32, after: u32, seconds: u16) -> Asked
    requires minute { t < century_minutes }
    requires after { after ≤ LONG_REACH }
    requires least { LEAST_SECONDS ≤ seconds }
    requires most { seconds ≤ MOST_SECONDS }
    ensures { IsAsked result }
{
    Asked {
        start: Some(0),
        seconds,
        from: t.saturating_sub(before),
        to: (t + 1 + after).min(CENTURY_MINUTES),
    }
}

/// A short window that may begin in each minute of the year that begins in this one.
pub fn year_from(t: u32) -> Asked
    requires { t < century_minutes }
    ensures { IsAsked result }
{
    Asked {
        start: Some(0),
        seconds: LEAST_SECONDS,
        from: t,
        to: (t + LONGEST_YEAR).min(CENTURY_MINUTES),
    }
}

// How far a range reaches at most.
fn reach(chance: &mut Chance, place: Place) -> u32
    ensures { result ≤ LONG_REACH }
{
    if place == Place::CallSigns {
        return NEXT_MINUTE;
    }
    match chance.below(3) {
        0 => SHORT_REACH,
        1 => REACH,
        _ => LONG_REACH,
    }
}

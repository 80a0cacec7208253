//! Where in the century windows are compared.

ghost use Rattle.std.specs.Prelude.{◌<◌, ◌≤◌};
ghost use Rattle.definitions.specs.time.Calendar.{century_minutes};

use crate::chance::Chance;
use civil::Civil;
use definitions::{CENTURY_DAYS, CENTURY_MINUTES, MINUTES_PER_DAY, MINUTES_PER_HOUR};
use std::fmt;

// The hours in which each yearly event comes.
const HOURS_PER_YEAR: u32 = 366 * 24;

// In the last so many hours of the century each station's own century ends.
const LAST_HOURS: u32 = 12;

// JJY sends its call sign in so manieth minute of each half hour.
const HALF_HOUR: u32 = 30;

const CALL_SIGN: u32 = 15;

/// Where windows are compared.
#[derive(Clone, Copy, PartialEq, Eq)]
pub enum Place {
    /// Anywhere in the century.
    Anywhere,
    /// Where a leap second may be inserted.
    LeapEnd,
    /// Where summer time begins or ends in Europe.
    EuropeanSummer,
    /// On a day on which summer time begins or ends in the United States.
    AmericanSummer,
    /// Where a year ends.
    YearEnd,
    /// In minutes in which JJY sends its call sign.
    CallSigns,
    /// At the first minute of the century.
    FirstMinute,
    /// Where the century ends for the stations.
    LastMinutes,
}

/// All places.
pub const PLACES: [Place; 8] = [
    Place::Anywhere,
    Place::LeapEnd,
    Place::EuropeanSummer,
    Place::AmericanSummer,
    Place::YearEnd,
    Place::CallSigns,
    Place::FirstMinute,
    Place::LastMinutes,
];

impl fmt::Display for Place {
    fn fmt<W: fmt::Write>(&self, f: &mut fmt::Formatter<W>) -> fmt::Result {
        f.write_str(match self {
            Place::Anywhere => "anywhere",
            Place::LeapEnd => "leap ends",
            Place::EuropeanSummer => "European summer time",
            Place::AmericanSummer => "American summer time",
            Place::YearEnd => "year ends",
            Place::CallSigns => "call signs",
            Place::FirstMinute => "the first minute",
            Place::LastMinutes => "the last minutes",
        })
    }
}

/// A minute at the place, by chance.
pub fn minute_at(civil: &Civil, chance: &mut Chance, place: Place) -> u32
    ensures { result < century_minutes }
{
    match place {
        Place::FirstMinute => 0,
        Place::LastMinutes => { CENTURY_MINUTES - 1 - MINUTES_PER_HOUR * chance.below(LAST_HOURS) }
        Place::Anywhere => chance.below(CENTURY_MINUTES),
        Place::CallSigns => { HALF_HOUR * chance.below(CENTURY_MINUTES / HALF_HOUR) + CALL_SIGN }
        _ => next_event(civil, place, MINUTES_PER_DAY * chance.below(CENTURY_DAYS)),
    }
}

// The first whole hour from `from` on at which the place's event comes, and `from` where none comes for a year.
fn next_event(civil: &Civil, place: Place, from: u32) -> u32
    requires { from < century_minutes }
    ensures { result < century_minutes }
{
    for hour in 0..HOURS_PER_YEAR {
        let t = from + hour * MINUTES_PER_HOUR;
        if t >= CENTURY_MINUTES {
            return from;
        }
        if comes_at(civil, place, t) {
            return t;
        }
    }
    from
}

// Whether the place's event comes at this whole hour.
fn comes_at(civil: &Civil, place: Place, t: u32) -> bool
    requires { t < century_minutes }
{
    if t == 0 {
        return false;
    }
    let before = t - 1;
    match place {
        Place::LeapEnd => civil.leap_end(before),
        Place::EuropeanSummer => civil.eu_summer(t) != civil.eu_summer(before),
        Place::AmericanSummer => civil.us_code(t) != civil.us_code(before),
        Place::YearEnd => civil.utc(t).year != civil.utc(before).year,
        Place::Anywhere | Place::CallSigns | Place::FirstMinute | Place::LastMinutes => true,
    }
}

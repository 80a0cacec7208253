//! Pieces of a day over which what a station tells by the date stays as it is.

ghost use Rattle.std.specs.Prelude.{◌≡◌, ◌+◌, ◌*◌, ◌/◌, ◌<◌, ◌≤◌, ℕ, true};
ghost use Rattle.signal_base.specs.declared.station.Station.TheVariants.{Dcf77, Msf};
ghost use Rattle.definitions.specs.time.Calendar.{century_days, century_minutes, day_at, minutes_per_day};
ghost use Rattle.civil.specs.Seasons.{is_eu_change_day};
ghost use Rattle.minute_parts.specs.Dates.{date_facts};
ghost use Rattle.minute_parts.specs.Pieces.{IsPiece, IsPlainDay, IsUncut, is_leap_day, local_midnight};

use crate::dates::DateFacts;
use civil::Civil;
use definitions::{MINUTES_PER_DAY, MINUTES_PER_HOUR};
use signal_base::Station;

/// 01:00 UTC, at which European summer time begins and ends, as a minute of the UTC day.
pub const ONE_OCLOCK: u32 = 60;

/// From here on DCF77 and MSF encode a minute from 01:00 UTC on.
pub const NEXT_IS_ONE: u32 = 59;

/// From here on DCF77 encodes a minute of the next day in Central Europe, in summer.
pub const DCF77_SUMMER_MIDNIGHT: u32 = 1319;

/// The same in winter.
pub const DCF77_WINTER_MIDNIGHT: u32 = 1379;

/// 23:00 UTC, from which on DCF77 may warn of a leap second.
pub const LAST_HOUR: u32 = 1380;

/// From here on MSF encodes a minute of the next day in the United Kingdom, in summer.
pub const MSF_SUMMER_MIDNIGHT: u32 = 1379;

/// The same in winter, and from here on MSF tells of a change at 01:00 UTC of the next day.
pub const MSF_WINTER_MIDNIGHT: u32 = 1439;

/// The midnight of Japan.
pub const JAPANESE_MIDNIGHT: u32 = 900;

/// A minute after `t` and at most that with which the next UTC day begins, so that what the station tells by the date is
/// the same from `t` up to it. `here` is what it tells at `t`.
pub fn piece_end(civil: &Civil, station: Station, t: u32, here: &DateFacts) -> u32
    requires century { t < century_minutes }
    requires here { here.now ≡ date_facts station t }
    ensures later { t < result }
    ensures day { result ≤ (t / minutes_per_day + 1) * minutes_per_day }
    ensures same { (v : ℕ) → t ≤ v → v < result → date_facts station v ≡ date_facts station t }
{
    let minute = t % MINUTES_PER_DAY;
    let midnight = t - minute;
    if is_plain_day(civil, station, t / MINUTES_PER_DAY) {
        return midnight + end_in_plain_day(station, here.summer, minute);
    }
    midnight + end_in_day(station, minute)
}

// Whether it is known of a UTC day that the station tells of no change on it but that of the local day. On most days it does
// so; of other stations than these two none is looked for.
fn is_plain_day(civil: &Civil, station: Station, day: u32) -> bool
    requires { day < century_days }
    ensures { result ≡ true → IsPlainDay station day }
{
    match station {
        Station::Dcf77 => is_plain_of_dcf(civil, day),
        Station::Msf => is_plain_of_msf(civil, day),
        Station::Wwvb | Station::Jjy => false,
    }
}

// DCF77 tells of a change of summer time on the day on which it comes, and warns of a leap second on the day that it ends.
fn is_plain_of_dcf(civil: &Civil, day: u32) -> bool
    requires { day < century_days }
    ensures { result ≡ true → IsPlainDay Dcf77 day }
{
    if is_change_day(civil, day) {
        return false;
    }
    !is_leap_day(civil, day)
}

// MSF tells of a change from the last minute of the day before on.
fn is_plain_of_msf(civil: &Civil, day: u32) -> bool
    requires { day < century_days }
    ensures { result ≡ true → IsPlainDay Msf day }
{
    if is_change_day(civil, day) {
        return false;
    }
    !is_before_change(civil, day)
}

// Whether European summer time begins or ends on a day.
fn is_change_day(civil: &Civil, day: u32) -> bool
    requires { day < century_days }
    ensures { result ≡ is_eu_change_day (day_at day) }
{
    civil.eu_change_within(day * MINUTES_PER_DAY, MINUTES_PER_HOUR)
}

// Whether it does so on the next day.
fn is_before_change(civil: &Civil, day: u32) -> bool
    requires { day < century_days }
    ensures { result ≡ is_eu_change_day (day_at (day + 1)) }
{
    civil.eu_change_within(day * MINUTES_PER_DAY + ONE_OCLOCK, MINUTES_PER_DAY)
}

// Whether a day may end with a leap second.
fn is_leap_day(civil: &Civil, day: u32) -> bool
    requires { day < century_days }
    ensures { result ≡ is_leap_day (day_at day) }
{
    civil.leap_end(day * MINUTES_PER_DAY + (MINUTES_PER_DAY - 1))
}

// Up to where the station tells the same on such a day, from a minute of it on, where this is in summer or not.
fn end_in_plain_day(station: Station, summer: bool, minute: u32) -> u32
    requires { minute < minutes_per_day }
    ensures later { minute < result }
    ensures day { result ≤ minutes_per_day }
    ensures piece { IsUncut minute result (local_midnight station summer) }
{
    let midnight = local_midnight(station, summer);
    if minute < midnight {
        midnight
    } else {
        MINUTES_PER_DAY
    }
}

// From which minute of a UTC day on the station encodes a minute of the next local day.
fn local_midnight(station: Station, summer: bool) -> u32
    ensures value { result ≡ local_midnight station summer }
    ensures day { result ≤ minutes_per_day }
{
    match station {
        Station::Dcf77 => if summer {
            DCF77_SUMMER_MIDNIGHT
        } else {
            DCF77_WINTER_MIDNIGHT
        },
        Station::Msf => if summer {
            MSF_SUMMER_MIDNIGHT
        } else {
            MSF_WINTER_MIDNIGHT
        },
        Station::Wwvb => MINUTES_PER_DAY,
        Station::Jjy => JAPANESE_MIDNIGHT,
    }
}

// The same for a minute of the UTC day.
fn end_in_day(station: Station, minute: u32) -> u32
    requires { minute < minutes_per_day }
    ensures later { minute < result }
    ensures day { result ≤ minutes_per_day }
    ensures piece { IsPiece station minute result }
{
    match station {
        Station::Dcf77 => dcf_end(minute),
        Station::Msf => msf_end(minute),
        Station::Wwvb => MINUTES_PER_DAY,
        Station::Jjy => if minute < JAPANESE_MIDNIGHT {
            JAPANESE_MIDNIGHT
        } else {
            MINUTES_PER_DAY
        },
    }
}

fn dcf_end(minute: u32) -> u32
    requires { minute < minutes_per_day }
    ensures later { minute < result }
    ensures day { result ≤ minutes_per_day }
    ensures piece { IsPiece Dcf77 minute result }
{
    if minute < NEXT_IS_ONE {
        return NEXT_IS_ONE;
    }
    if minute < ONE_OCLOCK {
        return ONE_OCLOCK;
    }
    if minute < DCF77_SUMMER_MIDNIGHT {
        return DCF77_SUMMER_MIDNIGHT;
    }
    if minute < DCF77_WINTER_MIDNIGHT {
        return DCF77_WINTER_MIDNIGHT;
    }
    if minute < LAST_HOUR {
        return LAST_HOUR;
    }
    MINUTES_PER_DAY
}

fn msf_end(minute: u32) -> u32
    requires { minute < minutes_per_day }
    ensures later { minute < result }
    ensures day { result ≤ minutes_per_day }
    ensures piece { IsPiece Msf minute result }
{
    if minute < NEXT_IS_ONE {
        return NEXT_IS_ONE;
    }
    if minute < ONE_OCLOCK {
        return ONE_OCLOCK;
    }
    if minute < MSF_SUMMER_MIDNIGHT {
        return MSF_SUMMER_MIDNIGHT;
    }
    if minute < MSF_WINTER_MIDNIGHT {
        return MSF_WINTER_MIDNIGHT;
    }
    MINUTES_PER_DAY
}

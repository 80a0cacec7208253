//! What a minute tells besides the time of day.

ghost use Rattle.std.specs.Prelude.{◌≡◌, ◌+◌, ◌*◌, ◌/◌, ◌<◌, ◌≤◌};
ghost use Rattle.definitions.specs.codes.Allowed.{encoded_year};
ghost use Rattle.definitions.specs.time.Calendar.{century_minutes, day_at, minutes_per_day};
ghost use Rattle.definitions.specs.time.Zones.{zone_fields, zone_shift};
ghost use Rattle.civil.specs.Days.{IsPlausible};
ghost use Rattle.minute_parts.specs.Dates.{AreInRange, date_facts, shift_by, winter_shift};

use civil::{Civil, Zone};
use definitions::{Day, MINUTES_PER_HOUR};
use signal_base::Station;

/// What a station's minute tells besides the time of day, where a leap second is announced for the end of the UTC month.
/// What the station doesn't tell is false or 0.
#[derive(Clone, Copy, PartialEq, Eq)]
pub struct DateFacts {
    /// The day, in the station's time, of the minute that is encoded.
    pub day: Day,
    /// Whether that minute is in European summer time.
    pub summer: bool,
    /// Whether a change of European summer time is announced.
    pub change: bool,
    /// WWVB's two bits of summer time in the United States, 0 to 3.
    pub us_code: u8,
    /// Whether a leap second is warned of.
    pub leap: bool,
}

/// The facts of a minute that the station can encode.
pub fn date_facts(civil: &Civil, station: Station, t: u32) -> DateFacts
    requires century { t < century_minutes }
    requires encoded { encoded_year station t ≤ 2099 }
    ensures value { result ≡ date_facts station t }
    ensures ranges { AreInRange result }
{
    match station {
        Station::Dcf77 => DateFacts {
            day: local_day(civil, Zone::CentralEurope, t + 1),
            summer: civil.eu_summer(t + 1),
            change: civil.eu_change_within(t, 60),
            us_code: 0,
            leap: civil.leap_end(last_of_hour(t)),
        },
        Station::Msf => DateFacts {
            day: local_day(civil, Zone::Uk, t + 1),
            summer: civil.eu_summer(t + 1),
            change: civil.eu_change_within(t, 61),
            us_code: 0,
            leap: false,
        },
        Station::Wwvb => DateFacts {
            day: local_day(civil, Zone::Utc, t),
            summer: false,
            change: false,
            us_code: civil.us_code(t),
            leap: civil.leap_month(t),
        },
        Station::Jjy => DateFacts {
            day: local_day(civil, Zone::Japan, t),
            summer: false,
            change: false,
            us_code: 0,
            leap: civil.leap_month(t) && civil.utc(t).day > 1,
        },
    }
}

// The day in the zone's time to which the minute belongs.
fn local_day(civil: &Civil, zone: Zone, t: u32) -> Day
    requires century { t ≤ century_minutes }
    requires encoded { (zone_fields zone t).year ≤ 2099 }
    ensures value { result ≡ day_at ((t + zone_shift zone t) / minutes_per_day) }
    ensures ranges { IsPlausible result }
{
    match civil.local(zone, t) {
        Some(fields) => Day {
            year: fields.year,
            month: fields.month,
            day: fields.day,
            weekday: fields.weekday,
            day_of_year: fields.day_of_year,
        },
        None => unreachable!(),
    }
}

// The last minute of the hour.
fn last_of_hour(t: u32) -> u32
    requires { t < century_minutes }
    ensures value { result ≡ t / 60 * 60 + 59 }
    ensures range { result < century_minutes }
{
    t / MINUTES_PER_HOUR * MINUTES_PER_HOUR + (MINUTES_PER_HOUR - 1)
}

/// By how many minutes the local time that the station encodes is ahead of UTC at the sent minute.
pub fn shift_by(station: Station, date: &DateFacts) -> u16
    ensures { result ≡ shift_by station date.now }
{
    winter_shift(station)
        + if date.summer {
            MINUTES_PER_HOUR as u16
        } else {
            0
        }
}

/// The same in winter.
pub fn winter_shift(station: Station) -> u16
    ensures value { result ≡ winter_shift station }
    ensures range { result ≤ 540 }
{
    match station {
        Station::Dcf77 => 61,
        Station::Msf => 1,
        Station::Wwvb => 0,
        Station::Jjy => 540,
    }
}

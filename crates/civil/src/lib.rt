//! The calendar of the years 2000 to 2099, civil time and summer time, from a table of days that is made with `jiff`.
#![tactic(auto)]

ghost use Rattle.std.specs.Prelude.{◌≡◌, ◌/◌, ◌<◌, ◌≤◌, ℕ, IfSome, IfNone, vec_len};
ghost use Rattle.definitions.specs.time.Calendar.{century_days, century_minutes, day_at, is_leap_end, is_leap_month, minutes_per_day, utc_fields};
ghost use Rattle.definitions.specs.time.Summer.{eu_change_within, is_eu_summer, us_code};
ghost use Rattle.definitions.specs.time.Zones.{local_fields, zone_shift};
ghost use Rattle.civil.specs.Days.{AreEntries, ArePlausible, IsPlausible, entry_at};
ghost use Rattle.civil.specs.Seasons.{IsNextOneOclock};
ghost use Rattle.civil.specs.declared.days.TheConstants.{TABLE_DAYS};

mod days;
mod parse;
mod summer;

use crate::days::{Entry, TABLE_DAYS, table};
pub use crate::parse::{parse_day, parse_minute};
use crate::summer::{is_eu_change_day, us_code_on};
pub use definitions::{Day, Fields, Zone};
use definitions::{MINUTES_PER_DAY, MINUTES_PER_HOUR};
use std::alloc::{AllocError, Global};

/// Why the table of days can't be made.
#[derive(Clone, Copy, Debug)]
pub enum CivilFault {
    /// Memory wasn't found.
    NoMemory,
}

impl From<AllocError> for CivilFault {
    fn from(_error: AllocError) -> CivilFault {
        CivilFault::NoMemory
    }
}

/// The days from 2000-01-01 to 2100-01-01, and whether summer time is on as each begins.
#[derive(Drop)]
pub struct Civil {
    entries: Vec<Entry>,
    ghost whole: { vec_len entries ≡ TABLE_DAYS },
    ghost each: { AreEntries entries.items TABLE_DAYS },
}

// The minute of the day at which European summer time begins and ends: 01:00 UTC.
const ONE_OCLOCK: u32 = MINUTES_PER_HOUR;

impl Civil {
    /// Makes the table of days.
    pub fn make(alloc: Global) -> Result<Civil, CivilFault> {
        let entries = table(alloc)?;
        Ok(Civil { entries })
    }

    /// The UTC fields of a minute, counted from 2000-01-01T00:00Z.
    pub fn utc(&self, t: u32) -> Fields
        requires { t < century_minutes }
        ensures value { result ≡ utc_fields t }
        ensures ranges { ArePlausible result }
    {
        self.fields(t)
    }

    // The same, up to the end of the table.
    fn fields(&self, t: u32) -> Fields
        requires { t / minutes_per_day < TABLE_DAYS }
        ensures value { result ≡ utc_fields t }
        ensures ranges { ArePlausible result }
    {
        let day = self.day(t / MINUTES_PER_DAY);
        Fields {
            year: day.year,
            month: day.month,
            day: day.day,
            weekday: day.weekday,
            day_of_year: day.day_of_year,
            hour: (t % MINUTES_PER_DAY / MINUTES_PER_HOUR) as u8,
            minute: (t % MINUTES_PER_HOUR) as u8,
        }
    }

    // The day of this number.
    fn day(&self, n: u32) -> Day
        requires { n < TABLE_DAYS }
        ensures value { result ≡ day_at n }
        ensures ranges { IsPlausible result }
    {
        self.entry(n).day
    }

    // The entry of the table.
    fn entry(&self, n: u32) -> Entry
        requires { n < TABLE_DAYS }
        ensures { result ≡ entry_at n }
    {
        self.entries[n as usize]
    }

    /// The fields of a minute in a zone's time, `t` at most 52,596,000. None exactly where the local year is 2100.
    pub fn local(&self, zone: Zone, t: u32) -> Option<Fields>
        requires { t ≤ century_minutes }
        ensures value { result ≡ local_fields zone t }
        ensures ranges { IfSome result ArePlausible }
    {
        let fields = self.fields(t + self.shift(zone, t));
        if fields.year < 2100 {
            Some(fields)
        } else {
            None
        }
    }

    // By how many minutes the zone is ahead of UTC in the minute.
    fn shift(&self, zone: Zone, t: u32) -> u32
        requires { t ≤ century_minutes }
        ensures value { result ≡ zone_shift zone t }
        ensures range { result ≤ 540 }
    {
        match zone {
            Zone::Utc => 0,
            Zone::CentralEurope => if self.eu_summer(t) { 120 } else { 60 },
            Zone::Uk => if self.eu_summer(t) { 60 } else { 0 },
            Zone::Japan => 540,
        }
    }

    /// Whether the minute is in European summer time, `t` at most 52,596,000.
    pub fn eu_summer(&self, t: u32) -> bool
        requires { t ≤ century_minutes }
        ensures { result ≡ is_eu_summer t }
    {
        // Until the next 01:00 UTC it stays as it was when that day began.
        let hour = next_one_oclock(t);
        self.entry(hour / MINUTES_PER_DAY).eu_summer
    }

    /// Whether European summer time begins or ends in the `minutes` minutes after `t`: at a minute that is later than `t`
    /// and at most `t + minutes`. `t` is below 52,596,000, `minutes` at most the 1440 of a day.
    #[tactic(auto, using(crate::proofs::Seasons::change_in_time, crate::proofs::Seasons::change_too_late))]
    pub fn eu_change_within(&self, t: u32, minutes: u32) -> bool
        requires t { t < century_minutes }
        requires minutes { minutes ≤ minutes_per_day }
        ensures { result ≡ eu_change_within t minutes }
    {
        let hour = next_one_oclock(t);
        hour <= t + minutes && is_eu_change_day(self.day(hour / MINUTES_PER_DAY))
    }

    /// WWVB's two bits of summer time in the United States by the UTC day, 0 to 3, the bit of second 57 the higher (NIST
    /// SP 432): 2 on the day on which it begins, 3 in summer time, 1 on the day on which it ends, 0 otherwise.
    /// `t` is below 52,596,000.
    #[tactic(auto, using(crate::proofs::Seasons::us_code_by_day))]
    pub fn us_code(&self, t: u32) -> u8
        requires { t < century_minutes }
        ensures value { result ≡ us_code t }
        ensures range { result < 4 }
    {
        let entry = self.entry(t / MINUTES_PER_DAY);
        us_code_on(entry.day, entry.us_summer)
    }

    /// Whether the minute lies in a UTC June or December.
    pub fn leap_month(&self, t: u32) -> bool
        requires { t < century_minutes }
        ensures { result ≡ is_leap_month (utc_fields t) }
    {
        let fields = self.utc(t);
        fields.month == 6 || fields.month == 12
    }

    /// Whether the minute is the last UTC minute of 30 June or 31 December.
    pub fn leap_end(&self, t: u32) -> bool
        requires { t < century_minutes }
        ensures { result ≡ is_leap_end t }
    {
        let fields = self.utc(t);
        t % MINUTES_PER_DAY == MINUTES_PER_DAY - 1
            && (fields.month == 6 && fields.day == 30 || fields.month == 12 && fields.day == 31)
    }

    /// The number of the day that has this date, counted from 2000-01-01, or none where no day of the century has.
    pub fn day_number(&self, year: u16, month: u8, day: u8) -> Option<u32>
        ensures found { IfSome result (λ n. (n < century_days) × ((day_at n).year ≡ year) × ((day_at n).month ≡ month) × ((day_at n).day ≡ day)) }
        ensures none { IfNone result ((n : ℕ) → n < century_days → (day_at n).year ≡ year → (day_at n).month ≡ month → (day_at n).day ≡ day → ⊥) }
    {
        for n in 0..TABLE_DAYS - 1 {
            let found = self.day(n);
            if found.year == year && found.month == month && found.day == day {
                return Some(n);
            }
        }
        None
    }
}

// The first minute after `t` that stands at 01:00 UTC, a day later at most.
fn next_one_oclock(t: u32) -> u32
    requires { t ≤ century_minutes }
    ensures { IsNextOneOclock t result }
{
    let midnight = t - t % MINUTES_PER_DAY;
    if t % MINUTES_PER_DAY < ONE_OCLOCK {
        midnight + ONE_OCLOCK
    } else {
        midnight + MINUTES_PER_DAY + ONE_OCLOCK
    }
}

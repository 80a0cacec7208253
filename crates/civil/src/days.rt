//! The table of days, made with `jiff` day after day.

ghost use Rattle.std.specs.Prelude.{◌≡◌, pos, ◌+ℤ◌, ◌<ℤ◌, IfOk, vec_len};
ghost use Rattle.jiff.specs.Words.{epoch_day};
ghost use Rattle.definitions.specs.declared.day.Day.{Day};
ghost use Rattle.civil.specs.Dated.{IsOn};
ghost use Rattle.civil.specs.Days.{AreEntries};

use crate::summer::{eu_season_after, us_season_after};
use definitions::{CENTURY_DAYS, Day};
use jiff::civil::Date;
use std::alloc::{AllocError, AllocFailed, Global};

/// The first day's date.
pub const FIRST_DATE: jiff_core::civil::Date = jiff_core::civil::Date {
    year: 2000,
    month: 1,
    day: 1,
};

/// How many days the table has: those from 2000-01-01 to 2100-01-01.
pub const TABLE_DAYS: u32 = CENTURY_DAYS + 1;

/// A day of the table.
#[derive(Clone, Copy)]
pub struct Entry {
    /// The day.
    pub day: Day,
    /// Whether European summer time is on as the day begins, at 00:00 UTC.
    pub eu_summer: bool,
    /// Whether summer time in the United States is on as the UTC day begins.
    pub us_summer: bool,
}

/// Makes the table.
pub fn table(alloc: Global) -> Result<Vec<Entry>, AllocError>
    ensures { IfOk result (λ entries. (vec_len entries ≡ TABLE_DAYS) × AreEntries entries.items TABLE_DAYS) }
{
    let mut entries = Vec::with_capacity(alloc, TABLE_DAYS as usize)?;
    let mut today = Date::from_plain(FIRST_DATE);
    let mut eu_summer = false;
    let mut us_summer = false;
    for _ in 0..TABLE_DAYS {
        let day = day_of(today);
        entries.push(Entry {
            day,
            eu_summer,
            us_summer,
        })?;
        eu_summer = eu_season_after(day, eu_summer);
        us_summer = us_season_after(day, us_summer);
        today = day_after(today);
    }
    Ok(entries)
}

// The date's day.
fn day_of(today: Date) -> Day
    requires { (d : Day) × IsOn today d }
    ensures { IsOn today result }
{
    Day {
        year: today.year() as u16,
        month: today.month() as u8,
        day: today.day() as u8,
        weekday: today.weekday().to_sunday_zero_offset() as u8,
        day_of_year: today.day_of_year() as u16,
    }
}

// The date a day later.
fn day_after(today: Date) -> Date
    requires { epoch_day today <ℤ pos 2_932_896 }
    ensures { epoch_day result ≡ epoch_day today +ℤ pos 1 }
{
    match today.tomorrow() {
        Ok(tomorrow) => tomorrow,
        Err(_) => unreachable!(),
    }
}

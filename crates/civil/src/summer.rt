//! The days on which summer time begins and ends, in Europe and in the United States.

ghost use Rattle.std.specs.Prelude.{◌≡◌, ◌<◌};
ghost use Rattle.definitions.specs.time.Calendar.{is_leap_year, month_length};
ghost use Rattle.definitions.specs.time.Summer.{is_first_sunday, is_last_sunday, is_second_sunday, is_sunday_of, us_begins, us_code_on, us_ends};
ghost use Rattle.civil.specs.Seasons.{eu_season_after, is_eu_change_day, us_season_after};

use definitions::Day;

const MARCH: u8 = 3;

const APRIL: u8 = 4;

const OCTOBER: u8 = 10;

const NOVEMBER: u8 = 11;

// The first year in which the United States change in March and November.
const NEW_AMERICAN_RULE: u16 = 2007;

/// Whether European summer time is on as the next day begins, where `on` says it of this day.
pub fn eu_season_after(day: Day, on: bool) -> bool
    ensures { result ≡ eu_season_after day on }
{
    is_last_sunday(MARCH, day) || !is_last_sunday(OCTOBER, day) && on
}

/// Whether European summer time begins or ends on the day, at 01:00 UTC.
pub fn is_eu_change_day(day: Day) -> bool
    ensures { result ≡ is_eu_change_day day }
{
    is_last_sunday(MARCH, day) || is_last_sunday(OCTOBER, day)
}

/// Whether summer time in the United States is on as the next UTC day begins, where `on` says it of this day.
pub fn us_season_after(day: Day, on: bool) -> bool
    ensures { result ≡ us_season_after day on }
{
    us_begins(day) || !us_ends(day) && on
}

/// WWVB's two bits of summer time on a UTC day, that of second 57 the higher, where `on` says whether summer time in the
/// United States is on as the day begins.
pub fn us_code_on(day: Day, on: bool) -> u8
    ensures value { result ≡ us_code_on (day, on) }
    ensures range { result < 4 }
{
    if us_begins(day) {
        0b10
    } else if us_ends(day) {
        0b01
    } else if on {
        0b11
    } else {
        0b00
    }
}

// Whether summer time in the United States begins on the day.
fn us_begins(day: Day) -> bool
    ensures { result ≡ us_begins day }
{
    if day.year < NEW_AMERICAN_RULE {
        is_first_sunday(APRIL, day)
    } else {
        is_second_sunday(MARCH, day)
    }
}

// Whether it ends on the day.
fn us_ends(day: Day) -> bool
    ensures { result ≡ us_ends day }
{
    if day.year < NEW_AMERICAN_RULE {
        is_last_sunday(OCTOBER, day)
    } else {
        is_first_sunday(NOVEMBER, day)
    }
}

fn is_first_sunday(month: u8, day: Day) -> bool
    ensures { result ≡ is_first_sunday month day }
{
    is_sunday_of(month, day) && day.day <= 7
}

fn is_second_sunday(month: u8, day: Day) -> bool
    ensures { result ≡ is_second_sunday month day }
{
    is_sunday_of(month, day) && 7 < day.day && day.day <= 14
}

fn is_last_sunday(month: u8, day: Day) -> bool
    ensures { result ≡ is_last_sunday month day }
{
    is_sunday_of(month, day) && month_length(day.year, day.month) < day.day as u16 + 7
}

fn is_sunday_of(month: u8, day: Day) -> bool
    ensures { result ≡ is_sunday_of month day }
{
    day.month == month && day.weekday == 0
}

// How many days the month has.
fn month_length(year: u16, month: u8) -> u16
    ensures { result ≡ month_length year month }
{
    match month {
        2 => if is_leap_year(year) { 29 } else { 28 },
        4 | 6 | 9 | 11 => 30,
        _ => 31,
    }
}

fn is_leap_year(year: u16) -> bool
    ensures { result ≡ is_leap_year year }
{
    year % 4 == 0 && (year % 100 != 0 || year % 400 == 0)
}

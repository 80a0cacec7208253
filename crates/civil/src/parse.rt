//! Days and minutes, read from their texts.

ghost use Rattle.std.specs.Prelude.{◌≡◌, ◌≢◌, ◌<◌, ◌/◌, ℕ, [], ◌∷◌, ◌++◌, IfSome, IfNone};
ghost use Rattle.definitions.specs.time.Calendar.{century_days, century_minutes, day_at, minutes_per_day};
ghost use Rattle.definitions.specs.time.Spelling.{date_text, day_text, minute_text, two_digits};
ghost use Rattle.civil.specs.Clock.{time_text};

use crate::days::FIRST_DATE;
use definitions::{CENTURY_DAYS, MINUTES_PER_DAY, MINUTES_PER_HOUR};
use jiff_core::civil::Date;

// How many bytes a date `YYYY-MM-DD` has.
const DATE_LENGTH: usize = 10;

/// The day of a text `YYYY-MM-DD`, counted from 2000-01-01. None where the text isn't the date of a day of the years 2000
/// to 2099.
pub fn parse_day(text: &str) -> Option<u32>
    ensures found { IfSome result (λ n. (n < century_days) × (text.now ≡ day_text (day_at n))) }
    ensures none { IfNone result ((n : ℕ) → n < century_days → text.now ≢ day_text (day_at n)) }
{
    day_in(text.as_bytes())
}

/// The minute of a text `YYYY-MM-DDThh:mmZ`, counted from 2000-01-01T00:00Z. None where the text isn't that of a minute of
/// the years 2000 to 2099.
pub fn parse_minute(text: &str) -> Option<u32>
    ensures found { IfSome result (λ n. (n < century_minutes) × (text.now ≡ minute_text n)) }
    ensures none { IfNone result ((n : ℕ) → n < century_minutes → text.now ≢ minute_text n) }
{
    let bytes = text.as_bytes();
    if bytes.len() < DATE_LENGTH {
        return None;
    }
    let (date, time) = bytes.split_at(DATE_LENGTH);
    Some(day_in(date)? * MINUTES_PER_DAY + time_in(time)?)
}

// The day of a date `YYYY-MM-DD`.
fn day_in(bytes: &[u8]) -> Option<u32>
    ensures found { IfSome result (λ n. (n < century_days) × (bytes.now ≡ day_text (day_at n))) }
    ensures none { IfNone result ((n : ℕ) → n < century_days → bytes.now ≢ day_text (day_at n)) }
{
    let [c1, c0, y1, y0, b'-', m1, m0, b'-', d1, d0] = bytes else {
        return None;
    };
    let year = year_in([*c1, *c0, *y1, *y0])?;
    let month = number_in(*m1, *m0)?;
    let day = number_in(*d1, *d0)?;
    day_number(year, month, day)
}

// The number that four digits write. None where one of the bytes is no digit.
fn year_in(digits: [u8; 4]) -> Option<u16>
    ensures found { IfSome result (λ n. (n < 10000) × (digits ≡ two_digits (n / 100) ++ two_digits n)) }
    ensures none { IfNone result ((n : ℕ) → digits ≢ two_digits (n / 100) ++ two_digits n) }
{
    let [c1, c0, y1, y0] = digits;
    let century = number_in(c1, c0)?;
    let year = number_in(y1, y0)?;
    Some(100 * century as u16 + year as u16)
}

// The minute of the day of a time `Thh:mmZ`.
fn time_in(bytes: &[u8]) -> Option<u32>
    ensures found { IfSome result (λ n. (n < minutes_per_day) × (bytes.now ≡ time_text n)) }
    ensures none { IfNone result ((n : ℕ) → n < minutes_per_day → bytes.now ≢ time_text n) }
{
    let [b'T', h1, h0, b':', m1, m0, b'Z'] = bytes else {
        return None;
    };
    let hour = number_in(*h1, *h0)?;
    let minute = number_in(*m1, *m0)?;
    if hour < 24 && minute < 60 {
        Some(hour as u32 * MINUTES_PER_HOUR + minute as u32)
    } else {
        None
    }
}

// The number that two digits write. None where one of the bytes is no digit.
fn number_in(tens: u8, units: u8) -> Option<u8>
    ensures found { IfSome result (λ n. (n < 100) × (tens ∷ units ∷ [] ≡ two_digits n)) }
    ensures none { IfNone result ((n : ℕ) → tens ∷ units ∷ [] ≢ two_digits n) }
{
    if tens.is_ascii_digit() && units.is_ascii_digit() {
        Some(10 * (tens - b'0') + (units - b'0'))
    } else {
        None
    }
}

// The number of the day of this date, counted from 2000-01-01. None where no day of the century has it.
fn day_number(year: u16, month: u8, day: u8) -> Option<u32>
    requires year { year < 10000 }
    requires month { month < 100 }
    requires day { day < 100 }
    ensures found { IfSome result (λ n. (n < century_days) × (date_text year month day ≡ day_text (day_at n))) }
    ensures none { IfNone result ((n : ℕ) → n < century_days → date_text year month day ≢ day_text (day_at n)) }
{
    let Ok(date) = Date::new(year as i16, month as i8, day as i8) else {
        return None;
    };
    let number = FIRST_DATE.until(date);
    if number < 0 || number >= CENTURY_DAYS as i32 {
        return None;
    }
    Some(number as u32)
}

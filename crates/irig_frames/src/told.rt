//! The second that elements tell: their fields are decoded, and then they are compared with the elements of that second.

ghost use Rattle.std.specs.Prelude.{◌≡◌, ◌+◌, ◌-◌, ◌*◌, ◌<◌, ◌≤◌, ℕ, IfSome, IfNone, IsTrue, length, nat_lt, true};
ghost use Rattle.std.specs.List.{list_all};
ghost use Rattle.definitions.specs.time.Calendar.{century_minutes, minute_length};
ghost use Rattle.formats.specs.declared.frame.TheConstants.{ELEMENTS};
ghost use Rattle.formats.specs.Frames.{elements, new_year, told, told_minute, told_second};
ghost use Rattle.formats.specs.FrameTexts.{IsSecond, TellASecond};
ghost use Rattle.irig_frames.specs.declared.told.TheConstants.{MOST_TOLD, MOST_WEIGHTS};

use crate::elements;
use crate::table::{DAY_OF_YEAR, HOUR, MINUTE, SECOND, YEAR};
use civil::Civil;
use definitions::{CENTURY_MINUTES, MINUTES_PER_DAY, MINUTES_PER_HOUR};

// The most weights of a field.
const MOST_WEIGHTS: usize = 10;

// The most that a field can tell.
const MOST_TOLD: u64 = 255 * 255 * MOST_WEIGHTS as u64;

/// The minute and the second that a frame's elements tell, if they are those of a second.
pub fn second_of(civil: &Civil, found: &[u8]) -> Option<(u32, u8)>
    requires { length found.now ≡ ELEMENTS }
    ensures second { IfSome result (λ s. IsSecond s.0 s.1) }
    ensures told { IfSome result (λ s. elements s.0 s.1 ≡ found.now) }
    ensures none { IfNone result (¬ (TellASecond found.now)) }
{
    let minute = told_minute(found);
    let second = sum_told(&SECOND, found);
    if minute >= CENTURY_MINUTES as u64 {
        return None;
    }
    let minute = minute as u32;
    if second >= minute_length(civil, minute) as u64 {
        return None;
    }
    let second = second as u8;
    let told_by_second = elements(civil, minute, second);
    if told_by_second.as_slice() != found {
        return None;
    }
    Some((minute, second))
}

// How many seconds a minute may have.
fn minute_length(civil: &Civil, minute: u32) -> u8
    requires { minute < century_minutes }
    ensures { result ≡ minute_length true minute }
{
    if civil.leap_end(minute) { 61 } else { 60 }
}

// The minute that elements tell, counted from 2000-01-01T00:00Z.
fn told_minute(found: &[u8]) -> u64
    requires { length found.now ≡ ELEMENTS }
    ensures { result ≡ told_minute found.now }
{
    let year = sum_told(&YEAR, found);
    let days = (new_year(year) + sum_told(&DAY_OF_YEAR, found)).saturating_sub(1);
    MINUTES_PER_DAY as u64 * days
        + MINUTES_PER_HOUR as u64 * sum_told(&HOUR, found)
        + sum_told(&MINUTE, found)
}

// The number of 1 January of a year after 2000, counted from 2000-01-01.
fn new_year(year: u64) -> u64
    requires { year ≤ MOST_TOLD }
    ensures value { result ≡ new_year year }
    ensures bound { result ≤ 366 * MOST_TOLD + 1 }
{
    365 * year + (year + 3) / 4
}

// What the elements of a field tell: the sum of the weights of its ones.
fn sum_told(weights: &[(u8, u8)], found: &[u8]) -> u64
    requires length { length found.now ≡ ELEMENTS }
    requires few { length weights.now ≤ MOST_WEIGHTS }
    requires places { IsTrue (list_all (λ w. nat_lt w.0 ELEMENTS) weights.now) }
    ensures value { result ≡ told weights.now found.now }
    ensures bound { result ≤ MOST_TOLD }
{
    let mut sum = 0;
    for weight in weights {
        sum += weighed(weight.1, found[weight.0 as usize]);
    }
    sum
}

// A weight, as often as an element says.
fn weighed(weight: u8, element: u8) -> u64
    ensures value { result ≡ weight * element }
    ensures bound { result ≤ 255 * 255 }
{
    weight as u64 * element as u64
}

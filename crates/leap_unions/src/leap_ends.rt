//! The minutes that may have a leap second.

ghost use Rattle.std.specs.Prelude.{ℕ, ◌≡◌, ◌<◌, ◌≤◌, false, true};
ghost use Rattle.definitions.specs.time.Calendar.{century_minutes, is_leap_end};

use civil::Civil;
use definitions::{CENTURY_DAYS, CENTURY_MINUTES, MINUTES_PER_DAY};

/// The minutes of the longest year.
pub const LONGEST_YEAR: u32 = 366 * MINUTES_PER_DAY;

/// The first minute from `t` on that may have a leap second, or the end of the century.
pub fn next_leap_end(civil: &Civil, t: u32) -> u32
    requires { t < century_minutes }
    ensures from { t ≤ result }
    ensures range { result ≤ century_minutes }
    ensures first { (u : ℕ) → t ≤ u → u < result → is_leap_end u ≡ false }
    ensures leap { result < century_minutes → is_leap_end result ≡ true }
{
    for day in t / MINUTES_PER_DAY..CENTURY_DAYS {
        let last = day * MINUTES_PER_DAY + (MINUTES_PER_DAY - 1);
        if civil.leap_end(last) {
            return last;
        }
    }
    CENTURY_MINUTES
}

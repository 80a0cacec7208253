//! Days on which nothing tells of a leap second, so that no announced sequence of theirs is legal. In most months so are all
//! days, which a search passes over together by a look at this.

ghost use Rattle.std.specs.Prelude.{ℕ, ◌≡◌, ◌+◌, ◌*◌, ◌<◌, ◌≤◌, IfOk, length, true};
ghost use Rattle.definitions.specs.time.Calendar.{century_days, minutes_per_day};
ghost use Rattle.field_tables.specs.Quiet.{AreQuiet, IsQuiet, NeverTell, NoneAnnounced};

use crate::leaps::meets_leap_end;
use crate::sums::WindowSums;
use civil::Civil;
use definitions::{CENTURY_DAYS, CENTURY_MINUTES, MINUTES_PER_DAY};
use std::alloc::{AllocError, Global};

/// The walks that begin in it reach furthest.
pub const LAST_SECOND: u8 = 59;

impl WindowSums<'_> {
    /// For each day of the century the minute in which the first day from it on begins of which it isn't known that no announced
    /// sequence is legal that begins on it, and the end of the century where there is none.
    pub fn quiet_days(&self, alloc: Global, civil: &Civil) -> Result<Vec<u32>, AllocError>
        ensures { IfOk result (λ loud. AreQuiet self.now.window loud.items) }
    {
        let mut loud = vec![in alloc; 0u32; CENTURY_DAYS as usize]?;
        self.fill(civil, loud.as_mut_slice());
        Ok(loud)
    }

    // Fills these minutes in, from the last day back.
    fn fill(&self, civil: &Civil, loud: &mut [u32])
        requires { length loud.old ≡ century_days }
        ensures count { length loud.new ≡ length loud.old }
        ensures quiet { AreQuiet self.now.window loud.new }
    {
        let mut next = CENTURY_MINUTES;
        let mut day = CENTURY_DAYS;
        while day > 0 {
            day -= 1;
            next = self.loud_from(civil, day, next);
            loud[day as usize] = next;
        }
    }

    // That minute of a day, where `next` is that of the next day.
    fn loud_from(&self, civil: &Civil, day: u32, next: u32) -> u32
        requires { day < century_days }
        ensures { NoneAnnounced self.now.window ((day + 1) * minutes_per_day) next → NoneAnnounced self.now.window (day * minutes_per_day) result }
    {
        if !self.is_quiet(civil, day) {
            return day * MINUTES_PER_DAY;
        }
        next
    }

    // Whether it is known of a day: none of its minutes has 61 seconds, nor has one in which a walk ends that begins on it, and
    // no station tells anything else in these minutes where a leap second is announced.
    fn is_quiet(&self, civil: &Civil, day: u32) -> bool
        requires { day < century_days }
        ensures { result ≡ true → IsQuiet self.now.window day }
    {
        let lo = day * MINUTES_PER_DAY;
        let end = lo + MINUTES_PER_DAY + self.later_minutes(LAST_SECOND);
        if end > self.end() {
            return false;
        }
        if meets_leap_end(civil, lo, end) {
            return false;
        }
        self.never_tells(lo, end - 1)
    }

    // Whether it is known that nothing tells of a leap second from the minute `lo` to the minute `last`.
    fn never_tells(&self, lo: u32, last: u32) -> bool
        requires order { lo ≤ last }
        requires encoded { last < self.now.end }
        ensures { result ≡ true → NeverTell self.now lo last }
    {
        // The sums are those of a window, as their end says.
        self.end();
        for station in &self.stations {
            if !station.walks().never_shows(lo, last) {
                return false;
            }
        }
        true
    }
}

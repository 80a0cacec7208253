//! Where leap seconds may be inserted, and what announced sequences cost that begin shortly before.

ghost use Rattle.std.specs.Prelude.{◌≡◌, ◌+◌, ◌<◌, ◌≤◌, ◌↔◌, ℕ, IfSome, false, true};
ghost use Rattle.signal_base.specs.declared.limits.TheConstants.{GREATEST_COST};
ghost use Rattle.definitions.specs.answers.Blocks.{IsBlock, IsMinuteBound, first_of};
ghost use Rattle.definitions.specs.heard.Costs.{sequence_cost};
ghost use Rattle.definitions.specs.sequences.Walks.{IsLegal};
ghost use Rattle.definitions.specs.time.Calendar.{century_minutes, is_leap_end};
ghost use Rattle.minute_parts.specs.Walks.{later_minutes};
ghost use Rattle.slot_columns.specs.declared.limits.TheConstants.{SECONDS_PER_MINUTE};
ghost use Rattle.field_tables.specs.Blocks.{AreMinutesOf};
ghost use Rattle.field_tables.specs.Sums.{costs_by};

use crate::minute::bound_if;
use crate::sums::WindowSums;
use civil::Civil;
use definitions::{Block, MINUTES_PER_DAY};
use slot_columns::SECONDS_PER_MINUTE;

/// Whether one of the minutes from `lo` up to, and without, `end` is the last one of a 30 June or a 31 December.
pub fn meets_leap_end(civil: &Civil, lo: u32, end: u32) -> bool
    requires { end ≤ century_minutes + 20 }
    ensures { result ≡ false → (t : ℕ) → lo ≤ t → t < end → is_leap_end t ≡ false }
{
    let first = lo / MINUTES_PER_DAY;
    let days = end / MINUTES_PER_DAY;
    // The last day first, as years and leap months end with a leap end.
    for i in first..days {
        let day = days - 1 - (i - first);
        if civil.leap_end(day * MINUTES_PER_DAY + (MINUTES_PER_DAY - 1)) {
            return true;
        }
    }
    false
}

impl WindowSums<'_> {
    /// The bound of an announced minute whose walk may meet a leap second, where the stations know at once what it costs them:
    /// the sequence is legal where it shows the announcement at some station.
    pub fn leap_minute_bound(&self, minute: &Block) -> Option<Option<u32>>
        requires block { IsBlock self.now.window minute.now }
        requires announced { minute.now.announced ≡ true }
        ensures bound { IfSome result (IsMinuteBound (costs_by self.now) self.now.window minute.now) }
        ensures small { IfSome result (λ bound. IfSome bound (λ n. n ≤ GREATEST_COST)) }
    {
        let cost = self.leap_minute_cost(minute)?;
        let legal = self.leap_minute_is_legal(minute)?;
        Some(bound_if(legal, cost))
    }

    /// What its sequence costs, where the stations know that at once.
    pub fn leap_minute_cost(&self, minute: &Block) -> Option<u32>
        requires block { AreMinutesOf self.now.window minute.now }
        requires announced { minute.now.announced ≡ true }
        ensures cost { IfSome result (λ cost. cost ≡ sequence_cost (costs_by self.now) self.now.window (first_of minute.now)) }
        ensures small { IfSome result (λ cost. cost ≤ GREATEST_COST) }
    {
        // The sums are those of a window, as their end says, and its range ends with the century.
        self.end();
        if !self.may_be_leap_walk(minute) {
            return None;
        }
        let mut total = 0;
        for station in &self.stations {
            let Some(cost) = station.leap_cost(minute.second, minute.lo) else {
                return None;
            };
            total += cost;
        }
        Some(total)
    }

    // Whether its sequence is legal, where they know that.
    fn leap_minute_is_legal(&self, minute: &Block) -> Option<bool>
        requires block { IsBlock self.now.window minute.now }
        requires announced { minute.now.announced ≡ true }
        ensures { IfSome result (λ legal. legal ≡ true ↔ IsLegal self.now.window (first_of minute.now)) }
    {
        // The same.
        self.end();
        if !self.may_be_leap_walk(minute) {
            return None;
        }
        let mut legal = false;
        for station in &self.stations {
            let Some(shows) = station.leap_shows(minute.second, minute.lo) else {
                return None;
            };
            legal |= shows;
        }
        Some(legal)
    }

    // Whether its walk begins in no leap second, and ends before the first minute that not all stations can encode.
    fn may_be_leap_walk(&self, minute: &Block) -> bool
        requires { minute.now.lo < century_minutes }
        ensures second { result ≡ true → minute.now.second < SECONDS_PER_MINUTE }
        ensures early { result ≡ true → minute.now.lo + later_minutes self.now.window.seconds minute.now.second < self.now.end }
    {
        let p = minute.second;
        if p as usize >= SECONDS_PER_MINUTE {
            return false;
        }
        if minute.lo + self.later_minutes(p) >= self.end() {
            return false;
        }
        true
    }
}

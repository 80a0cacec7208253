//! Floors of blocks: what no legal sequence of a block costs less than.

ghost use Rattle.std.specs.Prelude.{ℕ, ◌≡◌, ◌+◌, ◌*◌, ◌/◌, ◌<◌, ◌≤◌, IfSome, Some, true};
ghost use Rattle.signal_base.specs.declared.limits.TheConstants.{GREATEST_COST};
ghost use Rattle.slot_columns.specs.declared.limits.TheConstants.{SECONDS_PER_MINUTE};
ghost use Rattle.definitions.specs.answers.Blocks.{IsBlock};
ghost use Rattle.definitions.specs.heard.Costs.{sequence_cost};
ghost use Rattle.definitions.specs.sequences.Walks.{ShowsLeap};
ghost use Rattle.definitions.specs.time.Calendar.{minute_length};
ghost use Rattle.minute_parts.specs.Walks.{reach};
ghost use Rattle.field_tables.specs.Blocks.{AreMinutesOf, HasShortWalks};
ghost use Rattle.field_tables.specs.Floors.{IsFloor, lesser, piece};
ghost use Rattle.field_tables.specs.Quiet.{NoneAnnounced};
ghost use Rattle.field_tables.specs.Minutes.{sequence_at};
ghost use Rattle.field_tables.specs.Scored.{costs_of};
ghost use Rattle.field_tables.specs.Sums.{costs_by};

use crate::leaps::meets_leap_end;
use crate::quiet::LAST_SECOND;
use crate::sums::WindowSums;
use crate::tables::Tables;
use civil::Civil;
use definitions::{Block, MINUTES_PER_DAY, MINUTES_PER_HOUR, Span};
use signal_base::GREATEST_COST;
use slot_columns::SECONDS_PER_MINUTE;

// Walks that begin in so many minutes are looked at together.
const FEW: u32 = 2;

impl<'a> Tables<'a> {
    /// A floor of a block of the window: no legal sequence of it costs less. It is at most 1,920,000,000, and may be less than
    /// what any of them costs. None where it is known that no sequence of the block is legal. What takes longer is left out
    /// where the floor is above `enough` without it.
    pub fn floor(&self, block: &Block, enough: u32) -> Option<u32>
        requires { IsBlock self.now.window block.now }
        ensures floor { IsFloor (costs_of self.now) self.now.window block.now result }
        ensures small { IfSome result (λ n. n ≤ GREATEST_COST) }
    {
        if block.announced && block.hi - block.lo > MINUTES_PER_DAY {
            return self.floor_of_announced_days(block, enough);
        }
        if block.announced && self.is_in_quiet_days(block) {
            return None;
        }
        self.sums.floor(self.civil, block, enough)
    }

    // That of many announced days: the least of those of the days on which something may tell of a leap second. It is 0 where that of
    // one of these isn't above `enough`.
    fn floor_of_announced_days(&self, block: &Block, enough: u32) -> Option<u32>
        requires block { AreMinutesOf self.now.window block.now }
        requires announced { block.now.announced ≡ true }
        ensures floor { IsFloor (costs_of self.now) self.now.window block.now result }
        ensures small { IfSome result (λ n. n ≤ GREATEST_COST) }
    {
        // The range of a window ends with the century.
        self.window();
        let mut floor = None;
        let mut t = self.behind_quiet_days(block.lo, block.hi);
        while t < block.hi {
            let end = block.hi.min((t / MINUTES_PER_DAY + 1) * MINUTES_PER_DAY);
            let least = self.floor_of_minutes(block, t, end, enough);
            if !is_above(least, enough) {
                return Some(0);
            }
            floor = lesser(floor, least);
            t = self.behind_quiet_days(end, block.hi);
        }
        floor
    }

    // That of the sequences of a block that begin in some of its minutes.
    fn floor_of_minutes(&self, block: &Block, lo: u32, hi: u32, enough: u32) -> Option<u32>
        requires block { AreMinutesOf self.now.window block.now }
        requires begun { block.now.lo ≤ lo }
        requires some { lo < hi }
        requires within { hi ≤ block.now.hi }
        ensures floor { IsFloor (costs_of self.now) self.now.window (piece block.now lo hi) result }
        ensures small { IfSome result (λ n. n ≤ GREATEST_COST) }
    {
        let minutes = Block {
            announced: block.announced,
            second: block.second,
            span: block.span,
            lo,
            hi,
        };
        self.sums.floor(self.civil, &minutes, enough)
    }

    // Whether all sequences of the block begin on days of which it is known that no announced one is legal.
    #[inline(always)]
    fn is_in_quiet_days(&self, block: &Block) -> bool
        requires { block.now.lo < block.now.hi }
        ensures { result ≡ true → NoneAnnounced self.now.window block.now.lo block.now.hi }
    {
        self.behind_quiet_days(block.lo, block.hi) == block.hi
    }

    // The first minute from `t` on, and `hi` at the latest, of a day of which it isn't known that no announced sequence is legal.
    #[inline(always)]
    fn behind_quiet_days(&self, t: u32, hi: u32) -> u32
        requires { t ≤ hi }
        ensures begun { t ≤ result }
        ensures within { result ≤ hi }
        ensures quiet { NoneAnnounced self.now.window t result }
    {
        let day = (t / MINUTES_PER_DAY) as usize;
        if day >= self.loud.len() {
            return t;
        }
        self.loud[day].min(hi).max(t)
    }
}

impl WindowSums<'_> {
    /// A floor of a block. It is 0 where its walks may meet a minute that a station can't encode, or where it isn't known at
    /// once what walks cost that may meet a leap second.
    #[inline(always)]
    pub fn floor(&self, civil: &Civil, block: &Block, enough: u32) -> Option<u32>
        requires { AreMinutesOf self.now.window block.now }
        ensures floor { IsFloor (costs_by self.now) self.now.window block.now result }
        ensures small { IfSome result (λ n. n ≤ GREATEST_COST) }
    {
        if self.has_no_first_second(civil, block) {
            return None;
        }
        if self.has_regular_walks(civil, block) {
            return self.regular_floor(block, enough);
        }
        self.floor_at_leap_end(civil, block, enough)
    }

    // That of a block whose walks have 60 seconds in each minute and can be encoded by each station.
    #[inline(always)]
    fn regular_floor(&self, block: &Block, enough: u32) -> Option<u32>
        requires block { AreMinutesOf self.now.window block.now }
        requires walks { HasShortWalks self.now.window block.now }
        requires encoded { block.now.hi + reach self.now.window block.now ≤ self.now.end }
        ensures floor { IsFloor (costs_by self.now) self.now.window block.now result }
        ensures small { IfSome result (λ n. n ≤ GREATEST_COST) }
    {
        // The sums are those of a window, as their end says.
        self.end();
        if block.announced && self.never_shows(block) {
            return None;
        }
        Some(self.least_cost(block, enough))
    }

    // That of a block whose last walks may meet a leap second: what the first walks cost at the least, and the last ones. Of a longer
    // block than an hour it is 0 where the first walks alone cost no more than `enough`.
    fn floor_at_leap_end(&self, civil: &Civil, block: &Block, enough: u32) -> Option<u32>
        requires { AreMinutesOf self.now.window block.now }
        ensures floor { IsFloor (costs_by self.now) self.now.window block.now result }
        ensures small { IfSome result (λ n. n ≤ GREATEST_COST) }
    {
        // The range of a window ends with the century.
        self.end();
        if !block.announced || block.second as usize >= SECONDS_PER_MINUTE {
            return Some(0);
        }
        let last = self.later_minutes(LAST_SECOND) + 1;
        let cut = block.hi.saturating_sub(last).max(block.lo);
        let front = self.floor_before(civil, block, cut, enough);
        if block.hi - block.lo > MINUTES_PER_HOUR && !is_above(front, enough) {
            return Some(0);
        }
        lesser(front, Some(self.floor_from(block, cut, enough)))
    }

    // That of the minutes from this one on: what all their sequences carry together costs, or, where that isn't above `enough`, the
    // least that few of them do.
    fn floor_from(&self, block: &Block, cut: u32, enough: u32) -> u32
        requires block { AreMinutesOf self.now.window block.now }
        requires announced { block.now.announced ≡ true }
        requires second { block.now.second < SECONDS_PER_MINUTE }
        requires begun { block.now.lo ≤ cut }
        requires within { cut ≤ block.now.hi }
        ensures floor { IsFloor (costs_by self.now) self.now.window (piece block.now cut block.now.hi) (Some result) }
        ensures small { result ≤ GREATEST_COST }
    {
        // The range of a window ends with the century.
        self.end();
        let all = self.floor_together(block, cut, block.hi);
        if all > enough {
            return all;
        }
        let mut least = GREATEST_COST;
        let mut t = cut;
        while t < block.hi {
            let end = block.hi.min(t + FEW);
            least = least.min(self.floor_of_few(block, t, end, enough));
            t = end;
        }
        least
    }

    // The same of few minutes: or else the least that one of them does.
    fn floor_of_few(&self, block: &Block, lo: u32, hi: u32, enough: u32) -> u32
        requires block { AreMinutesOf self.now.window block.now }
        requires announced { block.now.announced ≡ true }
        requires second { block.now.second < SECONDS_PER_MINUTE }
        requires begun { block.now.lo ≤ lo }
        requires order { lo ≤ hi }
        requires within { hi ≤ block.now.hi }
        ensures floor { IsFloor (costs_by self.now) self.now.window (piece block.now lo hi) (Some result) }
        ensures small { result ≤ GREATEST_COST }
    {
        let all = self.floor_together(block, lo, hi);
        if all > enough {
            return all;
        }
        let mut least = GREATEST_COST;
        for t in lo..hi {
            least = least.min(self.floor_of_minute(block, t));
        }
        least
    }

    // What the sequences of some minutes carry together costs. It is 0 where the stations don't know that at once.
    fn floor_together(&self, block: &Block, lo: u32, hi: u32) -> u32
        requires announced { block.now.announced ≡ true }
        requires second { block.now.second < SECONDS_PER_MINUTE }
        ensures floor { IsFloor (costs_by self.now) self.now.window (piece block.now lo hi) (Some result) }
        ensures small { result ≤ GREATEST_COST }
    {
        let mut all = 0;
        for station in &self.stations {
            let Some(floor) = station.leap_floor(block.second, lo, hi) else {
                return 0;
            };
            all += floor;
        }
        all
    }

    // That of the minutes before this one.
    fn floor_before(&self, civil: &Civil, block: &Block, cut: u32, enough: u32) -> Option<u32>
        requires block { AreMinutesOf self.now.window block.now }
        requires begun { block.now.lo ≤ cut }
        requires within { cut ≤ block.now.hi }
        ensures floor { IsFloor (costs_by self.now) self.now.window (piece block.now block.now.lo cut) result }
        ensures small { IfSome result (λ n. n ≤ GREATEST_COST) }
    {
        if cut <= block.lo {
            return None;
        }
        let front = Block {
            announced: block.announced,
            second: block.second,
            span: block.span,
            lo: block.lo,
            hi: cut,
        };
        if !self.has_regular_walks(civil, &front) {
            return Some(0);
        }
        self.regular_floor(&front, enough)
    }

    // That of one minute, whose walk may meet a leap second: what its sequence costs, legal or not. It is 0 where that isn't known
    // at once.
    fn floor_of_minute(&self, block: &Block, t: u32) -> u32
        requires block { AreMinutesOf self.now.window block.now }
        requires announced { block.now.announced ≡ true }
        requires begun { block.now.lo ≤ t }
        requires within { t < block.now.hi }
        ensures floor { IsFloor (costs_by self.now) self.now.window (piece block.now t (t + 1)) (Some result) }
        ensures small { result ≤ GREATEST_COST }
    {
        // The range of a window ends with the century.
        self.end();
        let minute = Block {
            announced: block.announced,
            second: block.second,
            span: Span::Minute,
            lo: t,
            hi: t + 1,
        };
        let Some(cost) = self.leap_minute_cost(&minute) else {
            return 0;
        };
        cost
    }

    // Whether the sequences of a block would begin with a second that none of its minutes has.
    fn has_no_first_second(&self, civil: &Civil, block: &Block) -> bool
        requires { AreMinutesOf self.now.window block.now }
        ensures { result ≡ true → (t : ℕ) → block.now.lo ≤ t → t < block.now.hi → minute_length block.now.announced t ≤ block.now.second }
    {
        // The sums are those of a window, as their end says.
        self.end();
        if (block.second as usize) < SECONDS_PER_MINUTE {
            return false;
        }
        !meets_leap_end(civil, block.lo, block.hi)
    }

    // Whether it is known of an announced block that none of its sequences shows the announcement.
    fn never_shows(&self, block: &Block) -> bool
        requires announced { block.now.announced ≡ true }
        requires order { block.now.lo < block.now.hi }
        requires walks { HasShortWalks self.now.window block.now }
        requires encoded { block.now.hi + reach self.now.window block.now ≤ self.now.end }
        ensures { result ≡ true → (t0 : ℕ) → block.now.lo ≤ t0 → t0 < block.now.hi → ¬ (ShowsLeap self.now.window (sequence_at block.now t0)) }
    {
        for station in &self.stations {
            if !station.never_shows(block) {
                return false;
            }
        }
        true
    }

    // What none of the block's sequences costs less than: what the times of day cost all stations together, with each station's dates, or
    // where that isn't known the sum of the stations' floors.
    fn least_cost(&self, block: &Block, enough: u32) -> u32
        requires order { block.now.lo < block.now.hi }
        requires walks { HasShortWalks self.now.window block.now }
        requires encoded { block.now.hi + reach self.now.window block.now ≤ self.now.end }
        ensures floor { (t0 : ℕ) → block.now.lo ≤ t0 → t0 < block.now.hi
            → result ≤ sequence_cost (costs_by self.now) self.now.window (sequence_at block.now t0) }
        ensures small { result ≤ GREATEST_COST }
    {
        if let Some(floor) = self.floor_by_season(block, enough) {
            return floor;
        }
        let enough = self.enough_for_each(block, enough);
        let mut total = 0;
        for station in &self.stations {
            total += station.floor(block, enough);
        }
        total
    }

    // What is enough for the floor of one station. Of several it isn't known: in an hour nothing is, and of a longer block what
    // comes at once, since its hours have floors too.
    fn enough_for_each(&self, block: &Block, enough: u32) -> u32
        requires { block.now.lo < block.now.hi }
    {
        if self.stations.len() == 1 {
            return enough;
        }
        if block.hi - block.lo <= MINUTES_PER_HOUR {
            return u32::MAX;
        }
        0
    }
}

// Whether a floor is above a cost.
fn is_above(floor: Option<u32>, cost: u32) -> bool {
    match floor {
        Some(floor) => floor > cost,
        None => true,
    }
}

// The lesser of two floors.
fn lesser(one: Option<u32>, other: Option<u32>) -> Option<u32>
    ensures floor { result ≡ lesser one other }
    ensures small { IfSome one (λ n. n ≤ GREATEST_COST) → IfSome other (λ n. n ≤ GREATEST_COST) → IfSome result (λ n. n ≤ GREATEST_COST) }
{
    match (one, other) {
        (Some(one), Some(other)) => Some(one.min(other)),
        (None, floor) | (floor, None) => floor,
    }
}

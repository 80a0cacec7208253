//! The bound of a minute whose walk has 60 seconds in each minute.

ghost use Rattle.std.specs.Prelude.{◌≡◌, ◌+◌, ◌<◌, ◌≤◌, ◌↔◌, IfSome, IsTrue, Some, None, if◌then◌else◌, true};
ghost use Rattle.signal_base.specs.declared.limits.TheConstants.{GREATEST_COST};
ghost use Rattle.definitions.specs.answers.Blocks.{IsMinuteBound, first_of};
ghost use Rattle.definitions.specs.heard.Costs.{sequence_cost};
ghost use Rattle.definitions.specs.sequences.Walks.{ShowsLeap};
ghost use Rattle.minute_parts.specs.Walks.{reach};
ghost use Rattle.field_tables.specs.Blocks.{AreMinutesOf, HasShortWalks};
ghost use Rattle.field_tables.specs.Sums.{costs_by};

use crate::sums::WindowSums;
use block_costs::Walks;
use civil::Civil;
use definitions::Block;

impl WindowSums<'_> {
    /// Whether it is known that the walks of a block have 60 seconds in each minute and can be encoded by each station.
    pub fn has_regular_walks(&self, civil: &Civil, block: &Block) -> bool
        requires { AreMinutesOf self.now.window block.now }
        ensures short { result ≡ true → HasShortWalks self.now.window block.now }
        ensures encoded { result ≡ true → block.now.hi + reach self.now.window block.now ≤ self.now.end }
    {
        if !self.has_short_walks(civil, block) {
            return false;
        }
        block.hi + self.later_minutes(block.second) <= self.end
    }

    /// The bound of a minute whose walk has 60 seconds in each minute and can be encoded by each station: what its sequence
    /// costs. None exactly where that isn't legal.
    pub fn minute_bound(&self, minute: &Block) -> Option<u32>
        requires block { AreMinutesOf self.now.window minute.now }
        requires walks { HasShortWalks self.now.window minute.now }
        requires encoded { minute.now.hi + reach self.now.window minute.now ≤ self.now.end }
        ensures bound { IsMinuteBound (costs_by self.now) self.now.window minute.now result }
        ensures small { IfSome result (λ n. n ≤ GREATEST_COST) }
    {
        // The sums are those of a window, as their end says.
        self.end();
        if minute.announced {
            return self.announced_bound(minute);
        }
        Some(self.minute_cost(minute))
    }

    // The same where a leap second is announced: then the sequence is legal that shows this at some station.
    fn announced_bound(&self, minute: &Block) -> Option<u32>
        requires announced { minute.now.announced ≡ true }
        requires block { AreMinutesOf self.now.window minute.now }
        requires walks { HasShortWalks self.now.window minute.now }
        requires encoded { minute.now.hi + reach self.now.window minute.now ≤ self.now.end }
        ensures bound { IsMinuteBound (costs_by self.now) self.now.window minute.now result }
        ensures small { IfSome result (λ n. n ≤ GREATEST_COST) }
    {
        self.end();
        if !self.shows(minute) {
            return None;
        }
        Some(self.minute_cost(minute))
    }

    // What its sequence costs.
    fn minute_cost(&self, minute: &Block) -> u32
        requires some { minute.now.lo < minute.now.hi }
        requires walks { HasShortWalks self.now.window minute.now }
        requires encoded { minute.now.hi + reach self.now.window minute.now ≤ self.now.end }
        ensures cost { result ≡ sequence_cost (costs_by self.now) self.now.window (first_of minute.now) }
        ensures small { result ≤ GREATEST_COST }
    {
        let mut total = 0;
        for station in &self.stations {
            let one = Walks {
                station: station.walks(),
                announced: minute.announced,
                second: minute.second,
                lo: minute.lo,
                hi: minute.lo + 1,
            };
            total += one.first_cost();
        }
        total
    }

    // Whether its sequence, which announces a leap second, shows that.
    fn shows(&self, minute: &Block) -> bool
        requires announced { minute.now.announced ≡ true }
        requires some { minute.now.lo < minute.now.hi }
        requires walks { HasShortWalks self.now.window minute.now }
        requires encoded { minute.now.hi + reach self.now.window minute.now ≤ self.now.end }
        ensures { IsTrue result ↔ ShowsLeap self.now.window (first_of minute.now) }
    {
        self.end();
        let mut shows = false;
        for station in &self.stations {
            let walks = station.walks();
            shows |= walks.shows_by_minutes(minute.second, minute.lo);
        }
        shows
    }
}

/// The bound of a minute that costs so much, if it is legal.
pub fn bound_if(legal: bool, cost: u32) -> Option<u32>
    ensures { result ≡ (if legal then Some cost else None) }
{
    if legal { Some(cost) } else { None }
}

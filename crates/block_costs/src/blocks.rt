//! The tables of a station's blocks.

ghost use Rattle.std.specs.Prelude.{ℕ, ◌≡◌, ◌+◌, ◌≤◌, IfOk, false, length};
ghost use Rattle.slot_columns.specs.Parts.{most_cost};
ghost use Rattle.block_costs.specs.Blocks.{AreUnionsOfWalks, unions_cost};
ghost use Rattle.block_costs.specs.Hours.{IsHourCost};
ghost use Rattle.minute_parts.specs.declared.hour_layers.TheConstants.{HOUR_MINUTES};

use crate::kept::{Kept, YEAR_DAYS, is_kept, kept_days, kept_years};
use crate::local_hours::{Hours, hours_of};
use crate::walks::Walks;
use definitions::{CENTURY_DAYS, MINUTES_PER_DAY};
use minute_parts::HOUR_MINUTES;
use std::alloc::{AllocError, Global};
use std::marker::Model;
use walk_costs::StationWalks;

/// What the blocks of a search cost one station. Contracts see the parts of its telegrams and the grid of costs, as with
/// the walks.
#[derive(Drop)]
pub struct StationBlocks<'a> {
    walks: StationWalks<'a>,
    days: Kept,
    years: Kept,
    hours: Hours,
}

impl<'a> Model for StationBlocks<'a> {
    ghost use Rattle.walk_costs.specs.Walks.{PricedParts};

    ghost Value = { PricedParts };

    ghost use Rattle.block_costs.specs.Hours.{AreHours};
    ghost use Rattle.block_costs.specs.Keeping.{AreKept};

    ghost view = { λ b. b.walks };

    ghost invariant = { λ b. AreKept b.walks b.days.ranges.items b.days.costs × AreKept b.walks b.years.ranges.items b.years.costs
        × AreHours b.walks b.hours.begin b.hours.call b.hours.firsts.items b.hours.rests.items b.hours.costs.items };
}

impl<'a> StationBlocks<'a> {
    /// Makes ready for the blocks of walks that cost this. What whole days cost is kept where that is asked: it takes longer than
    /// all else here, and a search that passes days over by their floors asks for few of them.
    pub fn make(
        alloc: Global,
        walks: StationWalks<'a>,
        keep_days: bool,
    ) -> Result<StationBlocks<'a>, AllocError>
        ensures { IfOk result (λ blocks. blocks ≡ walks.entry) }
    {
        let days = if keep_days { CENTURY_DAYS } else { 0 };
        let days = kept_days(alloc, &walks, days)?;
        let years = kept_years(alloc, &walks)?;
        let hours = hours_of(alloc, &walks)?;
        Ok(StationBlocks {
            walks,
            days,
            years,
            hours,
        })
    }

    /// What the station's sequences cost one by one.
    pub fn walks(&self) -> &StationWalks<'a>
        ensures { result.now ≡ self.now }
    {
        &self.walks
    }

    /// What the unions cost over some walks of the station.
    pub fn union_cost(&self, walks: &Walks<'_>) -> u32
        requires { walks.now.station.now ≡ self.now }
        ensures cost { (sets : ℕ → ℕ) → AreUnionsOfWalks self.now.grid.station walks.now.announced walks.now.second walks.now.lo walks.now.hi (length self.now.grid.rows) sets
            → result ≡ unions_cost self.now.grid sets }
        ensures bound { result ≤ most_cost self.now.grid }
    {
        if !walks.announced {
            return self.unannounced_cost(walks);
        }
        // What ends before the parts' end fits.
        self.walks.parts().end();
        let last = walks.hi - 1 + self.walks.later_minutes(walks.second);
        if self.walks.never_shows(walks.lo, last) {
            let alike = Walks {
                station: walks.station,
                announced: false,
                second: walks.second,
                lo: walks.lo,
                hi: walks.hi,
            };
            return self.unannounced_cost(&alike);
        }
        if walks.hi - walks.lo == HOUR_MINUTES as u32 {
            return self.hour_cost(walks);
        }
        walks.cost_as_asked()
    }

    // The same where no leap second is announced.
    fn unannounced_cost(&self, walks: &Walks<'_>) -> u32
        requires of { walks.now.station.now ≡ self.now }
        requires unannounced { walks.now.announced ≡ false }
        ensures cost { (sets : ℕ → ℕ) → AreUnionsOfWalks self.now.grid.station false walks.now.second walks.now.lo walks.now.hi (length self.now.grid.rows) sets
            → result ≡ unions_cost self.now.grid sets }
        ensures bound { result ≤ most_cost self.now.grid }
    {
        let day = (walks.lo / MINUTES_PER_DAY) as usize;
        if is_kept(&self.days, day, walks.lo, walks.hi) {
            return self.days.costs.cost(day, walks.second);
        }
        if walks.hi - walks.lo == HOUR_MINUTES as u32 {
            return self.hour_cost(walks);
        }
        let year = day / YEAR_DAYS as usize;
        if is_kept(&self.years, year, walks.lo, walks.hi) {
            return self.years.costs.cost(year, walks.second);
        }
        walks.cost_as_asked()
    }

    // The same of an hour: by what is kept, or else by unions that are made for it.
    fn hour_cost(&self, walks: &Walks<'_>) -> u32
        requires of { walks.now.station.now ≡ self.now }
        requires hour { walks.now.hi ≡ walks.now.lo + HOUR_MINUTES }
        ensures { IsHourCost self.now walks.now.announced walks.now.second walks.now.lo result }
    {
        if let Some(cost) = self.hours.in_run(walks) {
            return cost;
        }
        walks.cost_as_asked()
    }
}

//! What the sequences of a block cost at the least, by sums.

ghost use Rattle.std.specs.Prelude.{◌≡◌, ◌+◌, ◌<◌, ◌≤◌, ℕ, IfSome, true};
ghost use Rattle.signal_base.specs.declared.station.Station.{Station};
ghost use Rattle.definitions.specs.answers.Blocks.{IsBlock, IsUnionBound, union_cost};
ghost use Rattle.slot_columns.specs.declared.limits.TheConstants.{SECONDS_PER_MINUTE};
ghost use Rattle.minute_parts.specs.Unions.{AreRegular};
ghost use Rattle.minute_parts.specs.Walks.{reach};
ghost use Rattle.field_tables.specs.Blocks.{AreUnionsOver, HasShortWalks};
ghost use Rattle.field_tables.specs.Sums.{costs_by};

use crate::sums::WindowSums;
use block_costs::Walks;
use civil::Civil;
use definitions::Block;
use signal_base::GREATEST_COST;

impl WindowSums<'_> {
    /// What the unions of a block cost whose walks have 60 seconds in each minute. None exactly where none of its sequences
    /// is walkable.
    pub fn union_bound(&self, block: &Block) -> Option<u32>
        requires block { IsBlock self.now.window block.now }
        requires walks { HasShortWalks self.now.window block.now }
        ensures bound { IsUnionBound (costs_by self.now) self.now.window block.now result }
        ensures small { IfSome result (λ n. n ≤ GREATEST_COST) }
    {
        let reach = self.later_minutes(block.second);
        let hi = block.hi.min(self.end.saturating_sub(reach));
        if hi <= block.lo {
            return None;
        }
        Some(self.cost_of_unions(block, hi))
    }

    // What the unions cost of the sequences that begin before `hi`.
    fn cost_of_unions(&self, block: &Block, hi: u32) -> u32
        requires second { block.now.second < SECONDS_PER_MINUTE }
        requires some { block.now.lo < hi }
        requires regular { AreRegular block.now.announced block.now.lo (hi + reach self.now.window block.now) self.now.end }
        ensures cost { (unions : Station → ℕ → ℕ) → AreUnionsOver self.now.window block.now hi unions
            → result ≡ union_cost (costs_by self.now) self.now.window unions }
        ensures bound { result ≤ GREATEST_COST }
    {
        let mut total = 0;
        for station in &self.stations {
            let blocks = station.blocks();
            let all = Walks {
                station: blocks.walks(),
                announced: block.announced,
                second: block.second,
                lo: block.lo,
                hi,
            };
            total += blocks.union_cost(&all);
        }
        total
    }

    /// What the unions of an announced block cost, whether its walks meet a leap second or not. None exactly where none of
    /// its sequences is walkable.
    pub fn leap_bound(&self, civil: &Civil, block: &Block) -> Option<u32>
        requires block { IsBlock self.now.window block.now }
        requires announced { block.now.announced ≡ true }
        ensures bound { IsUnionBound (costs_by self.now) self.now.window block.now result }
        ensures small { IfSome result (λ n. n ≤ GREATEST_COST) }
    {
        let mut total = 0;
        for station in &self.stations {
            let Some(sets) = station.leap_unions(civil, &self.window, self.end, block) else {
                return None;
            };
            total += station.walks().columns().sets_cost(&sets);
        }
        Some(total)
    }
}

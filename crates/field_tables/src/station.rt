//! What one station of a window may send, and what that costs.

ghost use Rattle.std.specs.Prelude.{ℕ, ◌≡◌, ◌+◌, ◌<◌, ◌≤◌, ◌↔◌, ◌&&◌, Bool, IfOk, IfSome, MatchOption, false, length, slice_index, true};
ghost use Rattle.definitions.specs.codes.Allowed.{CanBeEncoded, has_station};
ghost use Rattle.definitions.specs.answers.Blocks.{HasWalk, IsBlock, IsUnion};
ghost use Rattle.definitions.specs.heard.Dut1.{has_dut1};
ghost use Rattle.definitions.specs.sequences.Windows.{IsWindow};
ghost use Rattle.slot_columns.specs.declared.limits.TheConstants.{SECONDS_PER_MINUTE};
ghost use Rattle.minute_parts.specs.Unions.{AreRegular};
ghost use Rattle.minute_parts.specs.Walks.{later_minutes};
ghost use Rattle.slot_columns.specs.Parts.{most_cost};
ghost use Rattle.walk_costs.specs.Walks.{ShowsAnnouncement, cost_of};
ghost use Rattle.field_tables.specs.Minutes.{sequence_at};
ghost use Rattle.field_tables.specs.Sums.{IsOf};

use crate::parts::StationParts;
use block_costs::StationBlocks;
use civil::Civil;
use definitions::Block;
use leap_unions::{LeapUnions, Sets};
use signal_base::{Station, Window};
use std::alloc::{AllocError, Global};
use std::marker::Model;
use symbol_cost::CostGrid;
use walk_costs::StationWalks;

/// A station's walks and blocks with what they cost. Contracts see the parts of its telegrams and the grid of costs.
#[derive(Drop)]
pub struct StationSums<'a> {
    blocks: StationBlocks<'a>,
    leaps: &'a LeapUnions,
}

impl<'a> Model for StationSums<'a> {
    ghost use Rattle.std.specs.Prelude.{◌≡◌, length};
    ghost use Rattle.walk_costs.specs.Walks.{PricedParts};

    ghost Value = { PricedParts };

    ghost view = { λ s. s.blocks };

    ghost invariant = { λ s. (s.leaps.now.station ≡ s.blocks.parts.station) × (s.leaps.now.seconds ≡ length s.blocks.grid.rows) };
}

impl<'a> StationSums<'a> {
    /// Makes the sums of a grid, by the parts of its station and length, with what whole days cost where that is to be kept.
    pub fn make(
        alloc: Global,
        parts: &'a StationParts,
        grid: &CostGrid,
        keep_days: bool,
    ) -> Result<StationSums<'a>, AllocError>
        requires station { parts.now.station ≡ grid.now.station }
        requires seconds { parts.now.seconds ≡ length grid.now.rows }
        ensures { IfOk result (IsOf grid.now) }
    {
        // They are a table, as their end is one.
        parts.unions.parts().end();
        let walks = StationWalks::make(alloc, &parts.unions, grid)?;
        let blocks = StationBlocks::make(alloc, walks, keep_days)?;
        Ok(StationSums {
            blocks,
            leaps: &parts.leaps,
        })
    }

    /// What the station's sequences cost one by one.
    pub fn walks(&self) -> &StationWalks<'a>
        ensures { result.now ≡ self.now }
    {
        self.blocks.walks()
    }

    /// What the blocks cost whose walks have 60 seconds in each minute.
    pub fn blocks(&self) -> &StationBlocks<'a>
        ensures { result.now ≡ self.now }
    {
        &self.blocks
    }

    /// Whether it is known of an announced block that none of its sequences shows the announcement at the station.
    pub fn never_shows(&self, block: &Block) -> bool
        requires announced { block.now.announced ≡ true }
        requires second { block.now.second < SECONDS_PER_MINUTE }
        requires order { block.now.lo < block.now.hi }
        requires regular { AreRegular true block.now.lo (block.now.hi + later_minutes (length self.now.grid.rows) block.now.second) self.now.parts.end }
        ensures { result ≡ true → (t0 : ℕ) → block.now.lo ≤ t0 → t0 < block.now.hi → ¬ (ShowsAnnouncement self.now (sequence_at block.now t0)) }
    {
        let walks = self.walks();
        // What ends before the parts' end fits.
        walks.parts().end();
        let last = block.hi - 1 + walks.later_minutes(block.second);
        walks.never_shows(block.lo, last)
    }

    /// What an announced sequence costs the station that begins shortly before a leap second may be inserted. None of other
    /// sequences, and where the station sends DUT1 and the walk ends with the leap second.
    pub fn leap_cost(&self, p: u8, first: u32) -> Option<u32>
        requires second { p < SECONDS_PER_MINUTE }
        requires encoded { first + 1 + later_minutes (length self.now.grid.rows) p ≤ self.now.parts.end }
        ensures cost { IfSome result (λ cost. cost ≡ cost_of self.now true p first) }
        ensures small { IfSome result (λ cost. cost ≤ most_cost self.now.grid) }
    {
        let walks = self.blocks.walks();
        // They are the station's, and end in the century.
        walks.unions().parts().end();
        let walk = self.leaps.walk(p, first)?;
        let columns = walks.columns();
        let sets = columns.sets_cost(&walk.sets);
        if is_untold(columns.station(), walk.next_day) {
            return Some(sets);
        }
        if !walk.early {
            return None;
        }
        Some(sets + walks.added_from(p, first))
    }

    /// Whether such a sequence shows the announcement at the station. None of sequences that begin at another time.
    pub fn leap_shows(&self, p: u8, first: u32) -> Option<bool>
        requires second { p < SECONDS_PER_MINUTE }
        requires encoded { first + 1 + later_minutes (length self.now.grid.rows) p ≤ self.now.parts.end }
        ensures { IfSome result (λ shows. shows ≡ true ↔ ShowsAnnouncement self.now (record { first = first; second = p; announced = true })) }
    {
        let walk = self.leaps.walk(p, first)?;
        let unions = self.blocks.walks().unions();
        Some(self.leaps.shows(unions, &walk, p, first))
    }

    /// What no announced sequence costs the station less than that begins in second `p` of the minutes from `lo` up to, and
    /// without, `hi`, where these are some of the last before a leap second may be inserted: what all of them carry together
    /// costs. None of other minutes.
    pub fn leap_floor(&self, p: u8, lo: u32, hi: u32) -> Option<u32>
        requires second { p < SECONDS_PER_MINUTE }
        ensures floor { IfSome result (λ floor. (t0 : ℕ) → lo ≤ t0 → t0 < hi → floor ≤ cost_of self.now true p t0) }
        ensures small { IfSome result (λ floor. floor ≤ most_cost self.now.grid) }
    {
        let walks = self.blocks.walks();
        // They are the station's.
        walks.unions();
        let sets = self.leaps.walks_together(p, lo, hi)?;
        Some(walks.columns().sets_cost(&sets))
    }

    /// In each slot the union of what the walkable sequences of an announced block allow the station, or None where no
    /// sequence of the block is walkable. `end` is the first minute that not all stations of the window can encode.
    pub fn leap_unions(
        &self,
        civil: &Civil,
        window: &Window,
        end: u32,
        block: &Block,
    ) -> Option<Sets>
        requires window { IsWindow window.now }
        requires block { IsBlock window.now block.now }
        requires announced { block.now.announced ≡ true }
        requires station { has_station window.now.stations self.now.parts.station ≡ true }
        requires seconds { window.now.seconds ≡ length self.now.grid.rows }
        requires end { (t : ℕ) → t < end ↔ CanBeEncoded window.now.stations t }
        ensures { MatchOption result (¬ (HasWalk window.now block.now)) (λ sets. HasWalk window.now block.now
            × ((k : ℕ) → k < window.now.seconds → IsUnion window.now block.now self.now.parts.station k (slice_index sets k))) }
    {
        let unions = self.blocks.walks().unions();
        self.leaps.unions_of(civil, unions, window, end, block)
    }
}

// Whether a walk of the station tells no value of DUT1: the station sends none, or the walk goes on to the next day.
fn is_untold(station: Station, next_day: bool) -> bool
    ensures { result ≡ true → (one_day : Bool) → (next_day ≡ true → one_day ≡ false) → (has_dut1 station && one_day) ≡ false }
{
    match station {
        Station::Dcf77 | Station::Jjy => true,
        Station::Msf | Station::Wwvb => next_day,
    }
}

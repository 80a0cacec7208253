//! What the sequences and blocks of a window cost, by sums that were made once for a log.

ghost use Rattle.std.specs.Prelude.{◌≡◌, ◌<◌, ◌≤◌, ◌↔◌, IfOk, IfSome, IsTrue, false, true};
ghost use Rattle.definitions.specs.heard.Costs.{sequence_cost};
ghost use Rattle.definitions.specs.sequences.Walks.{IsWalkable};
ghost use Rattle.definitions.specs.sequences.Windows.{IsWindow};
ghost use Rattle.field_tables.specs.Blocks.{AreMinutesOf, HasShortWalks};
ghost use Rattle.field_tables.specs.Agreement.{AgreeOn};
ghost use Rattle.field_tables.specs.Grids.{AreGrids, grid_costs};
ghost use Rattle.field_tables.specs.Scopes.{scopes_of};
ghost use Rattle.field_tables.specs.Sums.{AreSums, costs_by};
ghost use Rattle.minute_parts.specs.Walks.{later_minutes};

use crate::leaps::meets_leap_end;
use crate::parts::StationParts;
use crate::seasons::{Season, seasons_of};
use crate::station::StationSums;
use crate::stations::{end_of, stations_of};
use civil::Civil;
use definitions::{Block, Sequence};
use minute_parts::later_minutes;
use signal_base::{GREATEST_COST, Window};
use slot_columns::SECONDS_PER_MINUTE;
use std::alloc::{AllocError, Global};
use std::marker::Model;
use symbol_cost::CostGrid;

/// A window, what the seconds of its stations may carry, and what the symbols cost there. It answers what costs little to
/// answer, and leaves the rest to a walk over the slots.
#[derive(Drop)]
pub struct WindowSums<'a> {
    pub(crate) window: Window,
    pub(crate) stations: Vec<StationSums<'a>>,
    pub(crate) end: u32,
    pub(crate) seasons: Vec<Season>,
}

impl<'a> Model for WindowSums<'a> {
    ghost use Rattle.std.specs.Prelude.{All};
    ghost use Rattle.field_tables.specs.Seasons.{IsSeason};
    ghost use Rattle.field_tables.specs.Sums.{AreSums, Sums};

    ghost Value = { Sums };

    ghost view = { λ s. record { window = s.window; stations = s.stations.items; end = s.end } };

    ghost invariant = { λ s. AreSums (record { window = s.window; stations = s.stations.items; end = s.end })
        × All (IsSeason s.stations.items s.window.seconds) s.seasons.items };
}

impl<'a> WindowSums<'a> {
    /// Makes the sums of a window's grids.
    pub fn make(
        alloc: Global,
        parts: &'a [StationParts],
        grids: &[CostGrid],
        window: &Window,
        keep_days: bool,
    ) -> Result<WindowSums<'a>, AllocError>
        requires window { IsWindow window.now }
        requires parts { parts.now ≡ scopes_of window.now.stations window.now.seconds }
        requires grids { AreGrids window.now grids.now }
        ensures window { IfOk result (λ sums. sums.window ≡ window.now) }
        ensures costs { IfOk result (λ sums. AgreeOn window.now (costs_by sums) (grid_costs grids.now)) }
    {
        let stations = stations_of(alloc, parts, grids, window, keep_days)?;
        let end = end_of(&stations);
        let seasons = seasons_of(alloc, &stations, window.seconds)?;
        Ok(WindowSums {
            window: *window,
            stations,
            end,
            seasons,
        })
    }

    /// The first minute that not all stations of the window can encode.
    pub fn end(&self) -> u32
        ensures value { result ≡ self.now.end }
        ensures sums { AreSums self.now }
    {
        self.end
    }

    /// What a sequence costs where at each station its walk has 60 seconds in each minute and lies in one run of the
    /// station's minutes, and else None.
    pub fn cost(&self, civil: &Civil, q: &Sequence) -> Option<u32>
        ensures cost { IfSome result (λ cost. cost ≡ sequence_cost (costs_by self.now) self.now.window q.now) }
        ensures bound { IfSome result (λ cost. cost ≤ GREATEST_COST) }
    {
        let mut total = 0;
        for station in &self.stations {
            let walks = station.walks();
            let Some(cost) = walks.cost(civil, q.announced, q.second, q.first) else {
                return None;
            };
            total += cost;
        }
        Some(total)
    }

    /// Whether a sequence that isn't announced is walkable.
    pub fn walkable(&self, q: &Sequence) -> bool
        requires unannounced { q.now.announced ≡ false }
        requires second { q.now.second < SECONDS_PER_MINUTE }
        ensures { IsTrue result ↔ IsWalkable self.now.window q.now }
    {
        if q.first < self.window.from {
            return false;
        }
        if q.first >= self.window.to {
            return false;
        }
        q.first + self.later_minutes(q.second) < self.end
    }

    /// Whether it is known that the walks of a block have 60 seconds in each minute. Where none is announced it is.
    pub fn has_short_walks(&self, civil: &Civil, block: &Block) -> bool
        requires { AreMinutesOf self.now.window block.now }
        ensures short { result ≡ true → HasShortWalks self.now.window block.now }
        ensures announced { result ≡ false → block.now.announced ≡ true }
    {
        let second = block.second;
        if second as usize >= SECONDS_PER_MINUTE {
            return false;
        }
        !block.announced || !meets_leap_end(civil, block.lo, block.hi + self.later_minutes(second))
    }

    /// How many minutes a walk goes on after its first, where each has 60 seconds.
    pub(crate) fn later_minutes(&self, second: u8) -> u32
        requires { second < SECONDS_PER_MINUTE }
        ensures count { result ≡ later_minutes self.now.window.seconds second }
        ensures bound { result ≤ 20 }
        ensures window { IsWindow self.now.window }
    {
        later_minutes(self.window.seconds, second)
    }
}

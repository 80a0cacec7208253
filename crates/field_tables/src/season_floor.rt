//! What the sequences of a block cost at the least at several stations: by what the times of day cost all of them together, and what the
//! dates cost each.

ghost use Rattle.std.specs.Prelude.{◌≡◌, ◌+◌, ◌*◌, ◌/◌, ◌<◌, ◌≤◌, ℕ, IfSome, slice_index};
ghost use Rattle.signal_base.specs.declared.limits.TheConstants.{GREATEST_COST};
ghost use Rattle.definitions.specs.time.Calendar.{minutes_per_day};
ghost use Rattle.minute_parts.specs.Walks.{reach};
ghost use Rattle.minute_parts.specs.declared.call.TheConstants.{CALL_MINUTES};
ghost use Rattle.field_tables.specs.declared.seasons.TheConstants.{PIECES};
ghost use Rattle.field_tables.specs.Blocks.{HasShortWalks};
ghost use Rattle.field_tables.specs.Floors.{AllCostAtLeast};
ghost use Rattle.field_tables.specs.Seasons.{IsSeason, LieIn};

use crate::seasons::{BUT_THE_LAST, PIECES, Season, THE_LAST, WHOLE_DAY};
use crate::sums::WindowSums;
use definitions::{Block, MINUTES_PER_DAY, MINUTES_PER_HOUR};
use minute_parts::CALL_MINUTES;
use signal_base::GREATEST_COST;
use walk_costs::ByMinute;

impl WindowSums<'_> {
    /// What none of the sequences of a block costs less than, whose walks have 60 seconds in each minute. Of a longer block than an hour
    /// what takes longer is left out where it is above `enough` without it. None of a block of several UTC days, where there is one
    /// station alone, and where the local time of a station changes.
    pub fn floor_by_season(&self, block: &Block, enough: u32) -> Option<u32>
        requires order { block.now.lo < block.now.hi }
        requires walks { HasShortWalks self.now.window block.now }
        requires encoded { block.now.hi + reach self.now.window block.now ≤ self.now.end }
        ensures floor { IfSome result (AllCostAtLeast self.now block.now block.now.lo block.now.hi) }
        ensures small { IfSome result (λ n. n ≤ GREATEST_COST) }
    {
        // What ends before it fits.
        self.end();
        let day = block.lo / MINUTES_PER_DAY;
        if (block.hi - 1) / MINUTES_PER_DAY != day {
            return None;
        }
        let season = self.season_at(block.lo)?;
        if block.hi - block.lo > MINUTES_PER_HOUR {
            let whole = self.floor_in(block, season, block.lo, block.hi, WHOLE_DAY)?;
            if whole > enough {
                return Some(whole);
            }
        }
        let stay = (day + 1) * MINUTES_PER_DAY - self.later_minutes(block.second);
        let end = block.hi.min(stay);
        let most = self.floor_in(block, season, block.lo, end, piece_of(block.lo, end))?;
        let rest = self.floor_in(block, season, block.lo.max(stay), block.hi, THE_LAST)?;
        Some(most.min(rest))
    }

    // The season in which a minute lies, as the first station's local time says.
    fn season_at(&self, t: u32) -> Option<&Season>
        requires { t < self.now.end }
        ensures { IfSome result (λ season. IsSeason self.now.stations self.now.window.seconds season.now) }
    {
        if self.stations.len() == 0 {
            return None;
        }
        let parts = self.stations[0].walks().parts();
        let shift = parts.run(parts.run_of(t)).shift;
        for season in &self.seasons {
            if season.shifts[0] == shift {
                return Some(season);
            }
        }
        None
    }

    // What none of the sequences costs less than that begin in some minutes of the block, which lie in a piece of a day. None where
    // that isn't known, as where the season is another one.
    fn floor_in(
        &self,
        block: &Block,
        season: &Season,
        from: u32,
        to: u32,
        piece: usize,
    ) -> Option<u32>
        requires walks { HasShortWalks self.now.window block.now }
        requires encoded { block.now.hi + reach self.now.window block.now ≤ self.now.end }
        requires begun { block.now.lo ≤ from }
        requires within { to ≤ block.now.hi }
        requires season { IsSeason self.now.stations self.now.window.seconds season.now }
        requires piece { piece < PIECES }
        requires here { LieIn (reach self.now.window block.now) piece from to }
        ensures floor { IfSome result (AllCostAtLeast self.now block.now from to) }
        ensures small { IfSome result (λ n. n ≤ GREATEST_COST) }
    {
        if from >= to {
            return Some(GREATEST_COST);
        }
        let mut kept = 0u32;
        let mut given = [0; CALL_MINUTES];
        for i in 0..self.stations.len() {
            let walks = self.stations[i].walks();
            let dates = walks.date_floor(block.announced, block.second, from, to)?;
            if dates.shift != season.shifts[i] {
                return None;
            }
            kept = kept.saturating_add(dates.kept);
            given = dates.given;
        }
        let row = &season.costs[block.second as usize * PIECES + piece];
        Some(GREATEST_COST.min(kept.saturating_add(least_of(row, &given))))
    }
}

// The piece of a day in which these minutes lie, where no walk goes on from them to the next day: an hour, or all such minutes.
fn piece_of(from: u32, to: u32) -> usize
    ensures piece { result < PIECES }
    ensures here { (later : ℕ) → later ≤ 20 → to + later ≤ (from / minutes_per_day + 1) * minutes_per_day → LieIn later result from to }
{
    let of_day = from % MINUTES_PER_DAY;
    if to.saturating_sub(from) <= MINUTES_PER_HOUR - of_day % MINUTES_PER_HOUR {
        (of_day / MINUTES_PER_HOUR) as usize
    } else {
        BUT_THE_LAST
    }
}

// The least of two costs together, or less where that is too much.
fn least_of(row: &ByMinute, given: &ByMinute) -> u32
    ensures { (m : ℕ) → m < CALL_MINUTES → result ≤ slice_index row.now m + slice_index given.now m }
{
    let mut least = u32::MAX;
    for m in 0..CALL_MINUTES {
        least = least.min(row[m].saturating_add(given[m]));
    }
    least
}

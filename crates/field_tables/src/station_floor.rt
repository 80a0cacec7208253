//! What the sequences of a block cost a station at the least, by pieces of its minutes.

ghost use Rattle.std.specs.Prelude.{ℕ, ◌≡◌, ◌⊎◌, ◌+◌, ◌<◌, ◌≤◌, IfSome, length};
ghost use Rattle.definitions.specs.time.Calendar.{century_minutes};
ghost use Rattle.slot_columns.specs.Parts.{most_cost};
ghost use Rattle.slot_columns.specs.declared.limits.TheConstants.{SECONDS_PER_MINUTE};
ghost use Rattle.minute_parts.specs.Parts.{IsInRun};
ghost use Rattle.minute_parts.specs.Runs.{end_of_run};
ghost use Rattle.minute_parts.specs.Unions.{AreRegular};
ghost use Rattle.minute_parts.specs.Walks.{later_minutes};
ghost use Rattle.walk_costs.specs.Crossings.{IsAcross};
ghost use Rattle.walk_costs.specs.Overs.{IsOver};
ghost use Rattle.walk_costs.specs.Walks.{IsRegularIn, last_minute};
ghost use Rattle.field_tables.specs.Floors.{CostAtLeast};

use crate::station::StationSums;
use definitions::{Block, MINUTES_PER_DAY, MINUTES_PER_HOUR};
use minute_parts::Parts;
use walk_costs::StationWalks;

/// What the sequences cost at the least that begin in a piece of a block's minutes.
#[derive(Clone, Copy)]
pub struct Piece {
    /// The minute after its last one.
    pub end: u32,
    /// None of them costs less.
    pub floor: u32,
}

impl StationSums<'_> {
    /// A floor of a block whose walks have 60 seconds in each minute: none of its sequences costs the station less. It is 0
    /// where a walk goes over the ends of three runs, or of two at a station that sends a call sign, and of a block of more than a day
    /// where it isn't above `enough`. Where that of a piece isn't, walks are looked at one by one that leave their run, and those of a
    /// piece of an hour or less.
    pub fn floor(&self, block: &Block, enough: u32) -> u32
        requires second { block.now.second < SECONDS_PER_MINUTE }
        requires order { block.now.lo < block.now.hi }
        requires regular { AreRegular block.now.announced block.now.lo (block.now.hi + later_minutes (length self.now.grid.rows) block.now.second) self.now.parts.end }
        ensures floor { CostAtLeast self.now block.now block.now.lo block.now.hi result }
        ensures small { result ≤ most_cost self.now.grid }
    {
        if block.announced {
            return self.floor_by_pieces(block, enough);
        }
        if block.hi - block.lo <= MINUTES_PER_DAY {
            return self.floor_by_pieces(block, enough);
        }
        self.floor_of_days(block, enough)
    }

    // The same piece by piece.
    fn floor_by_pieces(&self, block: &Block, enough: u32) -> u32
        requires second { block.now.second < SECONDS_PER_MINUTE }
        requires order { block.now.lo < block.now.hi }
        requires regular { AreRegular block.now.announced block.now.lo (block.now.hi + later_minutes (length self.now.grid.rows) block.now.second) self.now.parts.end }
        ensures floor { CostAtLeast self.now block.now block.now.lo block.now.hi result }
        ensures small { result ≤ most_cost self.now.grid }
    {
        let walks = self.walks();
        let mut floor = u32::MAX;
        let mut t = block.lo;
        while t < block.hi {
            let piece = piece_from(walks, block, t, enough);
            if piece.floor == 0 {
                return 0;
            }
            floor = floor.min(piece.floor);
            t = piece.end;
        }
        floor
    }
}

/// The piece from the minute `t` on: the minutes whose walks lie in the run of `t`, or those whose walks leave it.
#[inline(always)]
pub fn piece_from(walks: &StationWalks, block: &Block, t: u32, enough: u32) -> Piece
    requires second { block.now.second < SECONDS_PER_MINUTE }
    requires begun { block.now.lo ≤ t }
    requires some { t < block.now.hi }
    requires regular { AreRegular block.now.announced block.now.lo (block.now.hi + later_minutes (length walks.now.grid.rows) block.now.second) walks.now.parts.end }
    ensures more { t < result.end }
    ensures floor { CostAtLeast walks.now block.now t result.end result.floor }
    ensures small { result.floor ≤ most_cost walks.now.grid }
{
    let parts = walks.parts();
    // What ends before it fits.
    parts.end();
    let run = parts.run_of(t);
    let left = parts.run_end(run) - t;
    let later = walks.later_minutes(block.second);
    if left <= later {
        return piece_across(walks, block, t, run, enough);
    }
    let most = block.hi.min(t + (left - later));
    let end = end_of_piece(walks, block.second, t, most);
    Piece {
        end,
        floor: floor_inside(walks, block, run, t, end, enough),
    }
}

// Where a piece ends that begins with the minute `t` and may go on to that end: before the walks that go on to the next UTC day,
// since DUT1 adds nothing to these, if it adds something to that of `t`.
#[inline(always)]
fn end_of_piece(walks: &StationWalks, second: u8, t: u32, end: u32) -> u32
    requires second { second < SECONDS_PER_MINUTE }
    requires century { t < century_minutes }
    requires some { t < end }
    ensures more { t < result }
    ensures within { result ≤ end }
{
    let next_day = t - t % MINUTES_PER_DAY + MINUTES_PER_DAY;
    let stay = next_day - walks.later_minutes(second);
    if stay <= t {
        return end;
    }
    if walks.added_from(second, t) == 0 {
        return end;
    }
    end.min(stay)
}

// The floor of the minutes from `t` on whose walks lie in the run.
fn floor_inside(
    walks: &StationWalks,
    block: &Block,
    run: usize,
    t: u32,
    end: u32,
    enough: u32,
) -> u32
    requires some { t < end }
    requires walks { (t0 : ℕ) → t ≤ t0 → t0 < end → IsRegularIn walks.now block.now.announced block.now.second t0 run }
    ensures floor { CostAtLeast walks.now block.now t end result }
    ensures small { result ≤ most_cost walks.now.grid }
{
    let floor = walks.least_in(block.announced, block.second, run, t, end);
    if floor > enough || end - t > MINUTES_PER_HOUR {
        return floor;
    }
    walks.least_among(block.announced, block.second, run, t, end)
}

// The piece of the minutes from `t` on whose walks leave the run of `t`. They are asked for where all of them end in the next run or
// in the one behind it: a run of one minute comes with a change of summer time, and with a new year where a leap second may end the
// old one. All else comes on so few days that 0 will do.
fn piece_across(walks: &StationWalks, block: &Block, t: u32, run: usize, enough: u32) -> Piece
    requires second { block.now.second < SECONDS_PER_MINUTE }
    requires begun { block.now.lo ≤ t }
    requires some { t < block.now.hi }
    requires regular { AreRegular block.now.announced block.now.lo (block.now.hi + later_minutes (length walks.now.grid.rows) block.now.second) walks.now.parts.end }
    requires here { IsInRun walks.now.parts t run }
    requires leaves { end_of_run walks.now.parts.runs walks.now.parts.end run ≤ last_minute walks.now block.now.second t }
    ensures more { t < result.end }
    ensures floor { CostAtLeast walks.now block.now t result.end result.floor }
    ensures small { result.floor ≤ most_cost walks.now.grid }
{
    let parts = walks.parts();
    // What ends before it fits.
    parts.end();
    let later = walks.later_minutes(block.second);
    // The next run's number fits, as the count of runs does.
    parts.runs();
    let following = run + 1;
    let end = block.hi.min(parts.run_end(run));
    let Some(last) = last_run(parts, following, end + later) else {
        return Piece { end, floor: 0 };
    };
    let shift = parts.run(following).shift;
    let floor = if last == following && parts.run(run).shift == shift {
        floor_across(walks, block, t, end, run, enough)
    } else {
        if parts.run(last).shift != shift {
            return Piece { end, floor: 0 };
        }
        floor_over(walks, block, t, end, run, last)
    };
    Piece { end, floor }
}

// The run in which the minutes end that come before `end`: this one, or the next. None where they go on.
fn last_run(parts: &Parts, run: usize, end: u32) -> Option<usize>
    requires run { run < length parts.now.runs }
    ensures { IfSome result (λ j. (j < length parts.now.runs) × ((j ≡ run) ⊎ (j ≡ run + 1)) × (end ≤ end_of_run parts.now.runs parts.now.end j)) }
{
    // The next run's number fits, as the count of runs does.
    let runs = parts.runs();
    if end <= parts.run_end(run) {
        return Some(run);
    }
    if run + 1 < runs && end <= parts.run_end(run + 1) {
        return Some(run + 1);
    }
    None
}

// The floor of the minutes from `t` on whose walks go from the run to the next.
#[inline(always)]
fn floor_across(
    walks: &StationWalks,
    block: &Block,
    t: u32,
    end: u32,
    run: usize,
    enough: u32,
) -> u32
    requires some { t < end }
    requires walks { (t0 : ℕ) → t ≤ t0 → t0 < end → IsAcross walks.now block.now.announced block.now.second t0 run }
    ensures floor { CostAtLeast walks.now block.now t end result }
    ensures small { result ≤ most_cost walks.now.grid }
{
    let floor = walks.least_across(block.announced, block.second, run, t, end);
    if floor > enough {
        return floor;
    }
    let crossing = walks.crossing_costs(block.announced, block.second, run);
    let mut least = u32::MAX;
    for t0 in t..end {
        least = least.min(walks.cost_across(&crossing, t0));
    }
    least
}

// The floor of the minutes from `t` on whose walks go from the run to the next, which may encode another local time, or to `last`.
fn floor_over(walks: &StationWalks, block: &Block, t: u32, end: u32, run: usize, last: usize) -> u32
    requires some { t < end }
    requires second { block.now.second < SECONDS_PER_MINUTE }
    requires runs { (run + 1 < length walks.now.parts.runs) × (last < length walks.now.parts.runs) }
    requires walks { (t0 : ℕ) → t ≤ t0 → t0 < end → IsOver walks.now block.now.announced block.now.second t0 run last }
    ensures floor { CostAtLeast walks.now block.now t end result }
    ensures small { result ≤ most_cost walks.now.grid }
{
    let Some(over) = walks.costs_over(block.announced, block.second, run, last) else {
        return 0;
    };
    let mut least = u32::MAX;
    for t0 in t..end {
        least = least.min(walks.floor_over(&over, t0));
    }
    least
}

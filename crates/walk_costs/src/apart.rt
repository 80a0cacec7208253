//! What the time of day costs and what the dates cost, apart from each other, for who adds up what several stations cost: their walks
//! begin in the same minute, so that the times of day have to be added up before the least of them is taken.

ghost use Rattle.std.specs.Prelude.{◌≡◌, ◌⊎◌, ◌+◌, ◌<◌, ℕ, IfSome, length, slice_index};
ghost use Rattle.definitions.specs.time.Calendar.{minutes_per_day};
ghost use Rattle.minute_parts.specs.Unions.{AreRegular};
ghost use Rattle.minute_parts.specs.Walks.{later_minutes};
ghost use Rattle.minute_parts.specs.declared.call.TheConstants.{CALL_MINUTES};
ghost use Rattle.walk_costs.specs.Apart.{IsDateFloor, IsRunAtEnd, time_cost, told_of_both};
ghost use Rattle.walk_costs.specs.Dates.{given_cost};

use crate::date::{ByMinute, no_losses};
use crate::walks::StationWalks;
use minute_parts::{Parts, gives_up};
use slot_columns::{SECONDS_PER_MINUTE, WalkRow};

/// What dates cost at the least in walks that begin in some minutes, one second in each.
#[derive(Clone, Copy)]
pub struct DateFloor {
    /// By how many minutes the local time that is encoded is ahead of the sent minute in UTC.
    pub shift: u16,
    /// What the dates cost but for the seconds that the station gives up for its call sign, with what DUT1 adds.
    pub kept: u32,
    /// What they cost in those seconds, by how many minutes after a walk's first one the call sign comes.
    pub given: ByMinute,
}

impl StationWalks<'_> {
    /// What the time of day costs in the walks from second `p`, by the minute of the local day that their first minute encodes.
    pub fn times(&self, p: u8) -> &WalkRow
        requires { p < SECONDS_PER_MINUTE }
        ensures { (u : ℕ) → u < minutes_per_day → slice_index result.now u ≡ time_cost self.now p u }
    {
        self.walks.row(p)
    }

    /// What the dates cost at the least in the walks from second `p` of the minutes from `lo` up to, and without, `hi`. With what the
    /// time of day costs, it is no more than what any of the sequences costs the station. None where the walks go over the ends of
    /// more than one run, or on to one that encodes another local time.
    pub fn date_floor(&self, announced: bool, p: u8, lo: u32, hi: u32) -> Option<DateFloor>
        requires second { p < SECONDS_PER_MINUTE }
        requires order { lo < hi }
        requires regular { AreRegular announced lo (hi + later_minutes (length self.now.grid.rows) p) self.now.parts.end }
        ensures { IfSome result (λ dates. IsDateFloor self.now announced p lo hi dates) }
    {
        let parts = self.unions.parts();
        // What ends before it fits.
        parts.end();
        let run = parts.run_of(lo);
        let last = hi - 1 + self.later_minutes(p);
        let next = run_at_end(parts, run, last)?;
        Some(DateFloor {
            shift: parts.run(run).shift,
            kept: self.kept_cost_of_both(announced, p, run, next) + self.added_to_all(p, lo, hi),
            given: self.given_of_both(announced, p, run, next),
        })
    }

    // What the dates cost in the seconds that the station gives up, in the walks from second `p` that begin in a run and end in it or in
    // the next.
    fn given_of_both(&self, announced: bool, p: u8, run: usize, next: usize) -> ByMinute
        requires second { p < SECONDS_PER_MINUTE }
        requires next { next < length self.now.parts.runs }
        requires near { (next ≡ run) ⊎ (next ≡ run + 1) }
        ensures { (m : ℕ) → m < CALL_MINUTES → slice_index result m ≡ given_cost self.now.grid p m (told_of_both self.now.parts announced run next) }
    {
        if !gives_up(self.columns.station()) {
            return no_losses();
        }
        if next == run {
            return self.least.inside.given(announced, p, run);
        }
        self.least.across.given(announced, p, run)
    }
}

// The run in which the minutes end up to this one: that in which they begin, or the next where it encodes the local time alike. None
// where they go on.
fn run_at_end(parts: &Parts, run: usize, last: u32) -> Option<usize>
    requires run { run < length parts.now.runs }
    ensures { IfSome result (λ next. IsRunAtEnd parts.now run last next) }
{
    // The next run's number fits, as the count of runs does.
    let runs = parts.runs();
    if last < parts.run_end(run) {
        return Some(run);
    }
    if run + 1 >= runs || last >= parts.run_end(run + 1) {
        return None;
    }
    if parts.run(run + 1).shift != parts.run(run).shift {
        return None;
    }
    Some(run + 1)
}

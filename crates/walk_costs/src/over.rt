//! What sequences cost at the least whose walks go over a change of the encoded local time, as summer time makes them.
//!
//! A change and what is announced of it may be told from different minutes on, so that a short run lies between: DCF77 announces
//! the change still in the minute that tells the new time first.

ghost use Rattle.std.specs.Prelude.{◌≡◌, ◌+◌, ◌<◌, ◌≤◌, IfSome, length};
ghost use Rattle.definitions.specs.time.Calendar.{minutes_per_day};
ghost use Rattle.slot_columns.specs.Parts.{most_cost};
ghost use Rattle.walk_costs.specs.Changes.{AreCostsOver};
ghost use Rattle.walk_costs.specs.Kinds.{either_part};
ghost use Rattle.walk_costs.specs.Overs.{AreCostsOfOver, IsOver};
ghost use Rattle.walk_costs.specs.Walks.{cost_of};

use crate::change::before;
use crate::kinds::{either, nothing};
use crate::walks::{StationWalks, local_time};
use minute_parts::gives_up;
use slot_columns::{Part, SECONDS_PER_MINUTE, SPLITS, SplitCosts};

/// What walks cost at the least that begin in one run, in one second, and whose other minutes lie in the next run or in another.
#[derive(Clone, Copy)]
pub struct Over {
    /// Whether a leap second is announced.
    pub announced: bool,
    /// The second in which the walks begin.
    pub second: u8,
    /// The number of the run in which they begin.
    pub run: usize,
    /// The number of the run, behind it, in which they may end.
    pub last: usize,
    /// The first minute of the next run.
    pub end: u32,
    /// What the times of day cost, by how many minutes of a walk lie in the first run.
    pub times: SplitCosts,
    /// What the dates cost at the least.
    pub dates: SplitCosts,
}

impl StationWalks<'_> {
    /// What walks cost at the least that begin in second `p`, below 60, of a run, and go on to the next or to `last`, which encode the
    /// same local time, perhaps another one than the first run. None where the change isn't kept, and of a station that sends a call
    /// sign.
    pub fn costs_over(&self, announced: bool, p: u8, run: usize, last: usize) -> Option<Over>
        requires second { p < SECONDS_PER_MINUTE }
        requires next { run + 1 < length self.now.parts.runs }
        requires last { last < length self.now.parts.runs }
        ensures walks { IfSome result (λ o. (o.announced ≡ announced) × (o.second ≡ p) × (o.run ≡ run) × (o.last ≡ last)) }
        ensures costs { IfSome result (AreCostsOfOver self.now) }
    {
        let parts = self.unions.parts();
        // The next run's number fits, as the count of runs does, and it begins in the century.
        parts.runs();
        parts.end();
        if gives_up(self.columns.station()) {
            return None;
        }
        let end = parts.run_end(run);
        let from = local_time(parts.run(run).shift, end);
        let to = local_time(parts.run(run + 1).shift, end);
        let times = self.times_over(p, from, to)?;
        let before = parts.run(run).date_part(announced);
        let next = parts.run(run + 1).date_part(announced);
        let after = either_part(next, parts.run(last).date_part(announced));
        Some(Over {
            announced,
            second: p,
            run,
            last,
            end,
            times,
            dates: self.columns.split_costs(p, before, &after),
        })
    }

    // What the times of day cost where the local time goes on at `to` in place of `from`: in the walks through a day where these are
    // the same, else by the changes.
    fn times_over(&self, p: u8, from: u16, to: u16) -> Option<SplitCosts>
        requires second { p < SECONDS_PER_MINUTE }
        requires minute { from < minutes_per_day }
        ensures { IfSome result (AreCostsOver self.now.grid self.now.parts.times from to p) }
    {
        if from == to {
            return Some(self.times_on(p, from));
        }
        for i in 0..self.changes.len() {
            let change = &self.changes[i];
            if change.from == from && change.to == to {
                return Some(change.costs[p as usize]);
            }
        }
        None
    }

    // Where they are the same.
    fn times_on(&self, p: u8, from: u16) -> SplitCosts
        requires second { p < SECONDS_PER_MINUTE }
        requires minute { from < minutes_per_day }
        ensures { AreCostsOver self.now.grid self.now.parts.times from from p result }
    {
        let walks = &self.walks;
        // The slots are few, and so the later minutes.
        self.columns.seconds();
        let mut costs = [0; SPLITS];
        for b in 0..SPLITS as u32 {
            costs[b as usize] = walks.cost(p, before(from, b));
        }
        costs
    }

    /// What a sequence costs the station at the least that begins in the minute `t0`, where its walk is one of these.
    pub fn floor_over(&self, over: &Over, t0: u32) -> u32
        requires costs { AreCostsOfOver self.now over.now }
        requires walk { IsOver self.now over.now.announced over.now.second t0 over.now.run over.now.last }
        ensures floor { result ≤ cost_of self.now over.now.announced over.now.second t0 }
        ensures bound { result ≤ most_cost self.now.grid }
    {
        // The walk begins in the century, since the parts end there.
        self.unions.parts().end();
        let front = (over.end - t0) as usize;
        let added = self.added_from(over.second, t0);
        over.times[front] + over.dates[front] + added
    }
}

// Sets that cost no more than either of two.
fn either_part(one: &Part, other: &Part) -> Part
    ensures { result ≡ either_part one.now other.now }
{
    let mut part = nothing();
    for s in 0..SECONDS_PER_MINUTE {
        part[s] = either(one[s], other[s]);
    }
    part
}

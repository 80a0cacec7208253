//! What sequences cost whose walks begin in one run and end in the next.

ghost use Rattle.std.specs.Prelude.{◌≡◌, ◌+◌, ◌^◌, ◌<◌, ◌≤◌, length};
ghost use Rattle.symbol_cost.specs.Grid.{cost_at};
ghost use Rattle.minute_parts.specs.Parts.{part_where};
ghost use Rattle.minute_parts.specs.Runs.{run_at};
ghost use Rattle.slot_columns.specs.Parts.{minute_cost, most_cost};
ghost use Rattle.walk_costs.specs.Crossings.{IsAcross, IsCrossing, run_across};
ghost use Rattle.walk_costs.specs.Dates.{given_up};
ghost use Rattle.walk_costs.specs.Walks.{cost_of};

use crate::call::call_cost;
use crate::walks::{StationWalks, local_time, minutes_to_call};
use slot_columns::{SECONDS_PER_MINUTE, SplitCosts};

/// What the dates of a run and of the next one cost in the walks that begin in the one, in one second, and end in the other.
#[derive(Clone, Copy)]
pub struct Crossing {
    /// Whether a leap second is announced.
    pub announced: bool,
    /// The second in which the walks begin.
    pub second: u8,
    /// The number of the run in which they begin.
    pub run: usize,
    /// The first minute of the next run.
    pub end: u32,
    /// By how many minutes the local time that is encoded is ahead of the sent minute in UTC.
    pub shift: u16,
    /// What the dates cost, by how many minutes of a walk lie in the first run.
    pub dates: SplitCosts,
}

impl StationWalks<'_> {
    /// What the dates of a run and of the next one cost in the walks that begin in second `p`, below 60.
    pub fn crossing_costs(&self, announced: bool, p: u8, run: usize) -> Crossing
        requires second { p < SECONDS_PER_MINUTE }
        requires next { run + 1 < length self.now.parts.runs }
        ensures walks { (result.announced ≡ announced) × (result.second ≡ p) × (result.run ≡ run) }
        ensures costs { IsCrossing self.now result }
    {
        let parts = self.unions.parts();
        // The next run's number fits, as the count of runs does.
        parts.runs();
        let before = parts.run(run).date_part(announced);
        let after = parts.run(run + 1).date_part(announced);
        Crossing {
            announced,
            second: p,
            run,
            end: parts.run_end(run),
            shift: parts.run(run).shift,
            dates: self.columns.split_costs(p, before, after),
        }
    }

    /// What a sequence costs the station that begins in the minute `t0`, where its walk goes from the run of the crossing to
    /// the next.
    pub fn cost_across(&self, crossing: &Crossing, t0: u32) -> u32
        requires crossing { IsCrossing self.now crossing.now }
        requires walk { IsAcross self.now crossing.now.announced crossing.now.second t0 crossing.now.run }
        ensures cost { result ≡ cost_of self.now crossing.now.announced crossing.now.second t0 }
        ensures bound { result ≤ most_cost self.now.grid }
    {
        let walks = &self.walks;
        // The next run's number fits, as the count of runs does.
        self.unions.parts().runs();
        let p = crossing.second;
        let u = local_time(crossing.shift, t0);
        let front = crossing.end - t0;
        let call = minutes_to_call(u);
        let run = run_across(crossing.run, front, call);
        let lost = self.lost_to_call(crossing.announced, p, run, call);
        let added = self.added_from(p, t0);
        walks.cost(p, u) + (crossing.dates[front as usize] - lost) + added
    }

    // What the date of a run tells in walk minute `m` of the seconds that the call sign takes costs this.
    fn lost_to_call(&self, announced: bool, p: u8, run: usize, m: u8) -> u32
        requires second { p < SECONDS_PER_MINUTE }
        requires run { run < length self.now.parts.runs }
        ensures { result ≡ minute_cost self.now.grid.station (cost_at self.now.grid.rows) (length self.now.grid.rows) p m
            (given_up self.now.grid.station (part_where announced (run_at self.now.parts.runs run))) }
    {
        let part = self.unions.parts().run(run).date_part(announced);
        call_cost(&self.columns, p, m, part)
    }
}

// The run in which walk minute `m` lies, where so many minutes of the walk lie in the first run.
fn run_across(first: usize, front: u32, m: u8) -> usize
    requires { first + 1 < 2 ^ 64 }
    ensures { result ≡ run_across first front m }
{
    if (m as u32) < front { first } else { first + 1 }
}

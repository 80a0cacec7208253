//! What one sequence costs, whose walk has 60 seconds in each minute, and may go through several runs.

ghost use Rattle.std.specs.Prelude.{◌≡◌, ◌≤◌};
ghost use Rattle.minute_parts.specs.Parts.{IsInRun};
ghost use Rattle.minute_parts.specs.Runs.{end_of_run};
ghost use Rattle.slot_columns.specs.Parts.{most_cost};
ghost use Rattle.walk_costs.specs.Walks.{cost_of, last_minute};

use crate::walks::Walks;

impl Walks<'_> {
    /// What the sequence costs that begins in the first minute: by the date of its run, or by those of two runs. Few walks go
    /// through more.
    pub fn first_cost(&self) -> u32
        ensures cost { result ≡ cost_of self.now.station.now self.now.announced self.now.second self.now.lo }
        ensures bound { result ≤ most_cost self.now.station.now.grid }
    {
        let walks = self.station;
        let parts = walks.parts();
        // What ends before it fits.
        parts.end();
        let run = parts.run_of(self.lo);
        let left = parts.run_end(run) - self.lo;
        if left <= walks.later_minutes(self.second) {
            return self.cost_over_runs(run);
        }
        walks.cost_in(self.announced, self.second, self.lo, run)
    }

    // The same of a walk that leaves the run in which it begins. Mostly it ends in the next, and the local time is encoded there
    // as before.
    fn cost_over_runs(&self, run: usize) -> u32
        requires here { IsInRun self.now.station.now.parts self.now.lo run }
        requires leaves { let w = self.now.station.now in end_of_run w.parts.runs w.parts.end run ≤ last_minute w self.now.second self.now.lo }
        ensures cost { result ≡ cost_of self.now.station.now self.now.announced self.now.second self.now.lo }
        ensures bound { result ≤ most_cost self.now.station.now.grid }
    {
        let walks = self.station;
        let parts = walks.parts();
        // What ends before it fits.
        parts.end();
        let last = self.lo + walks.later_minutes(self.second);
        // The next run's number fits, as the count of runs does.
        parts.runs();
        let following = run + 1;
        if last >= parts.run_end(following) || parts.run(run).shift != parts.run(following).shift {
            return self.cost_minute_by_minute();
        }
        let crossing = walks.crossing_costs(self.announced, self.second, run);
        walks.cost_across(&crossing, self.lo)
    }

    // The same of any: the cost of its sets, minute by minute, and what DUT1 adds.
    fn cost_minute_by_minute(&self) -> u32
        ensures cost { result ≡ cost_of self.now.station.now self.now.announced self.now.second self.now.lo }
        ensures bound { result ≤ most_cost self.now.station.now.grid }
    {
        let walks = self.station;
        let columns = walks.columns();
        // What ends before it fits, and so does what so few slots and receivers cost.
        walks.parts().end();
        columns.seconds();
        columns.receivers();
        let alone = Walks {
            station: walks,
            announced: self.announced,
            second: self.second,
            lo: self.lo,
            hi: self.lo + 1,
        };
        let sets = alone.cost_by_minutes();
        sets + walks.added_from(self.second, self.lo)
    }
}

//! Whether announced sequences show the announcement, whose walks may go through several runs.

ghost use Rattle.std.specs.Prelude.{◌≡◌, ◌+◌, ◌-◌, ◌*◌, ◌<◌, ◌≤◌, ◌↔◌, ℕ, IsTrue, false, length, min, true};
ghost use Rattle.signal_base.specs.declared.limits.TheConstants.{MOST_SECONDS};
ghost use Rattle.definitions.specs.codes.Allowed.{allowed};
ghost use Rattle.definitions.specs.time.Calendar.{century_minutes, minute_length};
ghost use Rattle.minute_parts.specs.Parts.{local_time};
ghost use Rattle.minute_parts.specs.Runs.{run_at};
ghost use Rattle.walk_costs.specs.Shown.{SomeSlotShows};
ghost use Rattle.walk_costs.specs.Walks.{IsRegularWalk, ShowsAnnouncement, last_minute};

use crate::shown::{is_told_alike, some_slot_shows};
use crate::walks::{StationWalks, local_time};
use slot_columns::SECONDS_PER_MINUTE;

impl StationWalks<'_> {
    /// Whether an announced sequence shows the announcement, whose walk from second `p` of the minute `t0` has 60 seconds in
    /// each minute. The walk may go through several runs.
    pub fn shows_by_minutes(&self, p: u8, t0: u32) -> bool
        requires second { p < SECONDS_PER_MINUTE }
        requires regular { IsRegularWalk self.now p t0 }
        ensures { IsTrue result ↔ ShowsAnnouncement self.now (record { first = t0; second = p; announced = true }) }
    {
        let parts = self.unions.parts();
        let seconds = self.columns.seconds();
        let mut from = 0;
        for i in parts.run_of(t0)..parts.runs() {
            let to = slots_in(p, parts.run_end(i) - t0, seconds);
            if self.shows_in_run(p, t0, i, from, to) {
                return true;
            }
            if to == seconds {
                return false;
            }
            from = to;
        }
        false
    }

    /// Whether no walk shows the announcement that lies in the runs from that of the minute `lo` to that of `last`: none of
    /// them tells anything else where a leap second is announced, so that the minutes carry the same.
    pub fn never_shows(&self, lo: u32, last: u32) -> bool
        requires order { lo ≤ last }
        requires encoded { last < self.now.parts.end }
        ensures never { result ≡ true → (p t0 : ℕ) → p < SECONDS_PER_MINUTE → lo ≤ t0 → last_minute self.now p t0 ≤ last → IsRegularWalk self.now p t0
            → ¬ (ShowsAnnouncement self.now (record { first = t0; second = p; announced = true })) }
        ensures alike { result ≡ true → (t s : ℕ) → lo ≤ t → t ≤ last → minute_length true t ≡ 60 → s < SECONDS_PER_MINUTE
            → allowed self.now.grid.station true (t, s) ≡ allowed self.now.grid.station false (t, s) }
    {
        let parts = self.unions.parts();
        for i in parts.run_of(lo)..parts.runs() {
            if !is_told_alike(parts.run(i)) {
                return false;
            }
            if last < parts.run_end(i) {
                return true;
            }
        }
        false
    }

    // Whether one of the slots from `from` up to, and without, `to` shows it. The minutes of these slots lie in the run.
    fn shows_in_run(&self, p: u8, t0: u32, number: usize, from: u16, to: u16) -> bool
        requires second { p < SECONDS_PER_MINUTE }
        requires minute { t0 < century_minutes }
        requires run { number < length self.now.parts.runs }
        requires slots { to ≤ MOST_SECONDS }
        ensures { IsTrue result ↔ SomeSlotShows self.now.parts (run_at self.now.parts.runs number) (local_time (run_at self.now.parts.runs number) t0) p from to }
    {
        let parts = self.unions.parts();
        let run = parts.run(number);
        if is_told_alike(run) {
            return false;
        }
        some_slot_shows(parts, run, local_time(run.shift, t0), p, from, to)
    }
}

// How many of the slots lie in the first minutes of a walk from second `p`.
fn slots_in(p: u8, minutes: u32, seconds: u16) -> u16
    requires second { p < SECONDS_PER_MINUTE }
    requires some { 1 ≤ minutes }
    requires century { minutes ≤ century_minutes }
    ensures { result ≡ min (SECONDS_PER_MINUTE * minutes - p) seconds }
{
    let reached = SECONDS_PER_MINUTE as u32 * minutes - p as u32;
    reached.min(seconds as u32) as u16
}

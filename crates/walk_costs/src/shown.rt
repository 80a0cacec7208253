//! Whether the walks of announced sequences show the announcement.

ghost use Rattle.std.specs.Prelude.{◌≡◌, ◌<◌, ◌≤◌, ◌≢◌, ◌↔◌, ℕ, IsTrue, length, slice_index, true, false};
ghost use Rattle.signal_base.specs.declared.limits.TheConstants.{MOST_SECONDS};
ghost use Rattle.definitions.specs.time.Calendar.{minutes_per_day};
ghost use Rattle.walk_costs.specs.Shown.{DiffersElsewhere, SomeSlotShows, shows_in};

use definitions::MINUTES_PER_DAY;
use minute_parts::{Parts, Run, is_given_up};
use signal_base::Station;
use slot_columns::SECONDS_PER_MINUTE;

/// Whether the walks that lie in one run, begin in one second and announce a leap second or don't, show that one is
/// announced: whether the station may carry another set in some slot than without the announcement.
#[derive(Clone, Copy)]
pub enum Shown {
    /// None of them does.
    Never,
    /// Each of them does.
    Always,
    /// It takes a look at the minute in which a walk begins.
    Sometimes,
}

/// So many slots have each second in two minutes, one after the other. The call sign of JJY takes at most one of them.
pub const TWO_MINUTES: u16 = 120;

/// Whether the date tells another set where a leap second is announced, in a second that no call sign takes.
pub fn differs_elsewhere(station: Station, run: &Run) -> bool
    ensures { result ≡ true → DiffersElsewhere station run.now }
{
    for s in 0..SECONDS_PER_MINUTE {
        if !is_given_up(station, s) && run.unannounced[s] != run.announced[s] {
            return true;
        }
    }
    false
}

/// Whether the date tells the same with the announcement and without it, so that no minute of the run shows it. So it is in
/// most runs: in all but those of June and December.
pub fn is_told_alike(run: &Run) -> bool
    ensures { IsTrue result ↔ (run.now.unannounced ≡ run.now.announced) }
{
    run.unannounced == run.announced
}

/// Whether one of the slots from `from` up to, and without, `to` shows it, of a walk from second `p` of minute `u` of the
/// local day.
pub fn some_slot_shows(parts: &Parts, run: &Run, u: u16, p: u8, from: u16, to: u16) -> bool
    requires minute { u < minutes_per_day }
    requires second { p < SECONDS_PER_MINUTE }
    requires slots { to ≤ MOST_SECONDS }
    ensures { IsTrue result ↔ SomeSlotShows parts.now run.now u p from to }
{
    for k in from..to {
        if slot_shows(parts, run, u, p, k) {
            return true;
        }
    }
    false
}

// Whether slot `k` does: the time of day tells nothing of its second, and the date not what it tells without the
// announcement.
fn slot_shows(parts: &Parts, run: &Run, u: u16, p: u8, k: u16) -> bool
    requires minute { u < minutes_per_day }
    requires second { p < SECONDS_PER_MINUTE }
    requires slot { k < MOST_SECONDS }
    ensures { result ≡ shows_in parts.now run.now u p k }
{
    let place = p as usize + k as usize;
    let s = place % SECONDS_PER_MINUTE;
    let minute = (u as usize + place / SECONDS_PER_MINUTE) % MINUTES_PER_DAY as usize;
    parts.time_part(minute as u16)[s] == 0 && run.unannounced[s] != run.announced[s]
}

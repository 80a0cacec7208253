//! What the date of a run costs in a walk, in the seconds that are given up for the call sign and in the others.

ghost use Rattle.std.specs.Prelude.{◌≡◌, ◌+◌, ◌-◌, ◌^◌, ◌<◌, ◌≤◌, ℕ, length, slice_index};
ghost use Rattle.minute_parts.specs.declared.call.TheConstants.{CALL_MINUTES};
ghost use Rattle.walk_costs.specs.Dates.{given_cost, kept, kept_set, most_given};
ghost use Rattle.minute_parts.specs.Walks.{later_minutes};

use crate::call::call_cost;
use minute_parts::{CALL_BEGIN, CALL_END, CALL_MINUTES, gives_up, is_given_up, later_minutes};
use signal_base::Station;
use slot_columns::{Part, SECONDS_PER_MINUTE, SlotColumns};

/// A cost for each minute up to the next call sign.
pub type ByMinute = [u32; CALL_MINUTES];

/// What a part by the date costs in the seconds that are given up for the call sign of JJY, in the walks from second `p`, for
/// each walk minute that the call sign may take. A walk has no minute after its 21st.
pub fn given_costs(columns: &SlotColumns, p: u8, part: &Part) -> ByMinute
    requires { p < SECONDS_PER_MINUTE }
    ensures costs { (m : ℕ) → m < CALL_MINUTES → slice_index result m ≡ given_cost columns.now p m part.now }
    ensures small { (m : ℕ) → m < CALL_MINUTES → slice_index result m ≤ most_given }
{
    let mut lost = no_losses();
    if !gives_up(columns.station()) {
        return lost;
    }
    let mut whole = 0;
    for m in 0..walk_minutes(columns, p) {
        lost[m] = call_cost(columns, p, m as u8, part);
        whole += lost[m];
    }
    all_but(whole, &lost)
}

/// How many minutes a walk goes through.
pub fn walk_minutes(columns: &SlotColumns, p: u8) -> usize
    requires { p < SECONDS_PER_MINUTE }
    ensures count { result ≡ later_minutes (length columns.now.rows) p + 1 }
    ensures bound { result ≤ 21 }
{
    later_minutes(columns.seconds(), p) as usize + 1
}

/// For each minute what is left of a cost.
pub fn all_but(whole: u32, lost: &ByMinute) -> ByMinute
    requires { (m : ℕ) → m < CALL_MINUTES → slice_index lost.now m ≤ whole }
    ensures { (m : ℕ) → m < CALL_MINUTES → slice_index result m ≡ whole - slice_index lost.now m }
{
    let mut costs = *lost;
    for m in 0..CALL_MINUTES {
        costs[m] = whole - lost[m];
    }
    costs
}

/// Nothing, for each minute.
pub fn no_losses() -> ByMinute
    ensures { (m : ℕ) → m < CALL_MINUTES → slice_index result m ≡ 0 }
{
    [0; CALL_MINUTES]
}

/// What the date tells of the other seconds.
pub fn kept(station: Station, part: &Part) -> Part
    ensures { result ≡ kept station part.now }
{
    let mut kept = *part;
    for s in CALL_BEGIN..CALL_END {
        kept[s] = kept_set(station, part, s);
    }
    kept
}

fn kept_set(station: Station, part: &Part, second: usize) -> u8
    requires { second < SECONDS_PER_MINUTE }
    ensures { result ≡ kept_set station part.now second }
{
    if is_given_up(station, second) {
        0
    } else {
        part[second]
    }
}

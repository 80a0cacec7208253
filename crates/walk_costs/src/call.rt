//! The seconds that JJY gives up for its call sign, and what the date tells in them.

ghost use Rattle.std.specs.Prelude.{◌≡◌, ◌<◌, ◌≤◌, length};
ghost use Rattle.symbol_cost.specs.Grid.{cost_at};
ghost use Rattle.slot_columns.specs.Parts.{minute_cost};
ghost use Rattle.walk_costs.specs.Dates.{given_up, given_up_set, most_in_call};

use minute_parts::{CALL_BEGIN, CALL_END, gives_up, is_given_up};
use signal_base::Station;
use slot_columns::{Part, SECONDS_PER_MINUTE, SlotColumns};

/// What the date tells in walk minute `m` of the seconds that the station gives up for its call sign costs this: a look at 16
/// slots at most.
pub fn call_cost(columns: &SlotColumns, p: u8, m: u8, part: &Part) -> u32
    requires { p < SECONDS_PER_MINUTE }
    ensures cost { result ≡ minute_cost columns.now.station (cost_at columns.now.rows) (length columns.now.rows) p m (given_up columns.now.station part.now) }
    ensures small { result ≤ most_in_call }
{
    let station = columns.station();
    if !gives_up(station) {
        return 0;
    }
    // The receivers are few, so that the sum fits.
    columns.receivers();
    let p = p as usize;
    let minute = SECONDS_PER_MINUTE * m as usize;
    let from = (minute + CALL_BEGIN).saturating_sub(p);
    let end = (minute + CALL_END).saturating_sub(p);
    let end = end.min(columns.seconds() as usize);
    let mut cost = 0;
    for k in from..end {
        cost += columns.cost(k as u16, given_up_set(station, part, p + k - minute));
    }
    cost
}

/// What the date tells of a second that the call sign takes.
pub fn given_up_set(station: Station, part: &Part, second: usize) -> u8
    requires { second < SECONDS_PER_MINUTE }
    ensures { result ≡ given_up_set station part.now second }
{
    if is_given_up(station, second) {
        part[second]
    } else {
        0
    }
}

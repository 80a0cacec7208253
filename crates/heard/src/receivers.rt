//! What a second costs a receiver, and how much of it the receiver doesn't know.

ghost use Rattle.std.specs.Prelude.{◌≡◌, ◌<◌, ◌≤◌, if◌then◌else◌, is_none};
ghost use Rattle.std.specs.Option.{ForSome};
ghost use Rattle.signal_base.specs.Limits.{IsPriced, IsTuned};
ghost use Rattle.signal_base.specs.Waveform.{symbol_count};
ghost use Rattle.definitions.specs.heard.Costs.{second_cost};
ghost use Rattle.formats.specs.Heard.{cost_of, unknown_tenths};
ghost use Rattle.symbol_cost.specs.Rows.{heard};

use formats::ReceiverHeard;
use pulse_log::Log;
use signal_base::{CostTable, Station, Tuning};
use symbol_cost::{RECEIVER_COST, SECOND_LIMIT, second_costs};

// How many tenths a second has.
const TENTHS: usize = 10;

/// What a receiver of this number heard in the second that begins at a millisecond of its log, where its station sent this
/// symbol, if it sent one.
pub fn receiver_heard(
    number: u8,
    table: &CostTable,
    tuning: &Tuning,
    log: &Log,
    from: u64,
    station: Station,
    sent: Option<u8>,
) -> ReceiverHeard
    requires tuned { IsTuned tuning.now }
    requires priced { IsPriced table.now }
    requires from { from < SECOND_LIMIT }
    requires sent { ForSome sent (λ x. x < symbol_count station) }
    ensures heard { result ≡ record {
      number = number;
      unknown = unknown_tenths log.now from;
      cost = cost_of (second_cost table.now (heard tuning.now log.now) station from) sent;
    } }
    ensures few { result.unknown ≤ 10 }
    ensures bound { result.cost ≤ RECEIVER_COST }
{
    ReceiverHeard {
        number,
        unknown: unknown_tenths(log, from),
        cost: match sent {
            None => 0,
            Some(x) => second_costs(table, tuning, log, from, station)[x as usize],
        },
    }
}

// How many of the ten tenths from a millisecond on are unknown.
fn unknown_tenths(log: &Log, from: u64) -> u16
    requires { from < SECOND_LIMIT }
    ensures count { result ≡ unknown_tenths log.now from }
    ensures few { result ≤ 10 }
{
    let mut tenths = log.tenths(from);
    let mut unknown = 0;
    for _j in 0..TENTHS {
        unknown += is_unknown(tenths.next());
    }
    unknown
}

// 1 for a tenth that is unknown.
fn is_unknown(count: Option<u32>) -> u16
    ensures is { result ≡ (if is_none count then 1 else 0) }
    ensures bound { result ≤ 1 }
{
    match count {
        None => 1,
        Some(_) => 0,
    }
}

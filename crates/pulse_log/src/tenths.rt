//! The tenths of a second of a log, one after the other.

ghost use Rattle.std.specs.Prelude.{◌≡◌, ◌+◌, ◌*◌, ◌<◌, ◌≤◌};
ghost use Rattle.std.specs.Option.{ForSome};
ghost use Rattle.definitions.specs.heard.Logs.{low_count};
ghost use Rattle.formats.specs.LogOrder.{IsRising};

use crate::look::{count_until, low_from};
use definitions::Level;
use formats::TIME_LIMIT;
use std::marker::Model;

/// A tenth of a second, in milliseconds.
pub const TENTH: u64 = 100;

/// The tenths of a second of a log from some millisecond on, told one after the other. The log is read once: what lies
/// before the next tenth isn't looked at again.
#[derive(Drop)]
pub struct Tenths<'a> {
    records: &'a [(u64, Level)],
    at: u64,
    // How many records aren't after `at`.
    count: usize,
}

impl<'a> Model for Tenths<'a> {
    ghost use Rattle.pulse_log.specs.Place.{IsPlaced, LogFrom};

    ghost Value = { LogFrom };

    ghost view = { λ t. record { log = t.records.now; at = t.at } };

    ghost invariant = { λ t. IsPlaced t.records.now t.at t.count };
}

impl<'a> Tenths<'a> {
    /// The tenths of these records.
    pub(crate) fn of_records(records: &'a [(u64, Level)], from: u64) -> Tenths<'a>
        requires { IsRising records.now }
        ensures log { result.log ≡ records.now }
        ensures at { result.at ≡ from }
    {
        Tenths {
            records,
            at: from,
            count: count_until(records, from),
        }
    }

    /// How many milliseconds of the next tenth are low, or `None` exactly where the level of one of them is unknown.
    /// The next tenth begins below 2,000,000,000,000.
    pub fn next(&mut self) -> Option<u32>
        requires { self.old.at < 2 * TIME_LIMIT }
        ensures low { result ≡ low_count self.old.log self.old.at TENTH }
        ensures bound { ForSome result (λ low. low ≤ TENTH) }
        ensures at { self.new.at ≡ self.old.at + TENTH }
        ensures log { self.new.log ≡ self.old.log }
    {
        let to = self.at + TENTH;
        let (low, count) = low_from(self.records, self.count, self.at, to);
        self.at = to;
        self.count = count;
        low
    }
}

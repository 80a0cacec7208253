//! A log that was read, and what it is asked.

ghost use Rattle.std.specs.Prelude.{◌≡◌, ◌+◌, ◌-◌, ◌*◌, ◌<◌, ◌≤◌, [], length, slice_get, IsTrue, ◌↔◌};
ghost use Rattle.definitions.specs.heard.Logs.{level_at, low_count};

use crate::look::{self, SECOND};
use crate::tenths::Tenths;
use definitions::Level;
use formats::TIME_LIMIT;
use std::marker::Model;

/// A log: records of a time in milliseconds and the level from that time on. Times rise strictly and are below
/// 1,000,000,000,000, and there are at most 200,000 records. The last record only closes the log.
#[derive(Drop)]
pub struct Log {
    records: Vec<(u64, Level)>,
}

impl Model for Log {
    ghost use Rattle.definitions.specs.heard.Logs.{Records};
    ghost use Rattle.formats.specs.LogOrder.{IsOrderly};

    ghost Value = { Records };

    ghost view = { λ log. log.records.items };

    ghost invariant = { λ log. IsOrderly log.records.items };
}

impl Log {
    ghost use Rattle.formats.specs.LogOrder.{IsOrderly};

    /// The log of these records.
    pub(crate) fn of_records(records: Vec<(u64, Level)>) -> Log
        requires { IsOrderly records.items }
        ensures { result ≡ records.items }
    {
        Log { records }
    }

    /// How many records there are, at most 200,000.
    pub fn len(&self) -> usize
        ensures count { result ≡ length self.now }
        ensures orderly { IsOrderly self.now }
    {
        self.records.len()
    }

    /// Whether there is no record.
    pub fn is_empty(&self) -> bool
        ensures { IsTrue result ↔ (self.now ≡ []) }
    {
        self.records.is_empty()
    }

    /// Record `i`, counted from 0 and below `len()`: its time in milliseconds, below 1,000,000,000,000, and the
    /// level from then on.
    pub fn entry(&self, i: usize) -> (u64, Level)
        requires { i < length self.now }
        ensures record { slice_get self.now i ≡ Some result }
        ensures bound { result.0 < TIME_LIMIT }
    {
        self.records[i]
    }

    /// The level at a millisecond: that of the last record not after it, where some record is later. Else it is
    /// unknown.
    pub fn level(&self, ms: u64) -> Level
        ensures { result ≡ level_at self.now ms }
    {
        look::level_in(self.records.as_slice(), ms)
    }

    /// How many of the milliseconds from `from` on and before `to` are low, or `None` exactly where the level of
    /// one of them is unknown. `from` is at most `to`, which is at most 1,000 ms later and below 2,000,000,000,000.
    pub fn low_ms(&self, from: u64, to: u64) -> Option<u32>
        requires order { from ≤ to }
        requires short { to ≤ from + SECOND }
        requires range { to < 2 * TIME_LIMIT }
        ensures { result ≡ low_count self.now from (to - from) }
    {
        let records = self.records.as_slice();
        look::low_from(records, look::count_until(records, from), from, to).0
    }

    /// The tenths of a second one after the other, the first from millisecond `from` on.
    pub fn tenths(&self, from: u64) -> Tenths<'_>
        ensures log { result.log ≡ self.now }
        ensures at { result.at ≡ from }
    {
        Tenths::of_records(self.records.as_slice(), from)
    }
}

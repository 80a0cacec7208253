//! Receivers, which are gathered one after the other into a bank.

ghost use Rattle.std.specs.Prelude.{◌≡◌, ◌+◌, ◌≤◌, All, IfOk, length, true};
ghost use Rattle.std.specs.List.Sorted.{IsNonDecreasingBy};
ghost use Rattle.signal_base.specs.Number.{number_of};
ghost use Rattle.search_bench.specs.Stations.{ComesNext};
ghost use Rattle.signal_base.specs.Limits.{IsTuned};
ghost use Rattle.signal_base.specs.declared.limits.TheConstants.{MOST_RECEIVERS};

use crate::fault::Fault;
use bank::Bank;
use pulse_log::Log;
use signal_base::{CostTable, GREATEST_COST, Station, Tuning};
use std::alloc::Global;

/// Receivers with what they heard.
#[derive(Drop)]
pub struct Receivers {
    stations: Vec<Station>,
    tunings: Vec<Tuning>,
    logs: Vec<Log>,
    ghost as_many_tunings: { length tunings.items ≡ length stations.items },
    ghost as_many_logs: { length logs.items ≡ length stations.items },
    ghost tuned: { All IsTuned tunings.items },
    ghost in_order: { IsNonDecreasingBy number_of stations.items },
}

impl Receivers {
    ghost use Rattle.bank.specs.Hearing.{IsBank};
    ghost use Rattle.search_bench.specs.Receivers.{count_of};

    /// No receiver.
    pub fn none(alloc: Global) -> Receivers
        ensures { count_of result ≡ 0 }
    {
        Receivers {
            stations: Vec::new(alloc),
            tunings: Vec::new(alloc),
            logs: Vec::new(alloc),
        }
    }

    /// These receivers and one more, whose station is the last one's or comes behind it. Another is refused as words are that
    /// aren't in order.
    pub fn with(self, station: Station, tuning: Tuning, log: Log) -> Result<Receivers, Fault>
        requires { IsTuned tuning }
        ensures { IfOk result (λ more. count_of more ≡ count_of self + 1) }
    {
        let Receivers {
            mut stations,
            mut tunings,
            mut logs,
        } = self;
        if !comes_next(stations.as_slice(), station) {
            return Err(Fault::Words);
        }
        stations.push(station)?;
        tunings.push(tuning)?;
        logs.push(log)?;
        Ok(Receivers {
            stations,
            tunings,
            logs,
        })
    }

    /// The bank of these, 1 to 8. It counts the milliseconds that differ, and admits every sequence.
    pub fn bank(self) -> Bank
        requires some { 1 ≤ count_of self }
        requires few { count_of self ≤ MOST_RECEIVERS }
        ensures { IsBank result }
    {
        let Receivers {
            stations,
            tunings,
            logs,
        } = self;
        Bank {
            stations,
            tunings,
            logs,
            table: CostTable::default(),
            ceiling: GREATEST_COST,
        }
    }
}

// Whether a station is the last of these, or comes behind it.
fn comes_next(stations: &[Station], station: Station) -> bool
    ensures { result ≡ true → ComesNext stations.now station }
{
    if stations.is_empty() {
        return true;
    }
    stations[stations.len() - 1].number() <= station.number()
}

/// A tuning of a receiver that doesn't lag and counts once.
pub fn plain_tuning() -> Tuning
    ensures { IsTuned result }
{
    Tuning {
        delay: 0,
        weight: 1,
        table: None,
    }
}

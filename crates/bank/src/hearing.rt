//! A bank: its receivers with what they heard, and the window that is asked about.

ghost use Rattle.std.specs.Prelude.{◌≡◌, ◌==◌, ◌<◌, IfOk, length, map, unwrap_or};
ghost use Rattle.std.specs.List.{list_any};
ghost use Rattle.std.specs.Option.{ForSome};
ghost use Rattle.signal_base.specs.Number.{number_of};
ghost use Rattle.definitions.specs.sequences.Windows.{IsWindow};
ghost use Rattle.definitions.specs.heard.Costs.{least};
ghost use Rattle.formats.specs.OrderRanges.{IsAsked};
ghost use Rattle.bank_config.specs.Configuration.{plain_config};
ghost use Rattle.bank_config.specs.InRange.{IsInRange};
ghost use Rattle.due.specs.Banks.{bank_of, bit_where, window_of};
ghost use Rattle.bank.specs.Hearing.{IsBank, bank_seen, earlier, stations_among, times_of};

use crate::loading::Loaded;
use align::phase;
use bank_config::Receiver;
use formats::{Asked, TIME_LIMIT};
use pulse_log::Log;
use signal_base::{CostTable, Station, Stations, Tuning, Window};
use std::alloc::{AllocError, Global};

/// What is scored: receivers with what they heard, what a tenth of a second costs, and above which cost nothing is
/// admitted. The lists have one entry for each receiver, in the same order.
#[derive(Drop)]
pub struct Bank {
    /// The station that each receiver listens to.
    pub stations: Vec<Station>,
    /// How each lags and how much it counts.
    pub tunings: Vec<Tuning>,
    /// What each heard.
    pub logs: Vec<Log>,
    /// What a tenth of a second costs.
    pub table: CostTable,
    /// Sequences that cost more aren't admitted.
    pub ceiling: u32,
}

/// The bank of a configuration and its logs.
pub fn bank_of(alloc: Global, loaded: Loaded) -> Result<Bank, AllocError>
    requires in_range { IsInRange loaded.config }
    requires logs { length loaded.logs.items ≡ length loaded.config.receivers.items }
    ensures bank { IfOk result (λ bank. bank_seen bank ≡ bank_of (plain_config loaded.config) loaded.logs.items) }
    ensures in_range { IfOk result IsBank }
{
    let stations = stations_in(alloc, loaded.config.receivers.as_slice())?;
    let tunings = tunings_in(alloc, loaded.config.receivers.as_slice())?;
    Ok(Bank {
        stations,
        tunings,
        logs: loaded.logs,
        table: loaded.config.table,
        ceiling: loaded.config.ceiling,
    })
}

// The station of each receiver.
fn stations_in(alloc: Global, receivers: &[Receiver]) -> Result<Vec<Station>, AllocError>
    ensures { IfOk result (λ stations. stations.items ≡ map (λ r. r.station) receivers.now) }
{
    receivers
        .iter()
        .map(|receiver| receiver.station)
        .collect(alloc)
}

// The tuning of each receiver.
fn tunings_in(alloc: Global, receivers: &[Receiver]) -> Result<Vec<Tuning>, AllocError>
    ensures { IfOk result (λ tunings. tunings.items ≡ map (λ r. r.tuning) receivers.now) }
{
    receivers
        .iter()
        .map(|receiver| receiver.tuning)
        .collect(alloc)
}

/// The window that is asked about: of the stations that are listened to, from the millisecond that is given, else from the
/// least time of a first record on, and with the phase that fits best.
pub fn window_of(bank: &Bank, asked: &Asked) -> Window
    requires bank { IsBank bank.now }
    requires asked { IsAsked asked.now }
    ensures window { result ≡ window_of asked.now (bank_seen bank.now).receivers }
    ensures in_range { IsWindow result }
{
    let start = start_of(asked.start, bank.logs.as_slice());
    Window {
        stations: stations_heard(bank.stations.as_slice()),
        start,
        phase: phase(
            bank.stations.as_slice(),
            bank.tunings.as_slice(),
            bank.logs.as_slice(),
            start,
            asked.seconds,
        ),
        seconds: asked.seconds,
        from: asked.from,
        to: asked.to,
    }
}

// The given start, else the least time of a log's first record.
fn start_of(given: Option<u64>, logs: &[Log]) -> u64
    requires { ForSome given (λ start. start < TIME_LIMIT) }
    ensures start { result ≡ unwrap_or given (unwrap_or (least (times_of logs.now)) 0) }
    ensures bound { result < TIME_LIMIT }
{
    match given {
        Some(start) => start,
        None => first_time(logs),
    }
}

// The least time of a log's first record, and 0 where no log has one.
fn first_time(logs: &[Log]) -> u64
    ensures time { result ≡ unwrap_or (least (times_of logs.now)) 0 }
    ensures bound { result < TIME_LIMIT }
{
    let mut first = None;
    for i in 0..logs.len() {
        first = earlier(first, &logs[i]);
    }
    match first {
        Some(time) => time,
        None => 0,
    }
}

// The lesser of a time and that of a log's first record, as far as there are any.
fn earlier(first: Option<u64>, log: &Log) -> Option<u64>
    requires { ForSome first (λ time. time < TIME_LIMIT) }
    ensures time { result ≡ earlier first log.now }
    ensures bound { ForSome result (λ time. time < TIME_LIMIT) }
{
    if log.is_empty() {
        return first;
    }
    let (time, _) = log.entry(0);
    match first {
        Some(first) => Some(first.min(time)),
        None => Some(time),
    }
}

// The stations to which receivers listen.
fn stations_heard(stations: &[Station]) -> Stations
    ensures { result ≡ stations_among stations.now }
{
    Stations {
        mask: bit_where(is_among(stations, Station::Dcf77), 1)
            + bit_where(is_among(stations, Station::Msf), 2)
            + bit_where(is_among(stations, Station::Wwvb), 4)
            + bit_where(is_among(stations, Station::Jjy), 8),
    }
}

fn bit_where(heard: bool, bit: u8) -> u8
    ensures { result ≡ bit_where heard bit }
{
    if heard { bit } else { 0 }
}

fn is_among(stations: &[Station], station: Station) -> bool
    ensures { result ≡ list_any (λ s. number_of s == number_of station) stations.now }
{
    for i in 0..stations.len() {
        if stations[i].number() == station.number() {
            return true;
        }
    }
    false
}

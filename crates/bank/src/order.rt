//! Receivers and their logs in the order of stations: DCF77, MSF, WWVB, JJY.

ghost use Rattle.std.specs.Prelude.{◌≡◌, IfOk, OnOk, length, map};
ghost use Rattle.std.specs.List.{zip};
ghost use Rattle.std.specs.List.Sorted.{IsNonDecreasingBy, IsPermutation};
ghost use Rattle.signal_base.specs.Number.{number_of};
ghost use Rattle.bank_config.specs.Configuration.{plain_config};
ghost use Rattle.bank_config.specs.InRange.{IsInRange};
ghost use Rattle.bank.specs.Order.{IsInOrder, in_station_order};

use crate::loading::Loaded;
use bank_config::{Config, Receiver};
use pulse_log::Log;
use std::alloc::{AllocError, Global};

/// A configuration and the logs of its receivers, put in the order of the receivers' stations. Receivers of one station
/// stay in the order in which they stood.
pub fn in_station_order(alloc: Global, config: Config, logs: Vec<Log>) -> Result<Loaded, AllocError>
    requires in_range { IsInRange config }
    requires one_each { length logs.items ≡ length config.receivers.items }
    ensures order { IfOk result (λ loaded. IsInOrder (plain_config config) logs.items (plain_config loaded.config) loaded.logs.items) }
    ensures in_range { IfOk result (λ loaded. IsInRange loaded.config) }
    ensures one_each { IfOk result (λ loaded. length loaded.logs.items ≡ length loaded.config.receivers.items) }
{
    let Config {
        station,
        ceiling,
        receivers,
        table,
    } = config;
    let mut pairs = pairs_of(alloc, receivers, logs)?;
    sort_by_station(&mut pairs)?;
    let (receivers, logs) = parted(alloc, pairs)?;
    let config = Config {
        station,
        ceiling,
        receivers,
        table,
    };
    Ok(Loaded { config, logs })
}

// Each receiver beside its log.
fn pairs_of(
    alloc: Global,
    receivers: Vec<Receiver>,
    logs: Vec<Log>,
) -> Result<Vec<(Receiver, Log)>, AllocError>
    ensures { IfOk result (λ pairs. pairs.items ≡ zip receivers.items logs.items) }
{
    receivers.into_iter().zip(logs).collect(alloc)
}

// Sorts pairs by station.
fn sort_by_station(pairs: &mut Vec<(Receiver, Log)>) -> Result<(), AllocError>
    ensures order { OnOk result (pairs.new.items ≡ in_station_order (λ e. e.0.station) pairs.old.items) }
    ensures rises { OnOk result (IsNonDecreasingBy (λ e. number_of e.0.station) pairs.new.items) }
    ensures permutation { IsPermutation pairs.old.items pairs.new.items }
{
    pairs.sort_by_key(|pair| pair.0.station.number())
}

// The receivers and the logs of pairs.
fn parted(
    alloc: Global,
    pairs: Vec<(Receiver, Log)>,
) -> Result<(Vec<Receiver>, Vec<Log>), AllocError>
    ensures receivers { IfOk result (λ parts. parts.0.items ≡ map (λ e. e.0) pairs.items) }
    ensures logs { IfOk result (λ parts. parts.1.items ≡ map (λ e. e.1) pairs.items) }
{
    let mut receivers = Vec::new(alloc);
    let mut logs = Vec::new(alloc);
    for (receiver, log) in pairs {
        receivers.push(receiver)?;
        logs.push(log)?;
    }
    Ok((receivers, logs))
}

//! Reading a configuration's text.

ghost use Rattle.std.specs.Prelude.{ℕ, ◌≡◌, ◌≤◌, ◌≢◌, map, length, slice_index, vec_len, codes, All, IfOk, IfErr, Some, None};
ghost use Rattle.std.specs.List.{list_all};
ghost use Rattle.std.specs.Option.{ForSome};
ghost use Rattle.signal_base.specs.Limits.{IsCap, IsPriced};
ghost use Rattle.signal_base.specs.Table.{difference_table};
ghost use Rattle.bank_config.specs.declared.fault.ConfigFault.TheVariants.{NoMemory};
ghost use Rattle.bank_config.specs.Checked.{Gives, GivesOrNoMemory, if_given, optional};
ghost use Rattle.bank_config.specs.Configuration.{all_known, configuration_in, configuration_of, cost_table_in, plain_config, plain_receiver, receiver_in, receiver_known, second_at, table_known};
ghost use Rattle.bank_config.specs.InRange.{IsInRange, IsReceiverInRange};
ghost use Rattle.bank_config.specs.Values.{costs_in, each, station_in};
ghost use Rattle.toml.specs.Data.{get};
ghost use Rattle.toml.specs.View.{view};

use crate::limits::{CONFIG_LIMIT, COSTS, DEFAULT_CEILING, DEFAULT_DELAY, DEFAULT_WEIGHT};
use crate::lists::{costs_in, tables_in};
use crate::places::Place;
use crate::tables::may_make_too_many;
use crate::values::{file_at, name_at, number_at, number_in, required, station_in};
use crate::{Config, ConfigFault, Key, Receiver};
use signal_base::{
    CostTable, GREATEST_COST, LEAST_SECOND_COST, LEAST_WEIGHT, MOST_COST, MOST_DELAY,
    MOST_RECEIVERS, MOST_SECOND_COST, MOST_WEIGHT, Station, Tuning,
};
use std::alloc::Global;
use toml::Value;

// The station that a receiver names, or else the one at the top.
fn station_at(table: &Value, receiver: u8, top: Station) -> Result<Station, ConfigFault>
    ensures { Gives (λ station. station) result (optional top (station_in (Key.ReceiverStation receiver)) (get (codes "station") (view table.now))) }
{
    match table.get("station") {
        Some(value) => station_in(value, Key::ReceiverStation { receiver }),
        None => Ok(top),
    }
}

// The receiver's own cost table, if it gives one.
fn own_table_at(table: &Value, receiver: u8) -> Result<Option<CostTable>, ConfigFault>
    ensures priced { IfOk result (λ own. ForSome own IsPriced) }
    ensures costs { Gives (λ own. own) result (if_given (cost_table_in (Some receiver)) (get (codes "table") (view table.now))) }
{
    match table.get("table") {
        Some(value) => {
            let own = cost_table_in(value, Some(receiver))?;
            Ok(Some(own))
        }
        None => Ok(None),
    }
}

// The receiver of this number, counted from 1.
fn receiver_in(
    alloc: Global,
    table: &Value,
    receiver: u8,
    top: Station,
) -> Result<Receiver, ConfigFault>
    ensures receiver { GivesOrNoMemory plain_receiver result (receiver_in top receiver (view table.now)) }
    ensures in_range { IfOk result IsReceiverInRange }
{
    let name = name_at(table, Key::Name { receiver })?;
    let file = file_at(table, Key::File { receiver })?;
    let delay = number_at(
        table,
        "delay_ms",
        Key::Delay { receiver },
        0,
        MOST_DELAY as u32,
        DEFAULT_DELAY as u32,
    )?;
    let weight = number_at(
        table,
        "weight",
        Key::Weight { receiver },
        LEAST_WEIGHT as u32,
        MOST_WEIGHT as u32,
        DEFAULT_WEIGHT as u32,
    )?;
    let station = station_at(table, receiver, top)?;
    let own = own_table_at(table, receiver)?;
    let name = String::from_str(alloc, name)?;
    let file = String::from_str(alloc, file)?;
    Ok(Receiver {
        name,
        file,
        tuning: Tuning {
            delay: delay as u16,
            weight: weight as u8,
            table: own,
        },
        station,
    })
}

// The receivers in their order, each whole before the next.
fn receivers_in(alloc: Global, tables: &[Value], top: Station) -> Result<Vec<Receiver>, ConfigFault>
    requires { length tables.now ≤ MOST_RECEIVERS }
    ensures in_range { IfOk result (λ receivers. All IsReceiverInRange receivers.items) }
    ensures count { IfOk result (λ receivers. vec_len receivers ≡ length tables.now) }
    ensures receivers { GivesOrNoMemory (λ receivers. map plain_receiver receivers.items) result (each (receiver_in top) 1 (map view tables.now)) }
{
    let mut receivers = Vec::new(alloc);
    let mut number = 0u8;
    for table in tables {
        number += 1;
        receivers.push(receiver_in(alloc, table, number, top)?)?;
    }
    Ok(receivers)
}

// The cost table that the configuration gives, or else the one that counts the milliseconds that differ.
fn cost_table_at(config: &Value) -> Result<CostTable, ConfigFault>
    ensures priced { IfOk result IsPriced }
    ensures costs { Gives (λ costs. costs) result (optional difference_table (cost_table_in None) (get (codes "table") (view config.now))) }
{
    match config.get("table") {
        Some(value) => cost_table_in(value, None),
        None => Ok(CostTable::default()),
    }
}

// The cost table of a receiver, or of the bank. What it leaves out is as in the table that counts the milliseconds that differ.
fn cost_table_in(table: &Value, receiver: Option<u8>) -> Result<CostTable, ConfigFault>
    ensures costs { Gives (λ costs. costs) result (cost_table_in receiver (view table.now)) }
    ensures priced { IfOk result IsPriced }
{
    if !table.is_table() {
        return Err(ConfigFault::WrongKind {
            key: Key::CostTable { receiver },
        });
    }
    let usual = CostTable::default();
    let low = costs_at(table, "low", Key::Low { receiver }, usual.low)?;
    let high = costs_at(table, "high", Key::High { receiver }, usual.high)?;
    let second = second_at(table, Key::Second { receiver })?;
    Ok(CostTable { low, high, second })
}

// What a second costs at the most, if the cost table gives it.
fn second_at(table: &Value, key: Key) -> Result<Option<u16>, ConfigFault>
    ensures second { Gives (λ second. second) result (second_at key (view table.now)) }
    ensures cap { IfOk result (λ second. ForSome second IsCap) }
{
    match table.get("second") {
        Some(value) => {
            let most = number_in(
                value,
                key,
                LEAST_SECOND_COST as u32,
                MOST_SECOND_COST as u32,
            )?;
            Ok(Some(most as u16))
        }
        None => Ok(None),
    }
}

// The costs at a key of a cost table, or else the usual ones.
fn costs_at(
    table: &Value,
    word: &str,
    key: Key,
    usual: [u8; COSTS],
) -> Result<[u8; COSTS], ConfigFault>
    requires { (n : ℕ) → slice_index usual n ≤ MOST_COST }
    ensures costs { Gives (λ costs. costs) result (optional usual (costs_in key) (get word.now (view table.now))) }
    ensures most { IfOk result (λ costs. (n : ℕ) → slice_index costs n ≤ MOST_COST) }
{
    match table.get(word) {
        Some(value) => costs_in(value, key),
        None => Ok(usual),
    }
}

// Whether no unknown key stands in the cost table, if one is given here.
fn table_known(holder: &Value) -> bool
    ensures { result ≡ table_known (view holder.now) }
{
    match holder.get("table") {
        Some(value) => Place::OfTable.knows_all(value),
        None => true,
    }
}

// Whether no unknown key stands in a receiver or in its cost table.
fn receiver_known(receiver: &Value) -> bool
    ensures { result ≡ receiver_known (view receiver.now) }
{
    Place::OfReceiver.knows_all(receiver) && table_known(receiver)
}

fn receivers_known(tables: &[Value]) -> bool
    ensures { result ≡ list_all (λ table. receiver_known (view table)) tables.now }
{
    tables.iter().all(|table| receiver_known(table))
}

// Whether no unknown key stands anywhere.
fn all_known(config: &Value, tables: &[Value]) -> bool
    ensures { result ≡ all_known (view config.now) (map view tables.now) }
{
    if !Place::Top.knows_all(config) || !receivers_known(tables) {
        return false;
    }
    table_known(config)
}

// The configuration of a table.
fn config_in(alloc: Global, config: &Value) -> Result<Config, ConfigFault>
    ensures config { GivesOrNoMemory plain_config result (configuration_in (view config.now)) }
    ensures in_range { IfOk result IsInRange }
{
    let station = station_in(required(config, "station", Key::Station)?, Key::Station)?;
    let ceiling = number_at(
        config,
        "ceiling",
        Key::Ceiling,
        0,
        GREATEST_COST,
        DEFAULT_CEILING,
    )?;
    let tables = tables_in(required(config, "receiver", Key::Receiver)?)?;
    let receivers = receivers_in(alloc, tables, station)?;
    let table = cost_table_at(config)?;
    if !all_known(config, tables) {
        return Err(ConfigFault::UnknownKey);
    }
    Ok(Config {
        station,
        ceiling,
        receivers,
        table,
    })
}

/// Reads a configuration's text, of at most 1,000,000 bytes. The first fault in the order of the keys decides: the
/// station, the ceiling, the receivers one after the other, the cost table; an unknown key comes last. `NoMemory`
/// comes for want of memory, and where the text may make more than 80,000 tables.
pub fn read_config(alloc: Global, bytes: &[u8]) -> Result<Config, ConfigFault>
    requires { length bytes.now ≤ CONFIG_LIMIT }
    ensures read { IfOk result (λ config. configuration_of bytes.now ≡ Ok (plain_config config)) }
    ensures in_range { IfOk result IsInRange }
    ensures refused { IfErr result (λ fault. fault ≢ NoMemory → configuration_of bytes.now ≡ Err fault) }
{
    if may_make_too_many(bytes) {
        return Err(ConfigFault::NoMemory);
    }
    read_document(alloc, bytes)
}

// Reads a configuration's text, whatever tables it makes.
fn read_document(alloc: Global, bytes: &[u8]) -> Result<Config, ConfigFault>
    requires { length bytes.now ≤ CONFIG_LIMIT }
    ensures read { IfOk result (λ config. configuration_of bytes.now ≡ Ok (plain_config config)) }
    ensures in_range { IfOk result IsInRange }
    ensures refused { IfErr result (λ fault. fault ≢ NoMemory → configuration_of bytes.now ≡ Err fault) }
{
    match toml::table_from_slice(alloc, bytes) {
        Ok(table) => {
            let config = Value::Table(table);
            config_in(alloc, &config)
        }
        Err(error) => Err(if error.is_memory() {
            ConfigFault::NoMemory
        } else {
            ConfigFault::NotToml
        }),
    }
}

//! Reading a configuration and the logs that it names. Nothing here writes to a file.

ghost use Rattle.std.specs.Prelude.{◌≡◌, ◌≢◌, ◌≤◌, All, IfErr, IfOk, OnOk, length, map, string_bytes};
ghost use Rattle.std.specs.List.Sorted.{IsNonDecreasingBy};
ghost use Rattle.signal_base.specs.Number.{number_of};
ghost use Rattle.bank_files.specs.Seen.{OnlyReads, SameCounts};
ghost use Rattle.bank_files.specs.Told.{output_name};
ghost use Rattle.bank_config.specs.Configuration.{plain_config, plain_receiver};
ghost use Rattle.bank_config.specs.InRange.{IsInRange, IsReceiverInRange};
ghost use Rattle.due.specs.Configurations.{IsBadConfiguration, IsConfiguration, fault_refusal, name_of, receiver_of};
ghost use Rattle.due.specs.LogFiles.{IsBad, IsGood};
ghost use Rattle.bank.specs.declared.loading.Unloaded.TheVariants as kinds;
ghost use Rattle.bank.specs.Loading.{AreNotRead, AreRead, IsHalted, IsLoaded, IsLoadedInOrder, IsNotLoaded, IsNotRead, IsReadAs, log_file};

use crate::order::in_station_order;
use bank_config::{CONFIG_LIMIT, Config, ConfigFault, Key, Receiver, read_config};
use bank_files::{Files, ReadWhole, read_whole};
use formats::{KeyName, LOG_LIMIT, Name, Refusal};
use pulse_log::{Log, read_log};
use signal_base::MOST_RECEIVERS;
use std::alloc::{AllocError, AllocFailed, Global};

/// A configuration and what its receivers heard.
#[derive(Drop)]
pub struct Loaded {
    /// The configuration, with its receivers in the order of their stations: DCF77, MSF, WWVB, JJY. Those of one station
    /// stand as the text has them.
    pub config: Config,
    /// The receivers' logs, in the same order.
    pub logs: Vec<Log>,
    ghost in_order: { IsNonDecreasingBy (λ r. number_of r.station) config.receivers.items },
}

/// Why a configuration and its logs aren't loaded.
#[derive(Drop)]
pub enum Unloaded {
    /// The configuration or a log is refused.
    Refused {
        /// What is refused.
        refusal: Refusal,
    },
    /// A file couldn't be read.
    Failed,
    /// Memory wasn't found.
    NoMemory,
}

impl From<AllocError> for Unloaded {
    ghost from_gives = { λ _ why. why ≡ kinds.NoMemory };

    fn from(_error: AllocError) -> Unloaded {
        Unloaded::NoMemory
    }
}

impl<T: Drop> From<AllocFailed<T>> for Unloaded {
    ghost from_gives = { λ _ why. why ≡ kinds.NoMemory };

    fn from(_failed: AllocFailed<T>) -> Unloaded {
        Unloaded::NoMemory
    }
}

/// Reads and checks a configuration, and then its logs one after the other in the order of its receivers. The first that
/// is bad decides, and no file behind it is read. A refusal numbers receivers as the configuration does. What is loaded is
/// then put in the order of stations. No line is written here, so that what is refused is told like all else that is due.
pub fn load<F: Files>(alloc: Global, files: &mut F, config: &str) -> Result<Loaded, Unloaded>
    requires { config.now ≢ output_name }
    ensures loaded { IfOk result (λ loaded. IsLoadedInOrder (F.view files.old) config.now (plain_config loaded.config) loaded.logs.items) }
    ensures in_range { IfOk result (λ loaded. IsInRange loaded.config) }
    ensures one_each { IfOk result (λ loaded. length loaded.logs.items ≡ length loaded.config.receivers.items) }
    ensures not_loaded { IfErr result (IsNotLoaded (F.view files.old) (F.view files.new) config.now) }
    ensures same_counts { OnOk result (SameCounts (F.view files.old) (F.view files.new)) }
    ensures only { OnlyReads (F.view files.old) (F.view files.new) }
{
    let read = load_as_configured(alloc, files, config)?;
    Ok(in_station_order(alloc, read.0, read.1)?)
}

/// The same, with the receivers and their logs in the order in which the configuration has them.
pub fn load_as_configured<F: Files>(
    alloc: Global,
    files: &mut F,
    config: &str,
) -> Result<(Config, Vec<Log>), Unloaded>
    requires { config.now ≢ output_name }
    ensures loaded { IfOk result (λ read. IsLoaded (F.view files.old) config.now (plain_config read.0) read.1.items) }
    ensures in_range { IfOk result (λ read. IsInRange read.0) }
    ensures one_each { IfOk result (λ read. length read.1.items ≡ length read.0.receivers.items) }
    ensures not_loaded { IfErr result (IsNotLoaded (F.view files.old) (F.view files.new) config.now) }
    ensures same_counts { OnOk result (SameCounts (F.view files.old) (F.view files.new)) }
    ensures only { OnlyReads (F.view files.old) (F.view files.new) }
{
    let config = read_configuration(alloc, files, config)?;
    let logs = read_logs(alloc, files, config.receivers.as_slice())?;
    Ok((config, logs))
}

// Reads a configuration.
fn read_configuration<F: Files>(
    alloc: Global,
    files: &mut F,
    name: &str,
) -> Result<Config, Unloaded>
    requires { name.now ≢ output_name }
    ensures read { IfOk result (λ config. IsReadAs (F.view files.old) name.now (λ bytes. IsConfiguration bytes (plain_config config))) }
    ensures in_range { IfOk result IsInRange }
    ensures not_read { IfErr result (IsNotRead (F.view files.old) (F.view files.new) name.now IsBadConfiguration) }
    ensures same_counts { OnOk result (SameCounts (F.view files.old) (F.view files.new)) }
    ensures only { OnlyReads (F.view files.old) (F.view files.new) }
{
    match read_whole(alloc, files, name, CONFIG_LIMIT as u64) {
        Ok(bytes) => configuration_in(alloc, bytes.as_slice()),
        Err(ReadWhole::Failed) => Err(Unloaded::Failed),
        Err(ReadWhole::NoMemory) => Err(Unloaded::NoMemory),
        Err(ReadWhole::TooLarge) => Err(Unloaded::Refused {
            refusal: Refusal::ConfigTooLarge,
        }),
    }
}

// The configuration of these bytes.
fn configuration_in(alloc: Global, bytes: &[u8]) -> Result<Config, Unloaded>
    requires { length bytes.now ≤ CONFIG_LIMIT }
    ensures read { IfOk result (λ config. IsConfiguration bytes.now (plain_config config)) }
    ensures in_range { IfOk result IsInRange }
    ensures refused { IfErr result (IsHalted (IsBadConfiguration bytes.now)) }
{
    match read_config(alloc, bytes) {
        Ok(config) => Ok(config),
        Err(fault) => match fault_refusal(fault) {
            Some(refusal) => Err(Unloaded::Refused { refusal }),
            None => Err(Unloaded::NoMemory),
        },
    }
}

// The line that a fault of a text gets.
fn fault_refusal(fault: ConfigFault) -> Option<Refusal>
    ensures { result ≡ fault_refusal fault }
{
    match fault {
        ConfigFault::NotToml => Some(Refusal::ConfigNotToml),
        ConfigFault::Missing { key } => Some(Refusal::ConfigMissing {
            key: name_of(key),
            receiver: receiver_of(key),
        }),
        ConfigFault::WrongKind { key } => Some(Refusal::ConfigWrongKind {
            key: name_of(key),
            receiver: receiver_of(key),
        }),
        ConfigFault::OutOfRange { key } => Some(Refusal::ConfigOutOfRange {
            key: name_of(key),
            receiver: receiver_of(key),
        }),
        ConfigFault::UnknownKey => Some(Refusal::ConfigUnknownKey),
        ConfigFault::NoMemory => None,
    }
}

fn name_of(key: Key) -> KeyName
    ensures { result ≡ name_of key }
{
    match key {
        Key::Station | Key::ReceiverStation { .. } => KeyName::Station,
        Key::Ceiling => KeyName::Ceiling,
        Key::Receiver => KeyName::Receiver,
        Key::Name { .. } => KeyName::Name,
        Key::File { .. } => KeyName::Log,
        Key::Delay { .. } => KeyName::Delay,
        Key::Weight { .. } => KeyName::Weight,
        Key::CostTable { .. } => KeyName::Table,
        Key::Low { .. } => KeyName::Low,
        Key::High { .. } => KeyName::High,
        Key::Second { .. } => KeyName::Second,
    }
}

fn receiver_of(key: Key) -> Option<u8>
    ensures { result ≡ receiver_of key }
{
    match key {
        Key::Name { receiver }
        | Key::File { receiver }
        | Key::Delay { receiver }
        | Key::Weight { receiver }
        | Key::ReceiverStation { receiver } => Some(receiver),
        Key::CostTable { receiver }
        | Key::Low { receiver }
        | Key::High { receiver }
        | Key::Second { receiver } => receiver,
        Key::Station | Key::Ceiling | Key::Receiver => None,
    }
}

// Reads the logs of receivers, in their order.
fn read_logs<F: Files>(
    alloc: Global,
    files: &mut F,
    receivers: &[Receiver],
) -> Result<Vec<Log>, Unloaded>
    requires few { length receivers.now ≤ MOST_RECEIVERS }
    requires receivers { All IsReceiverInRange receivers.now }
    ensures read { IfOk result (λ logs. AreRead (F.view files.old) (map plain_receiver receivers.now) logs.items) }
    ensures not_read { IfErr result (AreNotRead (F.view files.old) (F.view files.new) 1 (map plain_receiver receivers.now)) }
    ensures same_counts { OnOk result (SameCounts (F.view files.old) (F.view files.new)) }
    ensures only { OnlyReads (F.view files.old) (F.view files.new) }
{
    let mut logs = Vec::new(alloc);
    for i in 0..receivers.len() {
        let log = read_one(alloc, files, i as u8 + 1, &receivers[i])?;
        logs.push(log)?;
    }
    Ok(logs)
}

// Reads the log of a receiver, which has this number.
fn read_one<F: Files>(
    alloc: Global,
    files: &mut F,
    number: u8,
    receiver: &Receiver,
) -> Result<Log, Unloaded>
    requires { IsReceiverInRange receiver.now }
    ensures read { IfOk result (λ log. IsReadAs (F.view files.old) (string_bytes receiver.now.file) (λ bytes. IsGood bytes log)) }
    ensures not_read { IfErr result (IsNotRead (F.view files.old) (F.view files.new) (string_bytes receiver.now.file) (IsBad (log_file number (plain_receiver receiver.now)))) }
    ensures same_counts { OnOk result (SameCounts (F.view files.old) (F.view files.new)) }
    ensures only { OnlyReads (F.view files.old) (F.view files.new) }
{
    match read_whole(alloc, files, receiver.file.as_str(), LOG_LIMIT) {
        Ok(bytes) => log_in(alloc, bytes.as_slice(), number, receiver),
        Err(ReadWhole::Failed) => Err(Unloaded::Failed),
        Err(ReadWhole::NoMemory) => Err(Unloaded::NoMemory),
        Err(ReadWhole::TooLarge) => Err(Unloaded::Refused {
            refusal: Refusal::LogTooLarge {
                receiver: number,
                name: name_in(receiver),
            },
        }),
    }
}

// The log of these bytes, which a receiver of this number heard.
fn log_in(alloc: Global, bytes: &[u8], number: u8, receiver: &Receiver) -> Result<Log, Unloaded>
    requires limit { length bytes.now ≤ LOG_LIMIT }
    requires receiver { IsReceiverInRange receiver.now }
    ensures read { IfOk result (IsGood bytes.now) }
    ensures refused { IfErr result (IsHalted (IsBad (log_file number (plain_receiver receiver.now)) bytes.now)) }
{
    match read_log(alloc, bytes) {
        Ok(log) => Ok(log),
        Err(fault) => match fault.bad_line() {
            None => Err(Unloaded::NoMemory),
            Some((line, fault)) => Err(Unloaded::Refused {
                refusal: Refusal::LogLine {
                    receiver: number,
                    name: name_in(receiver),
                    line,
                    fault,
                },
            }),
        },
    }
}

// The name of a receiver, kept in the value itself.
fn name_in(receiver: &Receiver) -> Name
    requires { IsReceiverInRange receiver.now }
    ensures { result ≡ string_bytes receiver.now.name }
{
    Name::new(receiver.name.as_str())
}

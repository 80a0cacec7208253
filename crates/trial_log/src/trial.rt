//! A trial of a number.

ghost use Rattle.std.specs.Prelude.{◌≡◌, ◌≤◌, IfOk, map};
ghost use Rattle.trial_log.specs.Clean.{CanBeSent};
ghost use Rattle.trial_log.specs.Trials.{trial_logs, trial_receivers, trial_sequence, trial_station};

use crate::clean::clean_log;
use crate::noisy::noisy_text;
use civil::Civil;
use sequence::Sequence;
use signal_base::{MOST_RECEIVERS, Station};
use std::alloc::{AllocError, AllocFailed, Global};

/// How many seconds are heard.
pub const TRIAL_SECONDS: u16 = 1_200;

/// How many stations take turns.
pub const STATIONS: u32 = 4;

/// The first minutes of trials are below this, so that each station can send what follows in the century.
pub const FIRST_MINUTES: u32 = 52_590_000;

/// From one number to the next the first minute goes on by so many minutes.
pub const MINUTE_STEP: u32 = 1_000_003;

/// The first seconds of trials are below this: no leap second is announced.
pub const FIRST_SECONDS: u32 = 60;

/// The most milliseconds by which a record is moved.
pub const MOST_SHIFT: u32 = 20;

/// What was sent, and how it was heard.
#[derive(Drop)]
pub struct Trial {
    /// The station.
    pub station: Station,
    /// How many receivers heard it, 1 to 8.
    pub receivers: u8,
    /// How many seconds they heard, from millisecond 0 of their clock on.
    pub seconds: u16,
    /// What was sent from millisecond 0 on.
    pub sequence: Sequence,
    /// The text of each receiver's log.
    pub logs: Vec<Vec<u8>>,
}

/// Why a trial isn't made.
#[derive(Clone, Copy, Debug)]
pub enum TrialFault {
    /// Memory wasn't found.
    NoMemory,
}

impl From<AllocError> for TrialFault {
    fn from(_error: AllocError) -> TrialFault {
        TrialFault::NoMemory
    }
}

impl<T: Drop> From<AllocFailed<T>> for TrialFault {
    fn from(_failed: AllocFailed<T>) -> TrialFault {
        TrialFault::NoMemory
    }
}

/// Makes the trial of a number, for want of memory none. The station can send what is sent, all its seconds.
pub fn make(alloc: Global, civil: &Civil, number: u32) -> Result<Trial, TrialFault>
    ensures station { IfOk result (λ trial. trial.station ≡ trial_station number) }
    ensures receivers { IfOk result (λ trial. trial.receivers ≡ trial_receivers number) }
    ensures seconds { IfOk result (λ trial. trial.seconds ≡ TRIAL_SECONDS) }
    ensures sequence { IfOk result (λ trial. trial.sequence ≡ trial_sequence number) }
    ensures sent { IfOk result (λ trial. CanBeSent trial.station trial.sequence TRIAL_SECONDS) }
    ensures logs { IfOk result (λ trial. map (λ log. log.items) trial.logs.items ≡ trial_logs number) }
{
    let station = station_of(number);
    let sequence = sequence_of(number);
    let receivers = receivers_of(number);
    let heard = clean_log(alloc, civil, station, &sequence, TRIAL_SECONDS)?;
    let mut logs = Vec::new(alloc);
    for receiver in 0..receivers {
        logs.push(noisy_text(alloc, &heard, number, receiver)?)?;
    }
    Ok(Trial {
        station,
        receivers,
        seconds: TRIAL_SECONDS,
        sequence,
        logs,
    })
}

fn station_of(number: u32) -> Station
    ensures { result ≡ trial_station number }
{
    match number % STATIONS {
        0 => Station::Dcf77,
        1 => Station::Msf,
        2 => Station::Wwvb,
        _ => Station::Jjy,
    }
}

fn receivers_of(number: u32) -> u8
    ensures { result ≡ trial_receivers number }
{
    1 + (number / STATIONS % MOST_RECEIVERS as u32) as u8
}

// What is sent. It begins in a minute after which each station can send twenty more in the century.
fn sequence_of(number: u32) -> Sequence
    ensures sequence { result ≡ trial_sequence number }
    ensures sent { (station : Station) → CanBeSent station result TRIAL_SECONDS }
{
    Sequence {
        first: (number as u64 * MINUTE_STEP as u64 % FIRST_MINUTES as u64) as u32,
        second: (number % FIRST_SECONDS) as u8,
        announced: false,
    }
}

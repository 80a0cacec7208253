//! What is due for a trial.

ghost use Rattle.std.specs.Prelude.{◌≡◌, IfErr, IfOk, map};
ghost use Rattle.formats.specs.OrderRanges.{IsAsked};
ghost use Rattle.trial_log.specs.Trials.{trial_logs, trial_receivers, trial_station};
ghost use Rattle.due.specs.Trials.{trial_asked, trial_bank};
ghost use Rattle.bank.specs.Finding.{CanBeWritten, IsTried};
ghost use Rattle.bank.specs.Hearing.{IsBank, bank_seen};
ghost use Rattle.bank.specs.Tasks.{AreWorkers};
ghost use Rattle.bank.specs.declared.stop.Stop.TheVariants.{NoMemory};

use crate::decoding::decode;
use crate::hearing::Bank;
use crate::stop::Stop;
use civil::Civil;
use definitions::CENTURY_MINUTES;
use due::Due;
use formats::Asked;
use pulse_log::read_log;
use signal_base::{CostTable, GREATEST_COST, Station, Tuning};
use std::alloc::Global;
use std::thread::Threads;
use trial_log::{TRIAL_SECONDS, make, trials_are_logs};
use workers::Gate;

/// What is due for the trial of a number: the summary of its answer.
pub fn trial_due<R: Threads + Sync, G: Gate + Sync>(
    rt: &R,
    alloc: Global,
    civil: &Civil,
    number: u32,
    workers: u8,
    gate: &G,
) -> Result<Due, Stop>
    requires { AreWorkers workers }
    ensures due { IfOk result (IsTried number) }
    ensures can_be_written { IfOk result CanBeWritten }
    ensures memory { IfErr result (λ stop. stop ≡ NoMemory) }
{
    let trial = make(alloc, civil, number)?;
    let bank = bank_of_trial(alloc, number, trial.station, trial.logs.as_slice())?;
    let decoded = decode(rt, alloc, civil, &bank, &asked_of_trials(), workers, gate)?;
    Ok(Due::Trial {
        number,
        station: trial.station,
        receivers: trial.receivers,
        sent: trial.sequence,
        answer: decoded.answer,
    })
}

// All that is heard, in all minutes of the century.
fn asked_of_trials() -> Asked
    ensures asked { result ≡ trial_asked }
    ensures in_range { IsAsked result }
{
    Asked {
        start: Some(0),
        seconds: TRIAL_SECONDS,
        from: 0,
        to: CENTURY_MINUTES,
    }
}

// The bank of a trial, from the texts of its logs.
fn bank_of_trial(
    alloc: Global,
    number: u32,
    station: Station,
    texts: &[Vec<u8>],
) -> Result<Bank, Stop>
    requires station { station ≡ trial_station number }
    requires texts { map (λ text. text.items) texts.now ≡ trial_logs number }
    ensures bank { IfOk result (λ bank. bank_seen bank ≡ trial_bank number) }
    ensures in_range { IfOk result IsBank }
    ensures memory { IfErr result (λ stop. stop ≡ NoMemory) }
{
    trials_are_logs();
    let mut stations = Vec::new(alloc);
    let mut tunings = Vec::new(alloc);
    let mut logs = Vec::new(alloc);
    for i in 0..texts.len() {
        let Ok(log) = read_log(alloc, texts[i].as_slice()) else {
            return Err(Stop::NoMemory);
        };
        stations.push(station)?;
        tunings.push(Tuning {
            delay: 0,
            weight: 1,
            table: None,
        })?;
        logs.push(log)?;
    }
    Ok(Bank {
        stations,
        tunings,
        logs,
        table: CostTable::default(),
        ceiling: GREATEST_COST,
    })
}

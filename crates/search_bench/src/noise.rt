//! Banks of receivers that hear noise.

ghost use Rattle.std.specs.Prelude.{◌≤◌, IfOk, length};
ghost use Rattle.signal_base.specs.Limits.{IsTuned};
ghost use Rattle.signal_base.specs.declared.limits.TheConstants.{MOST_SECONDS, MOST_RECEIVERS};
ghost use Rattle.bank.specs.Hearing.{IsBank};

use crate::chance::Chance;
use crate::fault::Fault;
use crate::receivers::Receivers;
use bank::Bank;
use formats::LOG_LIMIT;
use pulse_log::{Log, read_log};
use signal_base::{MOST_DELAY, MOST_WEIGHT, Station, Tuning};
use std::alloc::{AllocError, Global};

// A level stays for so many milliseconds at least, and so many more at most.
const SHORTEST: u32 = 20;

const MORE: u32 = 580;

// One level in so many is unknown.
const UNKNOWN_SHARE: u32 = 10;

/// A bank with a receiver for each of these stations, 1 to 8, that hears noise for so many seconds, and is tuned by chance.
pub fn noisy_bank(
    alloc: Global,
    chance: &mut Chance,
    of: &[Station],
    seconds: u16,
) -> Result<Bank, Fault>
    requires some { 1 ≤ length of.now }
    requires few { length of.now ≤ MOST_RECEIVERS }
    requires seconds { seconds ≤ MOST_SECONDS }
    ensures { IfOk result IsBank }
{
    let mut receivers = Receivers::none(alloc);
    for i in 0..of.len() {
        let log = noise(alloc, chance, seconds)?;
        receivers = receivers.with(of[i], tuning(chance), log)?;
    }
    Ok(receivers.bank())
}

// Some delay and some weight.
fn tuning(chance: &mut Chance) -> Tuning
    ensures { IsTuned result }
{
    Tuning {
        delay: chance.between(0, MOST_DELAY as u32) as u16,
        weight: chance.between(1, MOST_WEIGHT as u32) as u8,
        table: None,
    }
}

// A log of noise.
fn noise(alloc: Global, chance: &mut Chance, seconds: u16) -> Result<Log, Fault>
    requires { seconds ≤ MOST_SECONDS }
{
    let text = pulses(alloc, chance, 1000 * seconds as u32)?;
    if text.len() as u64 > LOG_LIMIT {
        return Err(Fault::NoLog);
    }
    let log = read_log(alloc, text.as_bytes())?;
    Ok(log)
}

// The text of a log up to some millisecond: levels that stay for a while, or of which nothing is known.
fn pulses(alloc: Global, chance: &mut Chance, end: u32) -> Result<String, AllocError> {
    let mut text = String::new(alloc);
    let mut time = 0u32;
    let mut is_low = false;
    for _ in 0..end / SHORTEST {
        let letter = if chance.below(UNKNOWN_SHARE) == 0 {
            'X'
        } else if is_low {
            'L'
        } else {
            'H'
        };
        write!(text, "{time} {letter}\n")?;
        is_low = !is_low;
        time = time.saturating_add(SHORTEST + chance.below(MORE + 1));
        if time >= end {
            break;
        }
    }
    Ok(text)
}

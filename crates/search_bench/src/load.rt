//! Banks from the logs that words name.

ghost use Rattle.std.specs.Prelude.{◌≤◌, IfOk};
ghost use Rattle.bank.specs.Hearing.{IsBank};

use crate::fault::Fault;
use crate::receivers::{Receivers, plain_tuning};
use bank::Bank;
use formats::LOG_LIMIT;
use pulse_log::{Log, read_log};
use signal_base::{MOST_RECEIVERS, Station};
use std::fs;
use std::rt::Files;

/// The bank of these receivers, each a station and the file of its log, as `jjy=a.log`. None lags, and all count alike.
pub fn load<R: Files + AllocGlobal>(rt: &R, words: &[String]) -> Result<Bank, Fault>
    ensures { IfOk result IsBank }
{
    if words.is_empty() || words.len() > MOST_RECEIVERS {
        return Err(Fault::Words);
    }
    let mut receivers = Receivers::none(rt.alloc());
    for i in 0..words.len() {
        let (station, log) = receiver(rt, words[i].as_str())?;
        receivers = receivers.with(station, plain_tuning(), log)?;
    }
    Ok(receivers.bank())
}

// A receiver.
fn receiver<R: Files + AllocGlobal>(rt: &R, word: &str) -> Result<(Station, Log), Fault> {
    let Some((name, file)) = word.split_once('=') else {
        return Err(Fault::Words);
    };
    let station = station_of(name)?;
    let text = fs::read(rt, file)?;
    if text.len() as u64 > LOG_LIMIT {
        return Err(Fault::NoLog);
    }
    let log = read_log(rt.alloc(), text.as_slice())?;
    Ok((station, log))
}

// The station of a name.
fn station_of(name: &str) -> Result<Station, Fault> {
    match name {
        "dcf77" => Ok(Station::Dcf77),
        "msf" => Ok(Station::Msf),
        "wwvb" => Ok(Station::Wwvb),
        "jjy" => Ok(Station::Jjy),
        _ => Err(Fault::Words),
    }
}

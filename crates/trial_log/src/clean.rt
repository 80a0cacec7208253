//! What a receiver without noise hears.

ghost use Rattle.std.specs.Prelude.{◌≡◌, ◌++◌, IfOk, OnOk};
ghost use Rattle.trial_log.specs.Clean.{CanBeSent, clean_log, level_when, new_record};

use crate::symbol::clean_wave;
use civil::Civil;
use definitions::Level;
use sequence::{Sequence, next_place};
use signal_base::Station;
use std::alloc::{AllocError, Global};

/// The log of some seconds of a sequence, from its first second on: records of a time in milliseconds and the level from
/// then on.
pub fn clean_log(
    alloc: Global,
    civil: &Civil,
    station: Station,
    q: &Sequence,
    seconds: u16,
) -> Result<Vec<(u32, Level)>, AllocError>
    requires { CanBeSent station q.now seconds }
    ensures { IfOk result (λ log. log.items ≡ clean_log station q.now seconds) }
{
    let mut records = Vec::new(alloc);
    let mut place = (q.first, q.second);
    let mut before = Level::Unknown;
    for slot in 0..seconds {
        let wave = clean_wave(civil, station, q.announced, place);
        for tenth in 0..10u8 {
            let level = level_when(wave[tenth as usize]);
            let time = 1000 * slot as u32 + 100 * tenth as u32;
            push_change(&mut records, time, before, level)?;
            before = level;
        }
        place = next_place(civil, q.announced, place);
    }
    records.push((1000 * seconds as u32, Level::High))?;
    Ok(records)
}

// The level of a carrier that is low, or not.
fn level_when(is_low: bool) -> Level
    ensures { result ≡ level_when is_low }
{
    if is_low { Level::Low } else { Level::High }
}

// Adds a record where the level is another than before.
fn push_change(
    records: &mut Vec<(u32, Level)>,
    time: u32,
    before: Level,
    level: Level,
) -> Result<(), AllocError>
    ensures { OnOk result (records.new.items ≡ records.old.items ++ new_record time before level) }
{
    if level == before {
        return Ok(());
    }
    records.push((time, level))?;
    Ok(())
}

//! The phase with which the edges agree most.

ghost use Rattle.std.specs.Prelude.{◌≡◌, ◌-◌, ◌*◌, ◌<◌, ◌≤◌, ℕ, length};
ghost use Rattle.definitions.specs.heard.Receivers.{receptions};
ghost use Rattle.definitions.specs.heard.Phase.{agreement, circular_distance, first_maximum, phase_of};
ghost use Rattle.align.specs.Counters.{AreAtMost, tally};
ghost use Rattle.align.specs.Receivers.{receivers};

use crate::edges::{Counters, SECOND, count_log};
use pulse_log::Log;
use signal_base::{Station, Tuning};

// How near an edge must be to a phase, in milliseconds, to agree with it. Each millisecond that is left counts one.
const NEAR: u16 = 50;

// The start edges of all receivers, by their offsets.
fn count_all(
    stations: &[Station],
    tunings: &[Tuning],
    logs: &[Log],
    start: u64,
    seconds: u16,
) -> Counters
    requires few { length stations.now ≤ 8 }
    requires tunings { length tunings.now ≡ length stations.now }
    requires logs { length logs.now ≡ length stations.now }
    requires start { start < 1_000_000_000_000 }
    ensures counts { (f : ℕ) → tally result (λ o. 50 - circular_distance o f)
        ≡ agreement start seconds (receivers stations.now (receptions tunings.now logs.now)) f }
    ensures bound { AreAtMost 1_600_000 result }
{
    let mut counts = [0; 1000];
    for i in 0..stations.len() {
        let begin = start + tunings[i].delay as u64;
        count_log(&mut counts, stations[i], begin, seconds, &logs[i]);
    }
    counts
}

// How far the edges agree with a phase. Those that are near it have the offsets from `NEAR - 1` ms before it to
// `NEAR - 1` ms after it, on the circle of a second.
fn agreement(counts: &Counters, f: u16) -> u64
    requires phase { f < 1000 }
    requires bound { AreAtMost 1_600_000 counts.now }
    ensures { result ≡ tally counts.now (λ o. 50 - circular_distance o f) }
{
    let mut sum = 0;
    for i in 1..2 * NEAR {
        let offset = (f + SECOND - NEAR + i) % SECOND;
        let left = NEAR - i.abs_diff(NEAR);
        sum += weighed(counts[offset as usize], left);
    }
    sum
}

fn weighed(count: u32, left: u16) -> u64
    requires count { count ≤ 1_600_000 }
    requires left { left ≤ 50 }
    ensures product { result ≡ count * left }
    ensures bound { result ≤ 80_000_000 }
{
    count as u64 * left as u64
}

// The first phase with which the edges agree most.
fn best(counts: &Counters) -> u16
    requires { AreAtMost 1_600_000 counts.now }
    ensures { result ≡ first_maximum (λ f. tally counts.now (λ o. 50 - circular_distance o f)) 999 }
{
    let mut best = 0;
    let mut most = agreement(counts, 0);
    for f in 1..SECOND {
        let agreement = agreement(counts, f);
        if most < agreement {
            best = f;
            most = agreement;
        }
    }
    best
}

/// The phase of a window of `seconds` seconds from millisecond `start` of the receivers' clock on, which is below
/// 10^12: the number of milliseconds from 0 to 999 with which the start edges agree most, and the least of those. There
/// are at most 8 receivers, each with its station, its tuning, which says how late it hears, and its log.
pub fn phase(
    stations: &[Station],
    tunings: &[Tuning],
    logs: &[Log],
    start: u64,
    seconds: u16,
) -> u16
    requires few { length stations.now ≤ 8 }
    requires tunings { length tunings.now ≡ length stations.now }
    requires logs { length logs.now ≡ length stations.now }
    requires start { start < 1_000_000_000_000 }
    ensures { result ≡ phase_of start seconds (receivers stations.now (receptions tunings.now logs.now)) }
{
    best(&count_all(stations, tunings, logs, start, seconds))
}

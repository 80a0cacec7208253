//! Trials of each station. The lines were worked out by a program apart from this project: PCG32 (XSH RR), checked against
//! the words that its reference code prints for state 42 and stream 54, and the stations' descriptions.

use crate::made::check_at;
use civil::Civil;
use signal_base::Station;
use std::alloc::Global;
use std::process::Abort;
use std::test::Fail;
use trial_log::{Trial, make};

// The log of a receiver: how it begins and ends, how many bytes it has, and their sum.
struct Expected {
    number: u32,
    station: Station,
    receivers: usize,
    receiver: usize,
    first: &'static str,
    last: &'static str,
    bytes: usize,
    sum: u64,
}

// The greatest number among them, and the last of eight receivers.
const LOGS: [Expected; 5] = [
    Expected {
        number: 0,
        station: Station::Dcf77,
        receivers: 1,
        receiver: 0,
        first: "0 L\n94 H\n1000 L\n1085 H\n2000 L\n2105 H\n",
        last: "\n1197091 H\n1198000 L\n1198109 H\n1200000 H\n",
        bytes: 21_419,
        sum: 1_003_588,
    },
    Expected {
        number: 5,
        station: Station::Msf,
        receivers: 2,
        receiver: 0,
        first: "0 L\n85 H\n1000 L\n1119 H\n2000 L\n2091 H\n3000 L\n3096 H\n4000 L\n4082 H\n5000 L\n5108 H\n",
        last: "\n1198081 H\n1199000 L\n1199118 H\n1200000 H\n",
        bytes: 21_785,
        sum: 1_021_195,
    },
    Expected {
        number: 5,
        station: Station::Msf,
        receivers: 2,
        receiver: 1,
        first: "0 L\n96 H\n1000 L\n1092 H\n2000 L\n2101 H\n3000 L\n3085 H\n4000 L\n4093 H\n5000 L\n5120 H\n",
        last: "\n1198113 H\n1199000 L\n1199088 H\n1200000 H\n",
        bytes: 21_785,
        sum: 1_021_456,
    },
    Expected {
        number: 6,
        station: Station::Wwvb,
        receivers: 2,
        receiver: 1,
        first: "0 L\n192 H\n1000 L\n1200 H\n2000 L\n2186 H\n3000 L\n3797 H\n",
        last: "\n1198210 H\n1199000 L\n1199501 H\n1200000 H\n",
        bytes: 21_786,
        sum: 1_023_697,
    },
    Expected {
        number: 4_294_967_295,
        station: Station::Jjy,
        receivers: 8,
        receiver: 7,
        first: "0 H\n815 L\n1000 H\n1812 L\n2000 H\n2780 L\n3000 H\n3494 L\n4000 H\n4215 L\n",
        last: "\n1198783 L\n1199000 H\n1199812 L\n1200000 H\n",
        bytes: 21_786,
        sum: 1_027_938,
    },
];

fn is_heard(trial: &Trial, expected: &Expected) -> bool {
    let Some(log) = trial.logs.get(expected.receiver) else {
        return false;
    };
    let sum: u64 = log
        .iter()
        .fold(0, |sum: u64, byte| sum.wrapping_add(*byte as u64));
    log.starts_with(expected.first.as_bytes())
        && log.ends_with(expected.last.as_bytes())
        && log.len() == expected.bytes
        && sum == expected.sum
}

// The station of a number's trial, how many receivers heard it, and whether the expected log is one of theirs.
fn heard_of(
    alloc: Global,
    civil: &Civil,
    expected: &Expected,
) -> Result<(Station, usize, bool), Fail> {
    let trial = make(alloc, civil, expected.number)?;
    Ok((trial.station, trial.logs.len(), is_heard(&trial, expected)))
}

fn makes_logs_of_each_station(rt: &(impl Abort + AllocGlobal), civil: &Civil) -> Result<(), Fail> {
    for expected in &LOGS {
        let found = heard_of(rt.alloc(), civil, expected)?;
        let due = (expected.station, expected.receivers, true);
        check_at(rt, found == due, expected.number as u64);
    }
    Ok(())
}

// Numbers, and the minute and the second that are sent first.
const SENT: [(u32, u32, u8); 3] = [(0, 0, 0), (5, 5_000_015, 5), (u32::MAX, 2_121_885, 15)];

// What the trial of a number sends: the first minute and second, whether a leap second is announced, and how many seconds.
fn sent(alloc: Global, civil: &Civil, number: u32) -> Result<(u32, u8, bool, u16), Fail> {
    let trial = make(alloc, civil, number)?;
    let sequence = trial.sequence;
    Ok((
        sequence.first,
        sequence.second,
        sequence.announced,
        trial.seconds,
    ))
}

fn sends_from_the_minute_and_second_of_a_number(
    rt: &(impl Abort + AllocGlobal),
    civil: &Civil,
) -> Result<(), Fail> {
    for (number, first, second) in &SENT {
        let found = sent(rt.alloc(), civil, *number)?;
        check_at(rt, found == (*first, *second, false, 1_200), *number as u64);
    }
    Ok(())
}

fn check_trials(rt: &(impl Abort + AllocGlobal), civil: &Civil) -> Result<(), Fail> {
    makes_logs_of_each_station(rt, civil)?;
    sends_from_the_minute_and_second_of_a_number(rt, civil)
}

#[test]
fn trials_and_their_logs(rt: HostRuntime) -> Result<(), Fail> {
    let civil = Civil::make(rt.alloc())?;
    check_trials(&rt, &civil)
}

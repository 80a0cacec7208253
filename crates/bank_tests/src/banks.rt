//! Runs over banks of several receivers, late logs and trials, over files that fail late, and by workers that wait for
//! each other. The texts are worked out by hand from the code descriptions.

use crate::made::{
    JJY, MINUTES, REPORT, SENTENCES, TWO_STATIONS, clean_log, files_of, files_of_two, printed,
    push_record, status_of, tells, tells_over,
};
use bank::{CertificateGate, Loaded, load};
use bank_files::{MemoryFiles, OneByte, SureFiles};
use std::alloc::{AllocError, Global};
use std::process::Abort;
use std::sync::atomic::{AtomicBool, Ordering};
use std::test::Fail;
use std::thread;
use std::thread::Threads;
use workers::{Gate, NoGate};

// How often a worker who is held looks for the other.
const TURNS: u32 = 10_000_000;

// 2024-06-10T06:15Z, in which JJY tells neither year nor weekday, as both send it. What may be 0 or 1 is 0.
const JJY_MINUTE: &str = "M00100101M000100101M000100110M001000110M000000000M000000000M";

const DCF77_MINUTE: &str = "00000000000000000100101101001000100100001010001100001001000-";

// The log of a receiver that hears a minute of DCF77 from millisecond 0 on.
fn dcf77_log(alloc: Global) -> Result<String, AllocError> {
    let mut text = String::new(alloc);
    push_dcf77(&mut text)?;
    Ok(text)
}

// Adds its records.
fn push_dcf77(text: &mut String) -> Result<(), AllocError> {
    let mut second = 0u64;
    for symbol in DCF77_MINUTE.bytes() {
        // Never reached: it bounds the sums.
        if second >= 1000 {
            return Ok(());
        }
        let low = match symbol {
            b'0' => 100,
            b'1' => 200,
            _ => 0,
        };
        if low > 0 {
            push_record(text, 1000 * second, "L")?;
            push_record(text, 1000 * second + low, "H")?;
        }
        second += 1;
    }
    push_record(text, 60_000, "H")
}

// A receiver of JJY, and behind it two of DCF77.
const THREE: &str =
    "station = \"jjy\"\n[[receiver]]\nname = \"a\"\nlog = \"a.log\"\n[[receiver]]\nname = \"b\"\nlog = \"b.log\"\nstation = \"dcf77\"\n[[receiver]]\nname = \"c\"\nlog = \"c.log\"\nstation = \"dcf77\"\n";

// Their logs, which end in different milliseconds.
fn files_of_three(alloc: Global) -> Result<MemoryFiles, Fail> {
    let mut files = files_of_two(alloc, THREE, "0 H\n7 L\n", "0 H\n5 L\n")?;
    files.put("c.log", b"0 H\n6 L\n")?;
    Ok(files)
}

// The receivers of DCF77 come first, in the configuration's order, and each keeps its own log.
#[test]
fn loads_in_the_order_of_stations(rt: HostRuntime) -> Result<(), Fail> {
    let mut files = files_of_three(rt.alloc())?;
    match load(rt.alloc(), &mut files, "k.toml") {
        Ok(loaded) => are_in_the_order_of_stations(&rt, &loaded),
        Err(_) => assert!(rt; false, "not loaded"),
    }
    Ok(())
}

// Each receiver by its place: its name, and in which millisecond its log ends.
const ORDER: [(usize, &str, u64); 3] = [(0, "b", 5), (1, "c", 6), (2, "a", 7)];

fn are_in_the_order_of_stations(rt: &impl Abort, loaded: &Loaded) {
    assert_eq!(rt; loaded.logs.len(), 3);
    for (i, name, last) in ORDER {
        assert!(rt; is_named(loaded, i, name), "{name}");
        assert!(rt; ends_in(loaded, i, last), "{name}");
    }
}

fn is_named(loaded: &Loaded, i: usize, name: &str) -> bool {
    loaded
        .config
        .receivers
        .get(i)
        .is_some_and(|r| r.name.as_str() == name)
}

// Tells whether this log's second entry is its last, and of this millisecond.
fn ends_in(loaded: &Loaded, i: usize, last: u64) -> bool {
    loaded
        .logs
        .get(i)
        .is_some_and(|log| log.len() == 2 && log.entry(1).0 == last)
}

// What is heard of both stations in the minute.
fn files_of_both(alloc: Global) -> Result<MemoryFiles, Fail> {
    let log = clean_log(alloc, &[JJY_MINUTE], 0)?;
    let other = dcf77_log(alloc)?;
    files_of_two(alloc, TWO_STATIONS, &log, &other)
}

// Tells whether a decode for these words tells the minute and its year.
fn tells_the_year<R: Threads + Sync + AllocGlobal>(rt: &R, line: &str) -> Result<bool, Fail> {
    let mut files = files_of_both(rt.alloc())?;
    tells(
        rt,
        &mut files,
        line,
        0,
        "decided 0\nphase 0\nsequence 2024-06-10T06:15Z 0 no\nnext 200\nminute 2024-06-10T06:15Z at 0\n",
    )
}

// Another year costs two bits of DCF77.
#[test]
fn two_stations_tell_the_year(rt: HostRuntime) -> Result<(), Fail> {
    for line in [
        "decode k.toml --seconds 60",
        "decode k.toml --seconds 60 --workers 1",
        "decode k.toml --seconds 60 --workers 8",
    ] {
        assert!(rt; tells_the_year(&rt, line)?, "{line}");
    }
    Ok(())
}

// The hour of the two minutes, from millisecond 0 of the receivers' clock on.
const HOUR_FROM_0: &str =
    "decode k.toml --start 0 --seconds 120 --from 2024-06-10T06:00Z --to 2024-06-10T06:59Z";

// The station with its one receiver, which is known to be late.
const DELAYED: &str =
    "station = \"jjy\"\n[[receiver]]\nname = \"a\"\nlog = \"a.log\"\ndelay_ms = 237\n";

// Tells whether a decode of a log that is 237 ms late prints this text.
fn tells_late<R: Threads + Sync + AllocGlobal>(
    rt: &R,
    config: &str,
    text: &str,
) -> Result<bool, Fail> {
    let log = clean_log(rt.alloc(), &MINUTES, 237)?;
    tells_over(rt, config, &log, HOUR_FROM_0, 0, text)
}

const LATE_REPORT: &str =
    "decided 0\nphase 237\nsequence 2024-06-10T06:16Z 0 no\nnext 1200\nminute 2024-06-10T06:16Z at 237\nminute 2024-06-10T06:17Z at 60237\n";

// A log that is 237 ms late has that phase, and none where the receiver is known to be so late.
#[test]
fn late_logs_are_in_phase(rt: HostRuntime) -> Result<(), Fail> {
    assert!(rt; tells_late(&rt, JJY, LATE_REPORT)?, "{LATE_REPORT}");
    assert!(rt; tells_late(&rt, DELAYED, REPORT)?, "{REPORT}");
    Ok(())
}

#[test]
fn tries_by_a_number(rt: HostRuntime) -> Result<(), Fail> {
    for line in ["trial 5", "trial 5 --workers 1", "trial 5 --workers 8"] {
        assert!(rt;
            tells_over(
                &rt,
                "",
                "",
                line,
                0,
                "trial 5\nstation msf\nreceivers 2\nsent 2009-07-04T05:35Z 5 no\ndecided\nfirst 2009-07-04T05:35Z 5 no\n",
            )?,
            "{line}"
        );
    }
    Ok(())
}

// Of files that read and write a byte a call, each file is read in one call more than it has bytes. Then the feed is
// written, and the call for its byte 50 fails.
fn files_that_fail_late(alloc: Global) -> Result<MemoryFiles, Fail> {
    let log = clean_log(alloc, &MINUTES, 0)?;
    let mut files = files_of(alloc, JJY, &log)?;
    let read = JJY.len() as u64 + log.len() as u64 + 2;
    files.fail(read.saturating_add(50))?;
    Ok(files)
}

fn keeps_a_front<R: Threads + Sync + AllocGlobal>(rt: &R) -> Result<bool, Fail> {
    let inner = files_that_fail_late(rt.alloc())?;
    let mut files = OneByte { inner };
    let status = status_of(
        rt,
        &mut files,
        "feed k.toml --seconds 120 --from 2024-06-10T06:00Z --to 2024-06-10T06:59Z",
        &NoGate,
    )?;
    Ok(status == 6 && printed(&files.inner, &SENTENCES[..49]))
}

#[test]
fn keeps_a_front_of_a_feed(rt: HostRuntime) -> Result<(), Fail> {
    assert!(rt; keeps_a_front(&rt)?);
    Ok(())
}

// Files of which nothing is kept that is written.
#[test]
fn ties_over_files_that_cannot_fail(rt: HostRuntime) -> Result<(), Fail> {
    let mut files = SureFiles::make(rt.alloc());
    files.give("k.toml", JJY.as_bytes())?;
    let line = "decode k.toml --seconds 60 --from 2024-06-10T00:00Z --to 2024-06-10T00:01Z";
    assert_eq!(rt; status_of(&rt, &mut files, line, &NoGate)?, 1);
    Ok(())
}

// Holds each of two workers at its first pass until both have made one.
#[derive(Drop)]
struct Meeting {
    first: AtomicBool,
    second: AtomicBool,
    gave_up: AtomicBool,
}

impl Gate for Meeting {
    fn pass(&self, worker: u32, _number: u64) {
        let mine = if worker == 0 {
            &self.first
        } else {
            &self.second
        };
        if mine.load(Ordering::SeqCst) {
            return;
        }
        mine.store(true, Ordering::SeqCst);
        for _ in 0..TURNS {
            if self.first.load(Ordering::SeqCst) && self.second.load(Ordering::SeqCst) {
                return;
            }
            thread::yield_now();
        }
        self.gave_up.store(true, Ordering::SeqCst);
    }
}

impl CertificateGate for Meeting {
    fn wrote(&self, _steps: u64) {}
}

// Tells whether a run for these words over an empty log, whose workers pass this gate, ends in a tie of the century's first
// two minutes.
fn ties_through<R: Threads + Sync + AllocGlobal>(
    rt: &R,
    line: &str,
    gate: &Meeting,
) -> Result<bool, Fail> {
    let mut files = files_of(rt.alloc(), JJY, "")?;
    let status = status_of(rt, &mut files, line, gate)?;
    Ok(
        status == 1
            && printed(
                &files,
                "undecided 0\nphase 0\nsequence 2000-01-01T00:00Z 0 no\nsequence 2000-01-01T00:01Z 0 no\n",
            ),
    )
}

// Both workers passed the gate, and neither waited in vain.
fn both_met(rt: &impl Abort, gate: &Meeting, line: &str) {
    assert!(rt;
        gate.first.load(Ordering::SeqCst),
        "worker 0 passed: {line}"
    );
    assert!(rt;
        gate.second.load(Ordering::SeqCst),
        "worker 1 passed: {line}"
    );
    assert!(rt;
        !gate.gave_up.load(Ordering::SeqCst),
        "neither waited in vain: {line}"
    );
}

// A run whose workers took turns would hold one of them in vain, also where a certificate is asked for.
#[test]
fn workers_search_beside_each_other(rt: HostRuntime) -> Result<(), Fail> {
    for line in [
        "decode k.toml --workers 2",
        "decode k.toml --workers 2 --certificate y.cert",
    ] {
        let gate = Meeting {
            first: AtomicBool::new(false),
            second: AtomicBool::new(false),
            gave_up: AtomicBool::new(false),
        };
        assert!(rt; ties_through(&rt, line, &gate)?, "{line}");
        both_met(&rt, &gate, line);
    }
    Ok(())
}

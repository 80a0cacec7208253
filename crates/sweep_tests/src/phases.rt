//! Runs of `sweep` over files in memory, with ample memory. The texts are worked out from docs/FORMATS.md and the code
//! descriptions, by hand and by a program that tries one sequence after the other at each phase.

use crate::made::{
    HOUR, JJY, JJY_WAVES, LATE_RISES, Lag, MINUTES, SWEPT, files_of, heard, printed, words,
};
use bank::CertificateGate;
use bank_files::OneByte;
use std::sync::atomic::{AtomicU64, Ordering};
use std::test::Fail;
use std::thread::Threads;
use sweep::{PhaseGate, sweep};
use workers::{Gate, NoGate};

// One receiver of MSF, named a, whose log is a.log.
const MSF: &str = "station = \"msf\"\n[[receiver]]\nname = \"a\"\nlog = \"a.log\"\n";

// What is low and high in the ten tenths of a second, by symbol.
const MSF_WAVES: [(u8, &str); 5] = [
    (b'0', "LHHHHHHHHH"),
    (b'1', "LHLHHHHHHH"),
    (b'2', "LLHHHHHHHH"),
    (b'3', "LLLHHHHHHH"),
    (b'M', "LLLLLHHHHH"),
];

const CLEAN: Lag = Lag {
    all: 0,
    level: b'H',
    more: 0,
};

// Whether a run of this line ends with this status and prints this text.
fn tells<R: Threads + Sync + AllocGlobal>(
    rt: &R,
    config: &str,
    log: &str,
    line: &str,
    status: u8,
    text: &str,
) -> Result<bool, Fail> {
    let mut files = files_of(rt.alloc(), config, log)?;
    let words = words(rt.alloc(), line)?;
    let ended = sweep(rt, rt.alloc(), &words, &mut files, &NoGate);
    Ok(ended == status && printed(&files, text))
}

// The same where the log is that of these minutes.
fn sweeps<R: Threads + Sync + AllocGlobal>(
    rt: &R,
    config: &str,
    lag: Lag,
    line: &str,
    status: u8,
    text: &str,
) -> Result<bool, Fail> {
    let log = heard(rt.alloc(), &JJY_WAVES, &MINUTES, lag)?;
    tells(rt, config, &log, line, status, text)
}

// Over the whole century. A decode finds the phase 30, and `decided 3600`.
#[test]
fn finds_the_better_phase(rt: HostRuntime) -> Result<(), Fail> {
    assert!(rt; sweeps(&rt, JJY, LATE_RISES, "sweep k.toml --seconds 120", 0, SWEPT)?);
    Ok(())
}

#[test]
fn tells_of_a_clean_log_what_a_decode_tells(rt: HostRuntime) -> Result<(), Fail> {
    assert!(rt;
        sweeps(
            &rt,
            JJY,
            CLEAN,
            HOUR,
            0,
            "decided 0\nphase 0\nsequence 2024-06-10T06:16Z 0 no\nnext 1200\nminute 2024-06-10T06:16Z at 0\nminute 2024-06-10T06:17Z at 60000\n",
        )?
    );
    Ok(())
}

#[test]
fn any_number_of_workers_tells_the_same(rt: HostRuntime) -> Result<(), Fail> {
    for workers in [1, 2, 4, 8] {
        assert!(rt; sweeps_with(&rt, workers)?, "{workers}");
    }
    Ok(())
}

// Whether so many workers tell the better phase.
fn sweeps_with<R: Threads + Sync + AllocGlobal>(rt: &R, workers: u8) -> Result<bool, Fail> {
    let line = format!(in rt.alloc(); "{HOUR} --workers {workers}")?;
    sweeps(rt, JJY, LATE_RISES, &line, 0, SWEPT)
}

// Files that read and write a byte a call.
#[test]
fn prints_the_same_byte_by_byte(rt: HostRuntime) -> Result<(), Fail> {
    assert!(rt; sweeps_byte_by_byte(&rt)?);
    Ok(())
}

fn sweeps_byte_by_byte<R: Threads + Sync + AllocGlobal>(rt: &R) -> Result<bool, Fail> {
    let log = heard(rt.alloc(), &JJY_WAVES, &MINUTES, LATE_RISES)?;
    let words = words(rt.alloc(), HOUR)?;
    let inner = files_of(rt.alloc(), JJY, &log)?;
    let mut files = OneByte { inner };
    let status = sweep(rt, rt.alloc(), &words, &mut files, &NoGate);
    Ok(status == 0 && printed(&files.inner, SWEPT))
}

// The configuration and the log are read in two calls each, and the report is written in one.
#[test]
fn ends_at_a_failing_file(rt: HostRuntime) -> Result<(), Fail> {
    for call in 1..6 {
        assert!(rt; ends_at(&rt, call)?, "call {call}");
    }
    Ok(())
}

// Whether a run whose call of this number fails ends with 6, and printed the report without its end.
fn ends_at<R: Threads + Sync + AllocGlobal>(rt: &R, call: u64) -> Result<bool, Fail> {
    let log = heard(rt.alloc(), &JJY_WAVES, &MINUTES, LATE_RISES)?;
    let words = words(rt.alloc(), HOUR)?;
    let mut files = files_of(rt.alloc(), JJY, &log)?;
    files.fail(call)?;
    let status = sweep(rt, rt.alloc(), &words, &mut files, &NoGate);
    let front = files.contents("-").unwrap_or(b"");
    Ok(status == 6 && front.len() < SWEPT.len() && SWEPT.as_bytes().starts_with(front))
}

// The two minutes of MSF from 2024-07-15T23:58Z on, which tell a DUT1 of -2 tenths.
const MSF_MINUTES: [&str; 2] = [
    "M00000000110000000020020000222020220020000000202200202332330",
    "M00000000110000000020020000222020220020000002000000002332230",
];

// A decode finds the phase 30.
#[test]
fn tells_dut1_at_the_better_phase(rt: HostRuntime) -> Result<(), Fail> {
    let late_falls = Lag {
        all: 0,
        level: b'L',
        more: 30,
    };
    let log = heard(rt.alloc(), &MSF_WAVES, &MSF_MINUTES, late_falls)?;
    let line = "sweep k.toml --seconds 60 --from 2024-07-15T23:50Z --to 2024-07-16T00:09Z";
    let text =
        "decided 1830\nphase 0\nsequence 2024-07-15T23:58Z 0 no\nnext 1940\ndut1 -2\nminute 2024-07-15T23:58Z at 0\n";
    assert!(rt; tells(&rt, MSF, &log, line, 0, text)?);
    Ok(())
}

// A receiver of each station, in another order than that of stations. That of JJY has the log, and the others heard nothing.
const FOUR: &str =
    "station = \"wwvb\"\n[[receiver]]\nname = \"w\"\nlog = \"b.log\"\n[[receiver]]\nname = \"j\"\nlog = \"a.log\"\nstation = \"jjy\"\n[[receiver]]\nname = \"m\"\nlog = \"b.log\"\nstation = \"msf\"\n[[receiver]]\nname = \"d\"\nlog = \"b.log\"\nstation = \"dcf77\"\n";

// JJY alone decides, and of what was never heard no value of DUT1 is told from another. The next is minute 15 of JJY at phase 30:
// there 60 seconds cost 30 each, but for the nine that aren't scored, and one bit differs at 300 and one at 240.
#[test]
fn sweeps_four_stations(rt: HostRuntime) -> Result<(), Fail> {
    let line = "sweep k.toml --seconds 60 --from 2024-06-10T06:10Z --to 2024-06-10T06:19Z";
    let text =
        "decided 1770\nphase 0\nsequence 2024-06-10T06:16Z 0 no\nnext 2070\ndut1 msf undecided\ndut1 wwvb undecided\nminute 2024-06-10T06:16Z at 0\n";
    assert!(rt; four_tell(&rt, line, text)?);
    Ok(())
}

// Whether a run over the four ends as one that is decided, and prints this text.
fn four_tell<R: Threads + Sync + AllocGlobal>(
    rt: &R,
    line: &str,
    text: &str,
) -> Result<bool, Fail> {
    let log = heard(rt.alloc(), &JJY_WAVES, &MINUTES, LATE_RISES)?;
    let mut files = files_of(rt.alloc(), FOUR, &log)?;
    files.put("b.log", b"")?;
    let words = words(rt.alloc(), line)?;
    let status = sweep(rt, rt.alloc(), &words, &mut files, &NoGate);
    Ok(status == 0 && printed(&files, text))
}

// The start of the window, and not the phase, tells when the first second began. No phase is tried from 1000 on.
#[test]
fn finds_a_phase_near_the_whole_second(rt: HostRuntime) -> Result<(), Fail> {
    let late = Lag {
        all: 980,
        level: b'H',
        more: 0,
    };
    assert!(rt;
        sweeps(
            &rt,
            JJY,
            late,
            "sweep k.toml --start 0 --seconds 60 --from 2024-06-10T06:10Z --to 2024-06-10T06:19Z",
            0,
            "decided 0\nphase 980\nsequence 2024-06-10T06:16Z 0 no\nnext 600\nminute 2024-06-10T06:16Z at 980\n",
        )?
    );
    Ok(())
}

// Counts the phases that are come to, and keeps the numbers of the latest.
#[derive(Drop)]
struct Steps {
    count: AtomicU64,
    number: AtomicU64,
    phases: AtomicU64,
}

impl Gate for Steps {
    fn pass(&self, _worker: u32, _number: u64) {}
}

impl CertificateGate for Steps {
    fn wrote(&self, _steps: u64) {}
}

impl PhaseGate for Steps {
    fn come_to_phase(&self, phase: u8, phases: u8) {
        self.count.fetch_add(1, Ordering::SeqCst);
        self.number.store(u64::from(phase), Ordering::SeqCst);
        self.phases.store(u64::from(phases), Ordering::SeqCst);
    }
}

// Nothing was heard, so that the phase of a decode is 0, and the phases 0 to 50 are tried.
#[test]
fn tells_its_gate_of_each_phase(rt: HostRuntime) -> Result<(), Fail> {
    let steps = Steps {
        count: AtomicU64::new(0),
        number: AtomicU64::new(0),
        phases: AtomicU64::new(0),
    };
    let text =
        "undecided 0\nphase 0\nsequence 2024-06-10T06:00Z 0 no\nsequence 2024-06-10T06:01Z 0 no\n";
    assert!(rt; tells_gate(&rt, &steps, text)?);
    assert_eq!(rt; steps.count.load(Ordering::SeqCst), 6);
    assert_eq!(rt; steps.number.load(Ordering::SeqCst), 6);
    assert_eq!(rt; steps.phases.load(Ordering::SeqCst), 6);
    Ok(())
}

// Whether the run isn't decided, and prints this text.
fn tells_gate<R: Threads + Sync + AllocGlobal>(
    rt: &R,
    steps: &Steps,
    text: &str,
) -> Result<bool, Fail> {
    let mut files = files_of(rt.alloc(), JJY, "")?;
    let words = words(rt.alloc(), HOUR)?;
    let status = sweep(rt, rt.alloc(), &words, &mut files, steps);
    Ok(status == 1 && printed(&files, text))
}

// The best sequence costs 1770 at its best phase.
#[test]
fn admits_by_the_swept_cost(rt: HostRuntime) -> Result<(), Fail> {
    for (ceiling, status, text) in [
        (1769, 2, "none\nphase 30\n"),
        (
            1770,
            0,
            "decided 1770\nphase 0\nsequence 2024-06-10T06:16Z 0 no\nnext none\nminute 2024-06-10T06:16Z at 0\n",
        ),
    ] {
        assert!(rt; sweeps_under(&rt, ceiling, status, text)?, "{ceiling}");
    }
    Ok(())
}

// Whether a run under this ceiling ends with this status, and prints this text.
fn sweeps_under<R: Threads + Sync + AllocGlobal>(
    rt: &R,
    ceiling: u32,
    status: u8,
    text: &str,
) -> Result<bool, Fail> {
    let config = format!(in rt.alloc(); "ceiling = {ceiling}\n{JJY}")?;
    let line = "sweep k.toml --seconds 60 --from 2024-06-10T06:10Z --to 2024-06-10T06:19Z";
    sweeps(rt, &config, LATE_RISES, line, status, text)
}

#[test]
fn refuses_words(rt: HostRuntime) -> Result<(), Fail> {
    for (line, text) in [
        ("sweep", "words: usage\n"),
        ("sweep k.toml --step 1", "words: usage\n"),
        ("sweep k.toml --seconds 59", "words: bad --seconds\n"),
        ("sweep k.toml --workers 9", "words: bad --workers\n"),
        (
            "sweep k.toml --certificate s --seconds 59",
            "words: bad --seconds\n",
        ),
        ("judge k.toml s", "words: usage\n"),
        ("follow k.toml", "words: usage\n"),
        ("decode k.toml", "words: usage\n"),
    ] {
        assert!(rt; tells(&rt, JJY, "", line, 3, text)?, "{line}");
    }
    Ok(())
}

#[test]
fn refuses_what_it_reads(rt: HostRuntime) -> Result<(), Fail> {
    for (config, log, status, text) in [
        ("", "", 4, "configuration: missing station\n"),
        (JJY, "5 H\n5 L\n", 5, "log 1 a: line 2: not rising\n"),
    ] {
        assert!(rt;
            tells(&rt, config, log, "sweep k.toml", status, text)?,
            "{text}"
        );
    }
    Ok(())
}

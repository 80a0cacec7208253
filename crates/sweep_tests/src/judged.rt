//! Runs of `judge` over files in memory. The certificates are the published example at several phases: of a receiver of DCF77 of which
//! no tenth of a second is known, a walk of 60 seconds can begin in one of the century's last minutes alone. What is wrong with each
//! spoiled one stands in docs/FORMATS.md.

use crate::made::{DCF77, certificate, files_of, judgement_tells, printed, words};
use bank_files::{MemoryFiles, OneByte};
use judges::judge;
use std::alloc::Global;
use std::test::Fail;
use std::thread::Threads;
use workers::NoGate;

const JUDGE: &str = "judge k.toml s --seconds 60 --from 2099-12-31T22:58Z";

const CERTIFIED: &str =
    "certified\ndecided 0\nphase 0\nsequence 2099-12-31T22:58Z 0 no\nnext none\nminute 2099-12-31T22:58Z at 0\n";

// A configuration, its log a.log, and the certificates of the offsets from one up to another, the first of them of this phase.
fn certified_files(
    alloc: Global,
    log: &str,
    from: u8,
    to: u8,
    least: u16,
) -> Result<MemoryFiles, Fail> {
    let mut files = files_of(alloc, DCF77, log)?;
    let mut phase = least;
    for offset in from..to {
        let name = format!(in alloc; "s.{offset}")?;
        let text = certificate(alloc, phase, 1)?;
        files.put(&name, text.as_bytes())?;
        phase = phase.saturating_add(10);
    }
    Ok(files)
}

// Those of a log in which nothing was heard: a decode finds the phase 0, so that the phases 0 to 50 are swept.
fn silent_files(alloc: Global) -> Result<MemoryFiles, Fail> {
    certified_files(alloc, "", 5, 11, 0)
}

#[test]
fn certifies(rt: HostRuntime) -> Result<(), Fail> {
    let mut files = silent_files(rt.alloc())?;
    assert!(rt; judgement_tells(rt.alloc(), &mut files, JUDGE, 0, CERTIFIED)?);
    Ok(())
}

// Files that read and write a byte a call.
#[test]
fn certifies_byte_by_byte(rt: HostRuntime) -> Result<(), Fail> {
    assert!(rt; is_certified_byte_by_byte(rt.alloc())?);
    Ok(())
}

fn is_certified_byte_by_byte(alloc: Global) -> Result<bool, Fail> {
    let inner = silent_files(alloc)?;
    let mut files = OneByte { inner };
    let words = words(alloc, JUDGE)?;
    let status = judge(alloc, &words, &mut files);
    Ok(status == 0 && printed(&files.inner, CERTIFIED))
}

// Whether the certificates of these offsets, the first of them of this phase, are certified where a decode finds a phase. The one edge
// of the log tells it, and a millisecond behind it nothing is known any more. No file of an offset that isn't swept is there.
fn sweeps(alloc: Global, log: &str, from: u8, to: u8, least: u16) -> Result<bool, Fail> {
    let text = format!(in alloc;
        "certified\ndecided 0\nphase {least}\nsequence 2099-12-31T22:58Z 0 no\nnext none\nminute 2099-12-31T22:58Z at {least}\n"
    )?;
    let mut files = certified_files(alloc, log, from, to, least)?;
    judgement_tells(alloc, &mut files, JUDGE, 0, &text)
}

#[test]
fn reads_ten_phases_around_49(rt: HostRuntime) -> Result<(), Fail> {
    assert!(rt; sweeps(rt.alloc(), "0 H\n49 L\n50 X\n", 1, 11, 9)?);
    Ok(())
}

#[test]
fn reads_all_phases_around_50(rt: HostRuntime) -> Result<(), Fail> {
    assert!(rt; sweeps(rt.alloc(), "0 H\n50 L\n51 X\n", 0, 11, 0)?);
    Ok(())
}

#[test]
fn reads_ten_phases_around_950(rt: HostRuntime) -> Result<(), Fail> {
    assert!(rt; sweeps(rt.alloc(), "0 H\n950 L\n951 X\n", 0, 10, 900)?);
    Ok(())
}

#[test]
fn reads_six_phases_around_999(rt: HostRuntime) -> Result<(), Fail> {
    assert!(rt; sweeps(rt.alloc(), "0 H\n999 L\n1000 X\n", 0, 6, 949)?);
    Ok(())
}

// The certificate of the last of them is read too.
#[test]
fn misses_the_last_phase(rt: HostRuntime) -> Result<(), Fail> {
    let mut files = certified_files(rt.alloc(), "0 H\n999 L\n1000 X\n", 0, 5, 949)?;
    assert!(rt; judgement_tells(rt.alloc(), &mut files, JUDGE, 6, "")?);
    Ok(())
}

// What a decode writes that isn't decided: the two cheapest sequences begin in the last two minutes. The same lines are those of the other
// phases.
#[test]
fn certifies_what_is_undecided(rt: HostRuntime) -> Result<(), Fail> {
    let told =
        "undecided 0\nphase 0\nsequence 2099-12-31T22:57Z 0 no\nsequence 2099-12-31T22:58Z 0 no\n";
    let both = format!(in rt.alloc(); "{told}certified\n{told}")?;
    let mut files = silent_files(rt.alloc())?;
    assert!(rt; is_undecided(&rt, &mut files, told)?);
    move_certificates(rt.alloc(), &mut files)?;
    let line = "judge k.toml s --seconds 60 --from 2099-12-31T22:57Z";
    assert!(rt; judgement_tells(rt.alloc(), &mut files, line, 0, &both)?);
    Ok(())
}

// Whether the decode isn't decided, and prints this.
fn is_undecided<R: Threads + Sync + AllocGlobal>(
    rt: &R,
    files: &mut MemoryFiles,
    text: &str,
) -> Result<bool, Fail> {
    let words = words(
        rt.alloc(),
        "decode k.toml --seconds 60 --from 2099-12-31T22:57Z --workers 2 --certificate s.5",
    )?;
    let status = bank::run(rt, rt.alloc(), &words, files, &NoGate);
    Ok(status == 1 && printed(files, text))
}

// Makes the certificates of the other offsets from that of the offset 5, whose phase is 0.
fn move_certificates(alloc: Global, files: &mut MemoryFiles) -> Result<(), Fail> {
    let bytes = files.contents("s.5").unwrap_or(b"");
    let text = std::str::from_utf8(bytes).unwrap_or("").to_string(alloc)?;
    for offset in 6u8..11 {
        move_certificate(alloc, files, &text, offset)?;
    }
    Ok(())
}

fn move_certificate(
    alloc: Global,
    files: &mut MemoryFiles,
    text: &str,
    offset: u8,
) -> Result<(), Fail> {
    let name = format!(in alloc; "s.{offset}")?;
    let phase = format!(in alloc; "phase {}0\n", offset.saturating_sub(5))?;
    let moved = text.replacen(alloc, "phase 0\n", &phase, 1)?;
    files.put(&name, moved.as_bytes())?;
    Ok(())
}

// Whether a run prints this line of certificates, of which one has a text that is exchanged once for another. Each has 143 lines, of
// which line 12 is the first step.
fn tells(
    alloc: Global,
    name: &str,
    phase: u16,
    old: &str,
    new: &str,
    line: &str,
) -> Result<bool, Fail> {
    let text = certificate(alloc, phase, 1)?;
    let spoiled = text.replacen(alloc, old, new, 1)?;
    let mut files = silent_files(alloc)?;
    files.put(name, spoiled.as_bytes())?;
    judgement_tells(alloc, &mut files, JUDGE, 8, line)
}

#[test]
fn tells_a_wrong_step(rt: HostRuntime) -> Result<(), Fail> {
    let last = "E Y 1 60 52595938 52596000 -\n";
    let line = "certificate 10: uncovered at step 131\n";
    assert!(rt; tells(rt.alloc(), "s.10", 50, last, "", line)?);
    Ok(())
}

#[test]
fn tells_wrong_keys(rt: HostRuntime) -> Result<(), Fail> {
    let line = "certificate 7: wrong ends -\n";
    assert!(rt; tells(rt.alloc(), "s.7", 20, "second -", "second 52595939", line)?);
    Ok(())
}

// A file that is cut.
#[test]
fn tells_a_bad_line(rt: HostRuntime) -> Result<(), Fail> {
    let line = "certificate 8: line 143: shape\n";
    assert!(rt; tells(rt.alloc(), "s.8", 30, "end\n", "en", line)?);
    Ok(())
}

// A byte more than a certificate has at most, whatever they are.
#[test]
fn tells_too_many_bytes(rt: HostRuntime) -> Result<(), Fail> {
    let mut files = silent_files(rt.alloc())?;
    {
        let text = vec![in rt.alloc(); b'7'; 128_000_001]?;
        files.put("s.6", &text)?;
    }
    assert!(rt;
        judgement_tells(
            rt.alloc(),
            &mut files,
            JUDGE,
            8,
            "certificate 6: too large\n"
        )?
    );
    Ok(())
}

// The certificate of another phase.
#[test]
fn tells_an_exchanged_file(rt: HostRuntime) -> Result<(), Fail> {
    let line = "certificate 6: other window\n";
    assert!(rt; tells(rt.alloc(), "s.6", 20, "", "", line)?);
    Ok(())
}

// The first bad one is told, and nothing behind it is read: here the next one isn't there, and the one behind is bad too.
#[test]
fn tells_the_first_bad_one(rt: HostRuntime) -> Result<(), Fail> {
    let mut files = certified_files(rt.alloc(), "", 5, 7, 0)?;
    files.put("s.6", b"")?;
    files.put("s.8", b"")?;
    let text = "certificate 6: line 1: shape\n";
    assert!(rt; judgement_tells(rt.alloc(), &mut files, JUDGE, 8, text)?);
    Ok(())
}

// The first file that is missing is a failed read, whatever stands behind it.
#[test]
fn ends_at_a_missing_file(rt: HostRuntime) -> Result<(), Fail> {
    let mut files = certified_files(rt.alloc(), "", 5, 7, 0)?;
    files.put("s.8", b"")?;
    assert!(rt; judgement_tells(rt.alloc(), &mut files, JUDGE, 6, "")?);
    Ok(())
}

// Whether a run ends with 6 at each of these calls on files, if it fails, and prints no more than was written before. The configuration is
// read in two calls, the empty log in one, each of six certificates in two, and then two texts are written; there is no 18th call.
fn ends_at_calls(alloc: Global, from: u64, to: u64) -> Result<bool, Fail> {
    for call in from..to {
        if !ends_at(alloc, call)? {
            return Ok(false);
        }
    }
    Ok(true)
}

fn ends_at(alloc: Global, call: u64) -> Result<bool, Fail> {
    let mut files = silent_files(alloc)?;
    files.fail(call)?;
    let (status, text) = match call {
        17 => (6, "certified\n"),
        18 => (0, CERTIFIED),
        _ => (6, ""),
    };
    judgement_tells(alloc, &mut files, JUDGE, status, text)
}

#[test]
fn ends_at_the_first_calls_that_fail(rt: HostRuntime) -> Result<(), Fail> {
    assert!(rt; ends_at_calls(rt.alloc(), 1, 10)?);
    Ok(())
}

#[test]
fn ends_at_further_calls_that_fail(rt: HostRuntime) -> Result<(), Fail> {
    assert!(rt; ends_at_calls(rt.alloc(), 10, 15)?);
    Ok(())
}

#[test]
fn ends_at_the_last_calls_that_fail(rt: HostRuntime) -> Result<(), Fail> {
    assert!(rt; ends_at_calls(rt.alloc(), 15, 19)?);
    Ok(())
}

#[test]
fn refuses_words(rt: HostRuntime) -> Result<(), Fail> {
    for (line, wanted) in [
        ("judge k.toml", "words: usage\n"),
        ("judge k.toml s --workers 2", "words: usage\n"),
        ("judge k.toml s --seconds 59", "words: bad --seconds\n"),
        ("sweep k.toml", "words: usage\n"),
        ("check k.toml s", "words: usage\n"),
    ] {
        assert!(rt; refuses(rt.alloc(), line, wanted)?, "{line}");
    }
    Ok(())
}

// Whether these words are refused by this text.
fn refuses(alloc: Global, line: &str, text: &str) -> Result<bool, Fail> {
    let mut files = silent_files(alloc)?;
    judgement_tells(alloc, &mut files, line, 3, text)
}

// The configuration and the log are judged before a certificate is read.
#[test]
fn refuses_what_it_reads_first(rt: HostRuntime) -> Result<(), Fail> {
    for (config, log, status, wanted) in [
        ("", "5 H\n5 L\n", 4, "configuration: missing station\n"),
        (DCF77, "5 H\n5 L\n", 5, "log 1 a: line 2: not rising\n"),
        (DCF77, "", 6, ""),
    ] {
        assert!(rt;
            ends_with(rt.alloc(), config, log, status, wanted)?,
            "{status}"
        );
    }
    Ok(())
}

// Whether a run without certificates ends with this status, and prints this text.
fn ends_with(alloc: Global, config: &str, log: &str, status: u8, text: &str) -> Result<bool, Fail> {
    let mut files = files_of(alloc, config, log)?;
    judgement_tells(alloc, &mut files, "judge k.toml s", status, text)
}

//! Certificates that sweeps write, over files in memory, with ample memory. The steps are those of the published example: of a
//! receiver of DCF77 that heard nothing, a walk of 60 seconds can begin in one of the century's last minutes alone. The phase of a
//! decode is then 0, so that the phases 0 to 50 are swept, which are the offsets 5 to 10.

use crate::made::{
    DCF77, HOUR, JJY, JJY_WAVES, LATE_RISES, Lag, MINUTES, SWEPT, certificate, files_of, heard,
    printed, words,
};
use bank_files::{MemoryFiles, OneByte};
use std::alloc::{AllocError, Global};
use std::test::Fail;
use std::thread::Threads;
use sweep::sweep;
use workers::NoGate;

const CENTURY_END: &str =
    "sweep k.toml --seconds 60 --from 2099-12-31T22:58Z --certificate s --workers";

const REPORT: &str =
    "decided 0\nphase 0\nsequence 2099-12-31T22:58Z 0 no\nnext none\nminute 2099-12-31T22:58Z at 0\n";

// What stands in the certificates' files before.
const BEFORE: &str = "what was there";

// The files of a bank that heard nothing, with something in each file that is to be written.
fn silent(alloc: Global) -> Result<MemoryFiles, Fail> {
    let mut files = files_of(alloc, DCF77, "")?;
    for offset in 5..11 {
        let name = format!(in alloc; "s.{offset}")?;
        files.put(name.as_str(), BEFORE.as_bytes())?;
    }
    Ok(files)
}

// Whether the file of an offset holds this.
fn holds(alloc: Global, files: &MemoryFiles, offset: u8, text: &str) -> Result<bool, AllocError> {
    let name = format!(in alloc; "s.{offset}")?;
    Ok(
        files
            .contents(name.as_str())
            .is_some_and(|found| found == text.as_bytes()),
    )
}

// Whether the file of an offset holds a front of this that isn't the whole.
fn holds_front(
    alloc: Global,
    files: &MemoryFiles,
    offset: u8,
    text: &str,
) -> Result<bool, AllocError> {
    let name = format!(in alloc; "s.{offset}")?;
    Ok(
        files.contents(name.as_str()).is_some_and(|found| text.as_bytes().starts_with(found)
            && found.len() < text.len()),
    )
}

// Whether there is a file of an offset.
fn is_there(alloc: Global, files: &MemoryFiles, offset: u8) -> Result<bool, AllocError> {
    let name = format!(in alloc; "s.{offset}")?;
    Ok(files.contents(name.as_str()).is_some())
}

// The phase of an offset, where that of a decode is 0.
fn phase_of(offset: u8) -> u16 {
    (offset as u16 * 10).saturating_sub(50)
}

#[test]
fn writes_a_certificate_of_each_phase(rt: HostRuntime) -> Result<(), Fail> {
    for workers in [1, 2, 4, 8] {
        assert!(rt; writes_with(&rt, workers)?, "{workers}");
    }
    Ok(())
}

// Whether so many workers write the six certificates and no other.
fn writes_with<R: Threads + Sync + AllocGlobal>(rt: &R, workers: u8) -> Result<bool, Fail> {
    let line = format!(in rt.alloc(); "{CENTURY_END} {workers}")?;
    let words = words(rt.alloc(), &line)?;
    let mut files = silent(rt.alloc())?;
    let status = sweep(rt, rt.alloc(), &words, &mut files, &NoGate);
    Ok(status == 0 && are_written(rt.alloc(), &files, workers)?)
}

// Whether the report and these certificates, of so many parts, stand there.
fn are_written(alloc: Global, files: &MemoryFiles, workers: u8) -> Result<bool, AllocError> {
    for offset in 5..11 {
        if !is_certificate(alloc, files, offset, workers)? {
            return Ok(false);
        }
    }
    for offset in [0, 1, 2, 3, 4, 11] {
        if is_there(alloc, files, offset)? {
            return Ok(false);
        }
    }
    Ok(printed(files, REPORT))
}

fn is_certificate(
    alloc: Global,
    files: &MemoryFiles,
    offset: u8,
    workers: u8,
) -> Result<bool, AllocError> {
    let text = certificate(alloc, phase_of(offset), workers)?;
    holds(alloc, files, offset, &text)
}

// Files that read and write a byte a call.
#[test]
fn writes_the_same_byte_by_byte(rt: HostRuntime) -> Result<(), Fail> {
    assert!(rt; is_written_byte_by_byte(&rt)?);
    Ok(())
}

fn is_written_byte_by_byte<R: Threads + Sync + AllocGlobal>(rt: &R) -> Result<bool, Fail> {
    let line = format!(in rt.alloc(); "{CENTURY_END} 1")?;
    let words = words(rt.alloc(), &line)?;
    let inner = silent(rt.alloc())?;
    let mut files = OneByte { inner };
    let status = sweep(rt, rt.alloc(), &words, &mut files, &NoGate);
    Ok(status == 0 && are_written(rt.alloc(), &files.inner, 1)?)
}

// What an offset's file holds once this call failed: its certificate is made in call 4 for the least offset, two calls later for
// each next one, and written in the call behind that.
fn holds_after(
    alloc: Global,
    files: &MemoryFiles,
    offset: u8,
    call: u8,
) -> Result<bool, AllocError> {
    let text = certificate(alloc, phase_of(offset), 1)?;
    let made = offset.saturating_mul(2).saturating_sub(6);
    if call <= made {
        return holds(alloc, files, offset, BEFORE);
    }
    if call == made.saturating_add(1) {
        return holds_front(alloc, files, offset, &text);
    }
    holds(alloc, files, offset, &text)
}

// Whether a run ends with 6 at each of these calls on files, if it fails: what comes before is whole, and all behind it as before. The
// configuration is read in two calls and the empty log in one. Then each certificate's file is made in one and written in one, and the
// report is written in the 16th.
fn stops_at_calls<R: Threads + Sync + AllocGlobal>(rt: &R, from: u8, to: u8) -> Result<bool, Fail> {
    for call in from..to {
        if !stops_at(rt, call)? {
            return Ok(false);
        }
    }
    Ok(true)
}

fn stops_at<R: Threads + Sync + AllocGlobal>(rt: &R, call: u8) -> Result<bool, Fail> {
    let line = format!(in rt.alloc(); "{CENTURY_END} 1")?;
    let words = words(rt.alloc(), &line)?;
    let mut files = silent(rt.alloc())?;
    files.fail(u64::from(call))?;
    let status = sweep(rt, rt.alloc(), &words, &mut files, &NoGate);
    Ok(status == 6 && are_left(rt.alloc(), &files, call)?)
}

// Whether each certificate's file and the report are as that call leaves them.
fn are_left(alloc: Global, files: &MemoryFiles, call: u8) -> Result<bool, AllocError> {
    for offset in 5..11 {
        if !holds_after(alloc, files, offset, call)? {
            return Ok(false);
        }
    }
    let front = files.contents("-").unwrap_or(b"");
    if call < 16 {
        return Ok(front.is_empty());
    }
    Ok(front.len() < REPORT.len() && REPORT.as_bytes().starts_with(front))
}

#[test]
fn stops_at_the_first_calls_that_fail(rt: HostRuntime) -> Result<(), Fail> {
    assert!(rt; stops_at_calls(&rt, 1, 7)?);
    Ok(())
}

#[test]
fn stops_at_further_calls_that_fail(rt: HostRuntime) -> Result<(), Fail> {
    assert!(rt; stops_at_calls(&rt, 7, 12)?);
    Ok(())
}

#[test]
fn stops_at_the_last_calls_that_fail(rt: HostRuntime) -> Result<(), Fail> {
    assert!(rt; stops_at_calls(&rt, 12, 17)?);
    Ok(())
}

// A certificate is owed where the bank is loaded, and else the files stay as they are.
#[test]
fn leaves_the_files_of_a_refused_bank(rt: HostRuntime) -> Result<(), Fail> {
    assert!(rt; leaves_the_files(&rt)?);
    Ok(())
}

fn leaves_the_files<R: Threads + Sync + AllocGlobal>(rt: &R) -> Result<bool, Fail> {
    let line = format!(in rt.alloc(); "{CENTURY_END} 1")?;
    let words = words(rt.alloc(), &line)?;
    let mut files = silent(rt.alloc())?;
    files.put("k.toml", b"station = 1\n")?;
    let status = sweep(rt, rt.alloc(), &words, &mut files, &NoGate);
    for offset in 5..11 {
        if !holds(rt.alloc(), &files, offset, BEFORE)? {
            return Ok(false);
        }
    }
    Ok(status == 4 && printed(&files, "configuration: wrong kind station\n"))
}

// A log that begins so late has that phase. No phase is swept below 0 or from 1000 on.
#[test]
fn writes_those_of_the_phases_there_are(rt: HostRuntime) -> Result<(), Fail> {
    for (phase, first, last) in [
        (0u16, 5u8, 10u8),
        (49, 1, 10),
        (50, 0, 10),
        (949, 0, 10),
        (950, 0, 9),
        (999, 0, 5),
    ] {
        assert!(rt; writes_from_to(&rt, phase, first, last)?, "{phase}");
    }
    Ok(())
}

// Whether a log that begins so late has the certificates of these offsets and of none beside them.
fn writes_from_to<R: Threads + Sync + AllocGlobal>(
    rt: &R,
    phase: u16,
    first: u8,
    last: u8,
) -> Result<bool, Fail> {
    let lag = Lag {
        all: phase,
        level: b'H',
        more: 0,
    };
    let log = heard(rt.alloc(), &JJY_WAVES, &MINUTES, lag)?;
    let mut files = files_of(rt.alloc(), JJY, &log)?;
    let words = words(
        rt.alloc(),
        "sweep k.toml --start 0 --seconds 60 --from 2024-06-10T06:10Z --to 2024-06-10T06:19Z --certificate s",
    )?;
    let status = sweep(rt, rt.alloc(), &words, &mut files, &NoGate);
    for offset in 0..11 {
        let is_due = offset >= first && offset <= last;
        if is_begun(rt.alloc(), &files, phase, offset)? != is_due
            || is_there(rt.alloc(), &files, offset)? != is_due
        {
            return Ok(false);
        }
    }
    Ok(status == 0)
}

// Whether the file of an offset begins as the certificate of its phase, where that of a decode is this one.
fn is_begun(
    alloc: Global,
    files: &MemoryFiles,
    phase: u16,
    offset: u8,
) -> Result<bool, AllocError> {
    let name = format!(in alloc; "s.{offset}")?;
    let moved = phase.saturating_add(offset as u16 * 10).saturating_sub(50);
    let head = format!(in alloc;
        "tsbank certificate 1\nstation jjy\nstart 0\nphase {moved}\nseconds 60\n"
    )?;
    Ok(
        files
            .contents(name.as_str())
            .is_some_and(|found| found.starts_with(head.as_bytes())),
    )
}

// Each certificate names the keys of its own phase under the ceiling of the configuration: 3600 is what a decode finds, at phase 30.
#[test]
fn names_the_keys_of_each_phase(rt: HostRuntime) -> Result<(), Fail> {
    let files = sweep_in_files(&rt)?;
    assert!(rt; printed(&files, SWEPT));
    for (name, head) in [
        (
            "s.2",
            "tsbank certificate 1\nstation jjy\nstart 0\nphase 0\nseconds 120\nfrom 12855240\nto 12855300\nceiling 1920000000\nfirst 30666079348696\n",
        ),
        (
            "s.5",
            "tsbank certificate 1\nstation jjy\nstart 0\nphase 30\nseconds 120\nfrom 12855240\nto 12855300\nceiling 1920000000\nfirst 30923777386456\nsecond 37881624405975\n",
        ),
    ] {
        assert!(rt;
            files
                .contents(name)
                .is_some_and(|found| found.starts_with(head.as_bytes())),
            "{name}"
        );
    }
    Ok(())
}

// The files of a sweep over the hour with certificates.
fn sweep_in_files<R: Threads + Sync + AllocGlobal>(rt: &R) -> Result<MemoryFiles, Fail> {
    let log = heard(rt.alloc(), &JJY_WAVES, &MINUTES, LATE_RISES)?;
    let mut files = files_of(rt.alloc(), JJY, &log)?;
    let line = format!(in rt.alloc(); "{HOUR} --certificate s")?;
    let words = words(rt.alloc(), &line)?;
    if sweep(rt, rt.alloc(), &words, &mut files, &NoGate) == 0 {
        Ok(files)
    } else {
        Err(Fail::from("not decided"))
    }
}

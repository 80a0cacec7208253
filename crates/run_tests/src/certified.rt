//! Runs of `check` over files in memory. The certificate is the published example: of a receiver of DCF77 that heard nothing, a walk
//! of 60 seconds can begin in one of the century's last minutes alone. What is wrong with each spoiled one stands in docs/FORMATS.md.

use crate::made::{DCF77, files_of, printed, words};
use bank_files::{MemoryFiles, OneByte};
use checks::check;
use std::alloc::{AllocError, Global};
use std::test::Fail;
use std::thread::Threads;
use workers::NoGate;

const CHECK: &str = "check k.toml x.cert --seconds 60 --from 2099-12-31T22:58Z";

const CERTIFIED: &str =
    "certified\ndecided 0\nphase 0\nsequence 2099-12-31T22:58Z 0 no\nnext none\nminute 2099-12-31T22:58Z at 0\n";

// The certificate: 143 lines, of which line 12 is the first step.
fn certificate(alloc: Global) -> Result<String, AllocError> {
    let mut text = String::new(alloc);
    write!(
        text,
        "tsbank certificate 1\nstation dcf77\nstart 0\nphase 0\nseconds 60\nfrom 52595938\nto 52596000\n"
    )?;
    write!(
        text,
        "ceiling 1920000000\nfirst 52595938\nsecond -\nworker 0\n"
    )?;
    write!(text, "O Y 0 0 52595938 52596000 0\n")?;
    write!(text, "O D 0 0 52595938 52596000 0\n")?;
    write!(text, "O H 0 0 52595938 52595940 0\n")?;
    write!(text, "L M 0 0 52595938 52595939 0\n")?;
    write!(text, "E M 0 0 52595939 52595940 -\n")?;
    write!(text, "E H 0 0 52595940 52596000 -\n")?;
    for second in 1..60 {
        write!(text, "E Y 0 {second} 52595938 52596000 -\n")?;
    }
    write!(text, "O Y 1 0 52595938 52596000 0\n")?;
    write!(text, "O D 1 0 52595938 52596000 0\n")?;
    write!(text, "O H 1 0 52595938 52595940 0\n")?;
    write!(text, "E M 1 0 52595938 52595939 -\n")?;
    write!(text, "E M 1 0 52595939 52595940 -\n")?;
    write!(text, "E H 1 0 52595940 52596000 -\n")?;
    for second in 1..61 {
        write!(text, "E Y 1 {second} 52595938 52596000 -\n")?;
    }
    write!(text, "end\n")?;
    Ok(text)
}

// A configuration, its log a.log and a certificate x.cert.
fn certified_files(
    alloc: Global,
    config: &str,
    log: &str,
    certificate: &str,
) -> Result<MemoryFiles, Fail> {
    let mut files = files_of(alloc, config, log)?;
    files.put("x.cert", certificate.as_bytes())?;
    Ok(files)
}

// Whether a run over these files ends with this status, and prints this text.
fn tells_of(
    alloc: Global,
    files: (&str, &str, &str),
    line: &str,
    status: u8,
    text: &str,
) -> Result<bool, Fail> {
    let mut files = certified_files(alloc, files.0, files.1, files.2)?;
    let words = words(alloc, line)?;
    let ended = check(alloc, &words, &mut files);
    Ok(ended == status && printed(&files, text))
}

#[test]
fn certifies(rt: HostRuntime) -> Result<(), Fail> {
    let text = certificate(rt.alloc())?;
    assert!(rt; tells_of(rt.alloc(), (DCF77, "", text.as_str()), CHECK, 0, CERTIFIED)?);
    Ok(())
}

// Files that read and write a byte a call.
#[test]
fn certifies_byte_by_byte(rt: HostRuntime) -> Result<(), Fail> {
    let text = certificate(rt.alloc())?;
    assert!(rt; is_certified_byte_by_byte(rt.alloc(), text.as_str())?);
    Ok(())
}

fn is_certified_byte_by_byte(alloc: Global, text: &str) -> Result<bool, Fail> {
    let inner = certified_files(alloc, DCF77, "", text)?;
    let mut files = OneByte { inner };
    let words = words(alloc, CHECK)?;
    let status = check(alloc, &words, &mut files);
    Ok(status == 0 && printed(&files.inner, CERTIFIED))
}

// What a decode writes that isn't decided: the two cheapest sequences begin in the last two minutes.
#[test]
fn certifies_what_a_decode_writes(rt: HostRuntime) -> Result<(), Fail> {
    let told =
        "undecided 0\nphase 0\nsequence 2099-12-31T22:57Z 0 no\nsequence 2099-12-31T22:58Z 0 no\n";
    let both = format!(in rt.alloc(); "{told}certified\n{told}")?;
    let mut files = certified_files(rt.alloc(), DCF77, "", "")?;
    assert!(rt; is_undecided(&rt, &mut files, told)?);
    assert!(rt; is_checked(rt.alloc(), &mut files, both.as_str())?);
    Ok(())
}

// Whether the decode isn't decided, and this is printed.
fn is_undecided<R: Threads + Sync + AllocGlobal>(
    rt: &R,
    files: &mut MemoryFiles,
    text: &str,
) -> Result<bool, Fail> {
    let words = words(
        rt.alloc(),
        "decode k.toml --seconds 60 --from 2099-12-31T22:57Z --workers 2 --certificate y.cert",
    )?;
    let status = bank::run(rt, rt.alloc(), &words, files, &NoGate);
    Ok(status == 1 && printed(files, text))
}

// Whether what it wrote is certified, and this was printed by both.
fn is_checked(alloc: Global, files: &mut MemoryFiles, text: &str) -> Result<bool, Fail> {
    let words = words(
        alloc,
        "check k.toml y.cert --seconds 60 --from 2099-12-31T22:57Z",
    )?;
    let status = check(alloc, &words, files);
    Ok(status == 0 && printed(files, text))
}

// Whether a run prints this line of the certificate in which a text is exchanged once for another.
fn tells(alloc: Global, old: &str, new: &str, line: &str) -> Result<bool, Fail> {
    let text = certificate(alloc)?;
    let spoiled = text.replacen(alloc, old, new, 1)?;
    tells_of(alloc, (DCF77, "", spoiled.as_str()), CHECK, 8, line)
}

#[test]
fn tells_a_wrong_step(rt: HostRuntime) -> Result<(), Fail> {
    let last = "E Y 1 60 52595938 52596000 -\n";
    let line = "certificate: uncovered at step 131\n";
    assert!(rt; tells(rt.alloc(), last, "", line)?);
    Ok(())
}

#[test]
fn tells_wrong_keys(rt: HostRuntime) -> Result<(), Fail> {
    let line = "certificate: wrong ends -\n";
    assert!(rt; tells(rt.alloc(), "second -", "second 52595939", line)?);
    Ok(())
}

#[test]
fn tells_a_bad_line(rt: HostRuntime) -> Result<(), Fail> {
    let line = "certificate: line 143: shape\n";
    assert!(rt; tells(rt.alloc(), "end\n", "en", line)?);
    Ok(())
}

// Whether a run ends with 6 and prints this where a call on files fails. The configuration is read in two calls and the empty log in
// one, the certificate in two, and then two texts are written.
fn fails_at(alloc: Global, call: u64, text: &str) -> Result<bool, Fail> {
    let certificate = certificate(alloc)?;
    let words = words(alloc, CHECK)?;
    let mut files = certified_files(alloc, DCF77, "", certificate.as_str())?;
    files.fail(call)?;
    let status = check(alloc, &words, &mut files);
    Ok(status == 6 && printed(&files, text))
}

#[test]
fn ends_at_a_failing_call(rt: HostRuntime) -> Result<(), Fail> {
    for call in 1..7 {
        assert!(rt; fails_at(rt.alloc(), call, "")?, "call {call}");
    }
    Ok(())
}

// Standard output keeps the line that was written before.
#[test]
fn ends_at_a_failing_report(rt: HostRuntime) -> Result<(), Fail> {
    assert!(rt; fails_at(rt.alloc(), 7, "certified\n")?);
    Ok(())
}

const DECODE: &str =
    "decode k.toml --seconds 60 --from 2099-12-31T22:58Z --workers 1 --certificate y.cert";

const DECODED: &str =
    "decided 0\nphase 0\nsequence 2099-12-31T22:58Z 0 no\nnext none\nminute 2099-12-31T22:58Z at 0\n";

// The decode that writes the certificate. The configuration is read in two calls and the empty log in one; then the file is made, its
// text is written in one, and the report. So the seventh never comes.
#[test]
fn a_decode_ends_at_a_failing_call(rt: HostRuntime) -> Result<(), Fail> {
    let text = certificate(rt.alloc())?;
    for call in 1..8 {
        assert!(rt; decode_ends_at(&rt, text.as_str(), call)?, "call {call}");
    }
    Ok(())
}

// Whether the decode whose call of this number fails ends as it must, and leaves what it must.
fn decode_ends_at<R: Threads + Sync + AllocGlobal>(
    rt: &R,
    text: &str,
    call: u64,
) -> Result<bool, Fail> {
    let words = words(rt.alloc(), DECODE)?;
    let mut files = certified_files(rt.alloc(), DCF77, "", "")?;
    files.fail(call)?;
    let status = bank::run(rt, rt.alloc(), &words, &mut files, &NoGate);
    let wanted = if call < 7 { 6 } else { 0 };
    Ok(status == wanted && is_left(&files, text, call))
}

// Whether the certificate and the report were written as far as the call came, and the other files are as before.
fn is_left(files: &MemoryFiles, text: &str, call: u64) -> bool {
    let written = files.contents("y.cert");
    let due = if call > 5 { text.as_bytes() } else { b"" };
    let report = if call < 7 { "" } else { DECODED };
    written.is_some() == (call > 4)
        && written.unwrap_or(b"") == due
        && printed(files, report)
        && files.contents("k.toml") == Some(DCF77.as_bytes())
        && files.contents("a.log") == Some(b"".as_slice())
        && files.contents("x.cert") == Some(b"".as_slice())
}

// Files that read and write a byte a call.
#[test]
fn a_decode_writes_byte_by_byte(rt: HostRuntime) -> Result<(), Fail> {
    let text = certificate(rt.alloc())?;
    assert!(rt; is_written_byte_by_byte(&rt, text.as_str())?);
    Ok(())
}

fn is_written_byte_by_byte<R: Threads + Sync + AllocGlobal>(
    rt: &R,
    text: &str,
) -> Result<bool, Fail> {
    let inner = certified_files(rt.alloc(), DCF77, "", "")?;
    let mut files = OneByte { inner };
    let words = words(rt.alloc(), DECODE)?;
    let status = bank::run(rt, rt.alloc(), &words, &mut files, &NoGate);
    Ok(
        status == 0
            && files.inner.contents("y.cert") == Some(text.as_bytes())
            && printed(&files.inner, DECODED),
    )
}

// Whether a run ends with 6 and prints nothing where this byte of the certificate, or its end, can't be read.
fn ends_at<R: AllocGlobal>(rt: &R, place: usize) -> Result<bool, Fail> {
    let text = certificate(rt.alloc())?;
    let words = words(rt.alloc(), CHECK)?;
    let mut inner = certified_files(rt.alloc(), DCF77, "", text.as_str())?;
    // Before it comes each byte of the configuration, its end, and the end of the log.
    inner.fail(DCF77.len() as u64 + 3 + place.min(1_000_000) as u64)?;
    let mut files = OneByte { inner };
    let status = check(rt.alloc(), &words, &mut files);
    Ok(status == 6 && printed(&files.inner, ""))
}

#[test]
fn ends_at_the_first_byte(rt: HostRuntime) -> Result<(), Fail> {
    assert!(rt; ends_at(&rt, 0)?);
    Ok(())
}

#[test]
fn ends_at_a_byte_within(rt: HostRuntime) -> Result<(), Fail> {
    assert!(rt; ends_at(&rt, 1_999)?);
    Ok(())
}

#[test]
fn ends_at_the_end(rt: HostRuntime) -> Result<(), Fail> {
    let length = certificate(rt.alloc())?.len();
    assert!(rt; ends_at(&rt, length)?);
    Ok(())
}

#[test]
fn refuses_words(rt: HostRuntime) -> Result<(), Fail> {
    let text = certificate(rt.alloc())?;
    for (line, wanted) in [
        ("check k.toml", "words: usage\n"),
        ("check k.toml x.cert --workers 2", "words: usage\n"),
        ("check k.toml x.cert --seconds 59", "words: bad --seconds\n"),
        ("decode k.toml", "words: usage\n"),
        ("judge k.toml x.cert", "words: usage\n"),
    ] {
        let files = (DCF77, "", text.as_str());
        assert!(rt; tells_of(rt.alloc(), files, line, 3, wanted)?, "{line}");
    }
    Ok(())
}

// The configuration and the log are judged before the certificate is read, and no file but it may be missing then.
#[test]
fn refuses_what_it_reads_first(rt: HostRuntime) -> Result<(), Fail> {
    for (config, log, status, wanted) in [
        ("", "5 H\n5 L\n", 4, "configuration: missing station\n"),
        (DCF77, "5 H\n5 L\n", 5, "log 1 a: line 2: not rising\n"),
        (DCF77, "", 6, ""),
    ] {
        let files = (config, log, "");
        let line = "check k.toml missing.cert";
        assert!(rt;
            tells_of(rt.alloc(), files, line, status, wanted)?,
            "{status}"
        );
    }
    Ok(())
}

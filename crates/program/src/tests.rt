//! Runs of the whole program, over made-up words. The texts are worked out from docs/FORMATS.md.
//!
//! What a run makes is owned by one function, which the tests share: what owns it takes long to prove.
use crate::command_line::{HostLine, NoWords};
use crate::fake::{Fake, holds};
use crate::machine::HostMachine;
use crate::messages::{Speaker, explain, explain_no_words, explain_steps};
use crate::progress::Progress;
use due::Status;
use std::rt::Clock;
use std::sync::Wait;
use std::test::Fail;
use std::thread::Threads;

// More than standard output gets in any of these runs.
const AMPLE: usize = 1000;

// The status of a run over this machine.
fn status<R: Threads + Wait + Clock + Eprint + Sync>(rt: &R, fake: &Fake<'_>) -> u8 {
    status_shown(rt, fake, &Progress::new(rt, false))
}

// The same, and progress is shown.
fn status_shown<R: Threads + Wait + Sync, S: Clock + Eprint + Sync>(
    rt: &R,
    fake: &Fake<'_>,
    progress: &Progress<'_, S>,
) -> u8 {
    let machine = HostMachine::new(fake, progress);
    let ended = crate::status(rt, fake.alloc(), &HostLine(fake), machine, fake, progress);
    ended.status
}

// Whether a run of these words, whose standard output takes so many bytes, ends with this status, and writes these texts to standard
// output and to standard error.
fn writes_within<R: Threads + Wait + Clock + Eprint + Sync>(
    rt: &R,
    host: &HostRuntime,
    words: &[&[u8]],
    room: usize,
    ended: u8,
    output: &str,
    error: &str,
) -> bool {
    let fake = Fake::new(host, words, room);
    status(rt, &fake) == ended && holds(&fake.output, output) && holds(&fake.error, error)
}

// The same, and standard output takes all.
fn writes<R: Threads + Wait + Clock + Eprint + Sync>(
    rt: &R,
    host: &HostRuntime,
    words: &[&[u8]],
    ended: u8,
    output: &str,
    error: &str,
) -> bool {
    writes_within(rt, host, words, AMPLE, ended, output, error)
}

const USAGE: &str =
    "usage: tsbank decode CONFIG [--start N] [--seconds N] [--from MINUTE] [--to MINUTE] [--workers N] [--certificate FILE]\n       tsbank check CONFIG CERTIFICATE [--start N] [--seconds N] [--from MINUTE] [--to MINUTE]\n       tsbank feed CONFIG [the options of decode but the last]\n       tsbank encode STATION MINUTE [--leap 0|1]\n       tsbank trial NUMBER [--workers N]\n       tsbank irig CONFIG [the options of feed]\n       tsbank irig-read FILE\n       tsbank follow CONFIG [the options of feed] [--step N] [--count N]\n       tsbank sweep CONFIG [the options of decode]\n       tsbank judge CONFIG NAME [the options of check]\n       tsbank board CONFIG QUERIES [the options of follow] [--readers N]\n  CONFIG     the path of the configuration, which doesn't begin with -\n  CERTIFICATE  the path of a certificate, which doesn't begin with -\n  STATION    dcf77, msf, wwvb or jjy\n  MINUTE     a UTC minute, YYYY-MM-DDThh:mmZ, from 2000-01-01T00:00Z to 2099-12-31T23:59Z\n  FILE       the path of a file, which doesn't begin with -\n  NAME       how the paths of certificates begin, which doesn't begin with -: a dot and an offset stand behind it\n  QUERIES    the path of a file of milliseconds, one on each line, which doesn't begin with -\n  NUMBER     the number of the trial, from 0 to 4294967295\n  --start    the first millisecond of the window, from 0 to 999999999999; else where the logs begin\n  --seconds  the length of the window, from 60 to 1200; else 180\n  --from     the first minute in which the window may begin; else the first of the century\n  --to       the last of these minutes; else the last of the century\n  --workers  how many workers search, from 1 to 8; else 4\n  --certificate  the file to which the certificate of the answer is written; else none is\n  --leap     1 where a leap second is announced; else 0\n  --step     how many seconds each window starts after the one before, from 1 to 1200; else 60\n  --count    how many windows are decoded, from 1 to 1000; else 10\n  --readers  how many readers ask, from 1 to 4; else 2\n";

// The minute as WWVB sends it.
const LISTING: &str =
    "encode wwvb 2024-02-29T12:34Z 60\nM01100100M000100010M000000110M000000???M????00010M010001000M\n";

#[test]
fn refuses_words(rt: HostRuntime) {
    for (words, text) in [
        ([b"tsbank".as_slice()].as_slice(), "words: usage\n"),
        (
            [b"\xff".as_slice(), b"decode", b"-"].as_slice(),
            "words: usage\n",
        ),
        (
            [b"tsbank".as_slice(), b"--help"].as_slice(),
            "words: usage\n",
        ),
        (
            [b"tsbank".as_slice(), b"/dev/null", b"decode"].as_slice(),
            "words: usage\n",
        ),
        (
            [b"tsbank".as_slice(), b"decode", b"/dev/null", b""].as_slice(),
            "words: usage\n",
        ),
        (
            [b"tsbank".as_slice(), b"check", b"/dev/null"].as_slice(),
            "words: usage\n",
        ),
        ([b"tsbank".as_slice(), b"irig"].as_slice(), "words: usage\n"),
        (
            [
                b"tsbank".as_slice(),
                b"follow",
                b"/dev/null",
                b"--step",
                b"0",
            ]
            .as_slice(),
            "words: bad --step\n",
        ),
        (
            [
                b"tsbank".as_slice(),
                b"decode",
                b"/dev/null",
                b"--seconds",
                b"59",
            ]
            .as_slice(),
            "words: bad --seconds\n",
        ),
    ] {
        assert!(rt; writes(&rt, &rt, words, 3, text, USAGE), "{text}");
    }
}

#[test]
fn refuses_a_word_that_is_no_text(rt: HostRuntime) -> Result<(), Fail> {
    let words = [b"tsbank".as_slice(), b"decode", b"\xff"];
    let text = format!(in rt.alloc(); "tsbank: a word isn't UTF-8\n{USAGE}")?;
    assert!(rt; writes(&rt, &rt, &words, 3, "", &text));
    Ok(())
}

// Whether this is said of a run without words.
fn says_without_words(rt: &HostRuntime, why: NoWords, text: &str) -> bool {
    let fake = Fake::new(rt, &[], AMPLE);
    explain_no_words(&fake, Speaker::Tsbank, why);
    holds(&fake.error, text)
}

#[test]
fn ends_without_memory_for_its_words(rt: HostRuntime) {
    assert!(rt; says_without_words(&rt, NoWords::NoMemory, "tsbank: out of memory\n"));
    assert!(rt; NoWords::NoMemory.status() == Status::NoMemory);
}

// Whether this is said of a certificate with so many steps.
fn says_of_steps(rt: &HostRuntime, steps: u64, text: &str) -> bool {
    let fake = Fake::new(rt, &[], AMPLE);
    explain_steps(&fake, steps);
    holds(&fake.error, text)
}

#[test]
fn tells_of_a_certificate_that_no_check_takes(rt: HostRuntime) {
    assert!(rt; says_of_steps(&rt, 2_000_000, ""));
    assert!(rt;
        says_of_steps(
            &rt,
            2_000_001,
            "tsbank: a certificate has 2000001 steps, and check refuses more than 2000000: a narrower range, a second receiver or a lower ceiling makes fewer\n"
        )
    );
}

#[test]
fn lists_and_is_silent(rt: HostRuntime) {
    let words = [
        b"tsbank".as_slice(),
        b"encode",
        b"wwvb",
        b"2024-02-29T12:34Z",
    ];
    assert!(rt; writes(&rt, &rt, &words, 0, LISTING, ""));
}

#[test]
fn reads_a_file_without_frames(rt: HostRuntime) {
    let words = [b"tsbank".as_slice(), b"irig-read", b"/dev/null"];
    assert!(rt; writes(&rt, &rt, &words, 0, "", ""));
}

#[test]
fn refuses_an_empty_configuration(rt: HostRuntime) {
    for command in [b"decode".as_slice(), b"follow", b"sweep"] {
        let words = [b"tsbank".as_slice(), command, b"/dev/null"];
        assert!(rt; writes(&rt, &rt, &words, 4, "configuration: missing station\n", ""));
    }
}

#[test]
fn names_the_file_that_failed(rt: HostRuntime) {
    let words = [b"tsbank".as_slice(), b"decode", b"/dev/null/k.toml"];
    let error = "tsbank: /dev/null/k.toml: Not a directory (os error 20)\n";
    assert!(rt; writes(&rt, &rt, &words, 6, "", error));
}

#[test]
fn names_standard_output_that_failed(rt: HostRuntime) {
    let error = "tsbank: standard output: No space left on device (os error 28)\n";
    for (room, front) in [(0, ""), (7, "words: "), (12, "words: usage")] {
        assert!(rt;
            writes_within(&rt, &rt, &[], room, 6, front, error),
            "{room}"
        );
    }
}

// Whether this is said of a run that ended with a status, and of which no file is known to have failed.
fn says_after(rt: &HostRuntime, status: u8, text: &str) -> bool {
    let fake = Fake::new(rt, &[], AMPLE);
    explain(&fake, Speaker::Tsbank, status, None);
    holds(&fake.error, text)
}

#[test]
fn says_nothing_of_answers_and_refused_logs(rt: HostRuntime) {
    for status in [0, 1, 2, 4, 5, 6] {
        assert!(rt; says_after(&rt, status, ""), "{status}");
    }
    assert!(rt; says_after(&rt, 7, "tsbank: out of memory\n"));
}

// By the terminal's clock each search of more than some draws takes longer than a second.
#[test]
fn a_report_has_a_line_of_its_own(rt: HostRuntime) {
    let words = [b"tsbank".as_slice(), b"trial", b"5"];
    assert!(rt; is_reported_below_progress(&rt, &rt, &words));
}

fn is_reported_below_progress<R: Threads + Wait + Sync>(
    rt: &R,
    host: &HostRuntime,
    words: &[&[u8]],
) -> bool {
    let fake = Fake::new(host, words, AMPLE);
    let progress = Progress::new(&fake.screen, true);
    status_shown(rt, &fake, &progress) == 0 && is_reported(&fake)
}

// The trial's report was printed, and what showed progress before it was blanked.
fn is_reported(fake: &Fake<'_>) -> bool {
    holds(&fake.output, TRIAL)
        && fake.screen.printed() > 1
        && fake.screen.found() == 1
        && !fake.screen.shows_a_line()
        && !fake.glued.get()
}

// What the trial's number stands for, by docs/FORMATS.md.
const TRIAL: &str =
    "trial 5\nstation msf\nreceivers 2\nsent 2009-07-04T05:35Z 5 no\ndecided\nfirst 2009-07-04T05:35Z 5 no\n";

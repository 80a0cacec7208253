//! Runs over files in memory, with ample memory. The texts are worked out by hand from the code descriptions.

use crate::made::{
    JJY, REPORT, SENTENCES, TWO_STATIONS, files_of_minutes, files_of_two, printed, status_of,
    tells, tells_minutes, tells_over,
};
use bank_files::{MemoryFiles, OneByte};
use std::alloc::Global;
use std::test::Fail;
use std::thread::Threads;
use workers::NoGate;

// The hour of the two minutes.
const HOUR: &str =
    "decode k.toml --seconds 120 --from 2024-06-10T06:00Z --to 2024-06-10T06:59Z --workers 2";

#[test]
fn decides_two_clean_minutes(rt: HostRuntime) -> Result<(), Fail> {
    assert!(rt; tells_minutes(&rt, JJY, HOUR, 0, REPORT)?);
    Ok(())
}

#[test]
fn ties_on_an_empty_log(rt: HostRuntime) -> Result<(), Fail> {
    assert!(rt;
        tells_over(
            &rt,
            JJY,
            "",
            "decode k.toml --seconds 60 --from 2024-06-10T00:00Z --to 2024-06-10T00:01Z",
            1,
            "undecided 0\nphase 0\nsequence 2024-06-10T00:00Z 0 no\nsequence 2024-06-10T00:01Z 0 no\n",
        )?
    );
    Ok(())
}

// Tells whether a run over no files ends with this status and prints this text.
fn tells_over_none<R: Threads + Sync + AllocGlobal>(
    rt: &R,
    line: &str,
    status: u8,
    text: &str,
) -> Result<bool, Fail> {
    let mut files = MemoryFiles::make(rt.alloc());
    tells(rt, &mut files, line, status, text)
}

const REFUSED_LINES: [(&str, &str); 6] = [
    ("decode", "words: usage\n"),
    ("check k.toml y.cert", "words: usage\n"),
    ("decode k.toml --certificate -", "words: usage\n"),
    ("decode k.toml --seconds 59", "words: bad --seconds\n"),
    ("trial 01", "words: bad NUMBER\n"),
    (
        "feed k.toml --from 2024-06-10T06:00Z --to 2024-06-10T05:59Z",
        "words: --to is before --from\n",
    ),
];

#[test]
fn refuses_words(rt: HostRuntime) -> Result<(), Fail> {
    for (line, text) in REFUSED_LINES {
        assert!(rt; tells_over_none(&rt, line, 3, text)?, "{line}");
    }
    Ok(())
}

const REFUSED_CONFIGURATIONS: [(&str, &str); 7] = [
    ("", "configuration: missing station\n"),
    ("station = ", "configuration: not toml\n"),
    (
        "station = \"jjy\"\n[[receiver]]\nname = \"a\"\nlog = \"a.log\"\nstation = \"bpc\"\n",
        "configuration: out of range receiver 1 station\n",
    ),
    (
        "station = \"jjy\"\n[table]\nsecond = 2001\n[[receiver]]\nname = \"a\"\nlog = \"a.log\"\n",
        "configuration: out of range second\n",
    ),
    (
        "station = \"jjy\"\n[[receiver]]\nname = \"a\"\nlog = \"a.log\"\ntable = 60\n",
        "configuration: wrong kind receiver 1 table\n",
    ),
    // What is wrong with a receiver's table is told before what is wrong with the bank's.
    (
        "station = \"jjy\"\n[table]\nsecond = 0\n[[receiver]]\nname = \"a\"\nlog = \"a.log\"\n[receiver.table]\nsecond = 0\n",
        "configuration: out of range receiver 1 second\n",
    ),
    (
        "station = \"jjy\"\n[[receiver]]\nname = \"a\"\nlog = \"a.log\"\n[receiver.table]\nsecond = 60\nthird = 60\n",
        "configuration: unknown key\n",
    ),
];

#[test]
fn refuses_configurations(rt: HostRuntime) -> Result<(), Fail> {
    for (config, text) in REFUSED_CONFIGURATIONS {
        assert!(rt; tells_over(&rt, config, "", HOUR, 4, text)?, "{text}");
    }
    Ok(())
}

// Tells whether a run over these two logs refuses one with this text.
fn refuses_a_log<R: Threads + Sync + AllocGlobal>(
    rt: &R,
    first: &str,
    second: &str,
    text: &str,
) -> Result<bool, Fail> {
    let mut files = files_of_two(rt.alloc(), TWO_STATIONS, first, second)?;
    tells(rt, &mut files, HOUR, 5, text)
}

const BAD_LOGS: [(&str, &str, &str); 2] = [
    ("5 H\n5 L\n", "4 Q", "log 1 a: line 2: not rising\n"),
    ("", "# x\n\n5 H\n4 Q", "log 2 b: line 4: shape\n"),
];

#[test]
fn refuses_the_first_bad_log(rt: HostRuntime) -> Result<(), Fail> {
    for (first, second, text) in BAD_LOGS {
        assert!(rt; refuses_a_log(&rt, first, second, text)?, "{text}");
    }
    Ok(())
}

#[test]
fn lists_a_minute(rt: HostRuntime) -> Result<(), Fail> {
    assert!(rt; tells_over_none(&rt, "encode jjy 2024-06-10T06:45Z", 0, LISTING)?);
    Ok(())
}

#[test]
fn feeds_two_minutes(rt: HostRuntime) -> Result<(), Fail> {
    assert!(rt;
        tells_minutes(
            &rt,
            JJY,
            "feed k.toml --seconds 120 --from 2024-06-10T06:00Z --to 2024-06-10T06:59Z",
            0,
            SENTENCES,
        )?
    );
    Ok(())
}

// The station with its one receiver, under a ceiling that no cost but 0 keeps to.
const LOW: &str = "ceiling = 0\nstation = \"jjy\"\n[[receiver]]\nname = \"a\"\nlog = \"a.log\"\n";

#[test]
fn admits_nothing_under_a_low_ceiling(rt: HostRuntime) -> Result<(), Fail> {
    assert!(rt;
        tells_minutes(
            &rt,
            LOW,
            "decode k.toml --seconds 120 --from 2024-06-10T07:00Z --to 2024-06-10T07:09Z",
            2,
            "none\nphase 0\n",
        )?
    );
    Ok(())
}

// Tells whether a run over the clean log ends as a file fails at this call, and prints nothing.
fn ends_at<R: Threads + Sync + AllocGlobal>(rt: &R, call: u64) -> Result<bool, Fail> {
    let mut files = files_that_fail(rt.alloc(), call)?;
    tells(rt, &mut files, HOUR, 6, "")
}

fn files_that_fail(alloc: Global, call: u64) -> Result<MemoryFiles, Fail> {
    let mut files = files_of_minutes(alloc, JJY)?;
    files.fail(call)?;
    Ok(files)
}

#[test]
fn ends_at_a_failing_file(rt: HostRuntime) -> Result<(), Fail> {
    // The configuration is read in two calls, the clean log in two, and the report is written in one.
    for call in 1..6 {
        assert!(rt; ends_at(&rt, call)?, "call {call}");
    }
    Ok(())
}

// The listing of a minute in which JJY tells its call sign, worked out by hand.
const LISTING: &str =
    "encode jjy 2024-06-10T06:45Z 60\nM10000101M000100101M000100110M001000110M*********M??????000M\n";

// A name that is no file's.
#[test]
fn ends_at_a_missing_file(rt: HostRuntime) -> Result<(), Fail> {
    assert!(rt; tells_over_none(&rt, HOUR, 6, "")?);
    Ok(())
}

// Tells whether a run over the clean log prints the report, where the files read and write a byte a call.
fn reports_byte_by_byte<R: Threads + Sync + AllocGlobal>(rt: &R) -> Result<bool, Fail> {
    let inner = files_of_minutes(rt.alloc(), JJY)?;
    let mut files = OneByte { inner };
    let status = status_of(rt, &mut files, HOUR, &NoGate)?;
    Ok(status == 0 && printed(&files.inner, REPORT))
}

#[test]
fn prints_the_same_byte_by_byte(rt: HostRuntime) -> Result<(), Fail> {
    assert!(rt; reports_byte_by_byte(&rt)?);
    Ok(())
}

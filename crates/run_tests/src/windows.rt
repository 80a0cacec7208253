//! Runs of `follow` over files in memory, with ample memory. The texts are worked out from docs/FORMATS.md and the code
//! descriptions, by hand and by a program that tries one sequence after the other.

use crate::made::{
    DCF77, DCF77_WAVES, JJY, JJY_WAVES, MINUTES, MSF, MSF_WAVES, files_of, heard, printed, words,
};
use bank_files::OneByte;
use follow::follow;
use std::test::Fail;
use std::thread::Threads;
use workers::NoGate;

// Whether a run of this line ends with this status and prints this text.
fn tells<R: Threads + Sync + AllocGlobal>(
    rt: &R,
    config: &str,
    log: &str,
    line: &str,
    status: u8,
    text: &str,
) -> Result<bool, Fail> {
    let mut files = files_of(rt.alloc(), config, log)?;
    let words = words(rt.alloc(), line)?;
    let ended = follow(rt, rt.alloc(), &words, &mut files, &NoGate);
    Ok(ended == status && printed(&files, text))
}

// The same where the log is that of these minutes.
fn follows<R: Threads + Sync + AllocGlobal>(
    rt: &R,
    station: (&str, &[(u8, &'static str)]),
    minutes: &[&str],
    line: &str,
    status: u8,
    text: &str,
) -> Result<bool, Fail> {
    let log = heard(rt.alloc(), station.1, minutes)?;
    tells(rt, station.0, &log, line, status, text)
}

const TWO_WINDOWS: &str =
    "window 0\ndecided 0\nphase 0\nsequence 2024-06-10T06:16Z 0 no\nnext 1200\nminute 2024-06-10T06:16Z at 0\nminute 2024-06-10T06:17Z at 60000\nwindow 60000\ndecided 0\nphase 0\nsequence 2024-06-10T06:17Z 0 no\nnext 1200\nminute 2024-06-10T06:17Z at 60000\nminute 2024-06-10T06:18Z at 120000\n";

// Over the whole century.
#[test]
fn follows_two_windows(rt: HostRuntime) -> Result<(), Fail> {
    let line = "follow k.toml --seconds 120 --count 2";
    assert!(rt; follows(&rt, (JJY, &JJY_WAVES), &MINUTES, line, 0, TWO_WINDOWS)?);
    Ok(())
}

// The hour of the minutes.
const HOUR: &str =
    "follow k.toml --seconds 120 --count 2 --from 2024-06-10T06:00Z --to 2024-06-10T06:59Z";

#[test]
fn any_number_of_workers_tells_the_same(rt: HostRuntime) -> Result<(), Fail> {
    for workers in [1, 2, 4, 8] {
        assert!(rt; tells_with(&rt, workers)?, "{workers}");
    }
    Ok(())
}

// Whether so many workers tell the two windows.
fn tells_with<R: Threads + Sync + AllocGlobal>(rt: &R, workers: u8) -> Result<bool, Fail> {
    let line = format!(in rt.alloc(); "{HOUR} --workers {workers}")?;
    follows(rt, (JJY, &JJY_WAVES), &MINUTES, &line, 0, TWO_WINDOWS)
}

// Files that read and write a byte a call.
#[test]
fn prints_the_same_byte_by_byte(rt: HostRuntime) -> Result<(), Fail> {
    assert!(rt; tells_byte_by_byte(&rt)?);
    Ok(())
}

fn tells_byte_by_byte<R: Threads + Sync + AllocGlobal>(rt: &R) -> Result<bool, Fail> {
    let log = heard(rt.alloc(), &JJY_WAVES, &MINUTES)?;
    let words = words(rt.alloc(), HOUR)?;
    let inner = files_of(rt.alloc(), JJY, &log)?;
    let mut files = OneByte { inner };
    let ended = follow(rt, rt.alloc(), &words, &mut files, &NoGate);
    Ok(ended == 0 && printed(&files.inner, TWO_WINDOWS))
}

// The configuration and the log are read in two calls each, and each window is written in two.
#[test]
fn ends_at_a_failing_file(rt: HostRuntime) -> Result<(), Fail> {
    for call in 1..9 {
        assert!(rt; ends_at(&rt, call)?, "call {call}");
    }
    Ok(())
}

// Whether a run whose call of this number fails ends with 6, and printed a front of the two windows.
fn ends_at<R: Threads + Sync + AllocGlobal>(rt: &R, call: u64) -> Result<bool, Fail> {
    let log = heard(rt.alloc(), &JJY_WAVES, &MINUTES)?;
    let words = words(rt.alloc(), HOUR)?;
    let mut files = files_of(rt.alloc(), JJY, &log)?;
    files.fail(call)?;
    let ended = follow(rt, rt.alloc(), &words, &mut files, &NoGate);
    let front = files.contents("-").unwrap_or(b"");
    Ok(ended == 6 && is_front(front, TWO_WINDOWS))
}

// Whether these bytes are a text without its end.
fn is_front(bytes: &[u8], text: &str) -> bool {
    bytes.len() < text.len() && text.as_bytes().starts_with(bytes)
}

// The second window starts a minute behind the end of the first.
#[test]
fn a_step_may_be_longer_than_a_window(rt: HostRuntime) -> Result<(), Fail> {
    assert!(rt;
        follows(
            &rt,
            (JJY, &JJY_WAVES),
            &MINUTES,
            "follow k.toml --seconds 60 --step 120 --count 2 --from 2024-06-10T06:16Z --to 2024-06-10T06:19Z",
            0,
            "window 0\ndecided 0\nphase 0\nsequence 2024-06-10T06:16Z 0 no\nnext 600\nminute 2024-06-10T06:16Z at 0\nwindow 120000\ndecided 0\nphase 0\nsequence 2024-06-10T06:18Z 0 no\nnext 600\nminute 2024-06-10T06:18Z at 120000\n",
        )?
    );
    Ok(())
}

// A receiver of each station, in another order than that of stations. That of JJY has the log, and the others heard nothing.
const FOUR: &str =
    "station = \"wwvb\"\n[[receiver]]\nname = \"w\"\nlog = \"b.log\"\n[[receiver]]\nname = \"j\"\nlog = \"a.log\"\nstation = \"jjy\"\n[[receiver]]\nname = \"m\"\nlog = \"b.log\"\nstation = \"msf\"\n[[receiver]]\nname = \"d\"\nlog = \"b.log\"\nstation = \"dcf77\"\n";

// JJY alone decides, and of what was never heard no value of DUT1 is told from another.
#[test]
fn follows_four_stations(rt: HostRuntime) -> Result<(), Fail> {
    let line =
        "follow k.toml --seconds 60 --step 90 --count 2 --from 2024-06-10T06:10Z --to 2024-06-10T06:19Z";
    let text =
        "window 0\ndecided 0\nphase 0\nsequence 2024-06-10T06:16Z 0 no\nnext 600\ndut1 msf undecided\ndut1 wwvb undecided\nminute 2024-06-10T06:16Z at 0\nwindow 90000\ndecided 0\nphase 0\nsequence 2024-06-10T06:17Z 30 no\nnext 300\ndut1 msf undecided\ndut1 wwvb undecided\nminute 2024-06-10T06:18Z at 120000\n";
    assert!(rt; four_tell(&rt, line, text)?);
    Ok(())
}

// Whether a run over the four ends as one that is decided, and prints this text.
fn four_tell<R: Threads + Sync + AllocGlobal>(
    rt: &R,
    line: &str,
    text: &str,
) -> Result<bool, Fail> {
    let log = heard(rt.alloc(), &JJY_WAVES, &MINUTES)?;
    let mut files = files_of(rt.alloc(), FOUR, &log)?;
    files.put("b.log", b"")?;
    let words = words(rt.alloc(), line)?;
    let ended = follow(rt, rt.alloc(), &words, &mut files, &NoGate);
    Ok(ended == 0 && printed(&files, text))
}

// The minutes of DCF77 from 2016-12-31T23:58Z on. The second of them has 61 seconds.
const LEAP: [&str; 3] = [
    "00000000000000000011110011010000000010000011110000111010001-",
    "000000000000000000111000000001000001100000111100001110100010-",
    "00000000000000000010110000001100000110000011110000111010001-",
];

// The third window begins with the leap second, and may as well begin with the last second of a minute that has none.
#[test]
fn follows_over_a_leap_second(rt: HostRuntime) -> Result<(), Fail> {
    for (line, status, text) in [
        (
            "follow k.toml --seconds 90 --count 2 --from 2016-12-31T23:50Z --to 2017-01-01T00:09Z",
            0,
            "window 0\ndecided 0\nphase 0\nsequence 2016-12-31T23:58Z 0 yes\nnext 200\nminute 2016-12-31T23:58Z at 0\nminute 2016-12-31T23:59Z at 60000\nwindow 60000\ndecided 0\nphase 0\nsequence 2016-12-31T23:59Z 0 yes\nnext 800\nminute 2016-12-31T23:59Z at 60000\nminute 2017-01-01T00:00Z at 121000\n",
        ),
        (
            "follow k.toml --seconds 60 --count 3 --from 2016-12-31T23:50Z --to 2017-01-01T00:09Z",
            1,
            "window 0\ndecided 0\nphase 0\nsequence 2016-12-31T23:58Z 0 yes\nnext 100\nminute 2016-12-31T23:58Z at 0\nwindow 60000\ndecided 0\nphase 0\nsequence 2016-12-31T23:59Z 0 yes\nnext 200\nminute 2016-12-31T23:59Z at 60000\nwindow 120000\nundecided 0\nphase 0\nsequence 2016-12-31T23:59Z 59 no\nsequence 2016-12-31T23:59Z 60 yes\n",
        ),
    ] {
        let is_told = follows(&rt, (DCF77, &DCF77_WAVES), &LEAP, line, status, text)?;
        assert!(rt; is_told, "{line}");
    }
    Ok(())
}

// The minutes of DCF77 from 2024-10-27T00:58Z on. They tell 02:59 in summer time, then 02:00 and 02:01 in winter time.
const CHANGE: [&str; 3] = [
    "00000000000000001100110011010010000111100111100001001001000-",
    "00000000000000001010100000000010000111100111100001001001000-",
    "00000000000000000010110000001010000111100111100001001001000-",
];

#[test]
fn follows_over_the_end_of_summer_time(rt: HostRuntime) -> Result<(), Fail> {
    assert!(rt;
        follows(
            &rt,
            (DCF77, &DCF77_WAVES),
            &CHANGE,
            "follow k.toml --seconds 60 --count 3 --from 2024-10-27T00:00Z --to 2024-10-27T01:59Z",
            0,
            "window 0\ndecided 0\nphase 0\nsequence 2024-10-27T00:58Z 0 no\nnext 200\nminute 2024-10-27T00:58Z at 0\nwindow 60000\ndecided 0\nphase 0\nsequence 2024-10-27T00:59Z 0 no\nnext 300\nminute 2024-10-27T00:59Z at 60000\nwindow 120000\ndecided 0\nphase 0\nsequence 2024-10-27T01:00Z 0 no\nnext 200\nminute 2024-10-27T01:00Z at 120000\n",
        )?
    );
    Ok(())
}

// The minutes of DCF77 from 2024-03-31T00:58Z on. They tell 01:59 in winter time, then 03:00 and 03:01 in summer time.
const SPRING: [&str; 3] = [
    "00000000000000001010110011010100000110001111111000001001000-",
    "00000000000000001100100000000110000010001111111000001001000-",
    "00000000000000000100110000001110000010001111111000001001000-",
];

#[test]
fn follows_over_the_begin_of_summer_time(rt: HostRuntime) -> Result<(), Fail> {
    assert!(rt;
        follows(
            &rt,
            (DCF77, &DCF77_WAVES),
            &SPRING,
            "follow k.toml --seconds 60 --count 3 --from 2024-03-31T00:00Z --to 2024-03-31T01:59Z",
            0,
            "window 0\ndecided 0\nphase 0\nsequence 2024-03-31T00:58Z 0 no\nnext 200\nminute 2024-03-31T00:58Z at 0\nwindow 60000\ndecided 0\nphase 0\nsequence 2024-03-31T00:59Z 0 no\nnext 300\nminute 2024-03-31T00:59Z at 60000\nwindow 120000\ndecided 0\nphase 0\nsequence 2024-03-31T01:00Z 0 no\nnext 200\nminute 2024-03-31T01:00Z at 120000\n",
        )?
    );
    Ok(())
}

// The minutes of MSF from 2024-07-15T23:58Z on. DUT1 is -2 tenths before midnight, and -3 behind it.
const MIDNIGHT: [&str; 3] = [
    "M00000000110000000020020000222020220020000000202200202332330",
    "M00000000110000000020020000222020220020000002000000002332230",
    "M00000000111000000020020000222020220020000002000000202332330",
];

// The fourth window reaches over midnight in UTC.
#[test]
fn follows_over_midnight(rt: HostRuntime) -> Result<(), Fail> {
    assert!(rt;
        follows(
            &rt,
            (MSF, &MSF_WAVES),
            &MIDNIGHT,
            "follow k.toml --seconds 60 --step 30 --count 5 --from 2024-07-15T23:50Z --to 2024-07-16T00:09Z",
            0,
            "window 0\ndecided 0\nphase 0\nsequence 2024-07-15T23:58Z 0 no\nnext 200\ndut1 -2\nminute 2024-07-15T23:58Z at 0\nwindow 30000\ndecided 0\nphase 0\nsequence 2024-07-15T23:58Z 30 no\nnext 200\ndut1 -2\nminute 2024-07-15T23:59Z at 60000\nwindow 60000\ndecided 0\nphase 0\nsequence 2024-07-15T23:59Z 0 no\nnext 200\ndut1 -2\nminute 2024-07-15T23:59Z at 60000\nwindow 90000\ndecided 0\nphase 0\nsequence 2024-07-15T23:59Z 30 no\nnext 200\ndut1 free\nminute 2024-07-16T00:00Z at 120000\nwindow 120000\ndecided 0\nphase 0\nsequence 2024-07-16T00:00Z 0 no\nnext 200\ndut1 -3\nminute 2024-07-16T00:00Z at 120000\n",
        )?
    );
    Ok(())
}

// The last three minutes that JJY encodes, from 2099-12-31T14:57Z on. In Japan the last of them is 23:59.
const LAST: [&str; 3] = [
    "M10100111M001000011M001100110M010100110M010011001M100000000M",
    "M10101000M001000011M001100110M010100110M010011001M100000000M",
    "M10101001M001000011M001100110M010100100M010011001M100000000M",
];

// No sequence tells the last of them and goes on behind it. The log ends with it.
#[test]
fn follows_over_the_end_of_the_century(rt: HostRuntime) -> Result<(), Fail> {
    assert!(rt;
        follows(
            &rt,
            (JJY, &JJY_WAVES),
            &LAST,
            "follow k.toml --seconds 120 --count 4 --from 2099-12-31T14:50Z --to 2099-12-31T14:59Z",
            1,
            "window 0\ndecided 0\nphase 0\nsequence 2099-12-31T14:57Z 0 no\nnext 1200\nminute 2099-12-31T14:57Z at 0\nminute 2099-12-31T14:58Z at 60000\nwindow 60000\ndecided 0\nphase 0\nsequence 2099-12-31T14:58Z 0 no\nnext 1200\nminute 2099-12-31T14:58Z at 60000\nminute 2099-12-31T14:59Z at 120000\nwindow 120000\nundecided 600\nphase 0\nsequence 2099-12-31T14:50Z 0 no\nsequence 2099-12-31T14:51Z 0 no\nwindow 180000\nundecided 0\nphase 0\nsequence 2099-12-31T14:50Z 0 no\nsequence 2099-12-31T14:51Z 0 no\n",
        )?
    );
    Ok(())
}

// The last window starts too late, which is told once all logs are good.
#[test]
fn refuses_a_count_behind_the_logs(rt: HostRuntime) -> Result<(), Fail> {
    let late = "follow k.toml --seconds 120 --count 2 --start 999999999999";
    let is_told = follows(
        &rt,
        (JJY, &JJY_WAVES),
        &MINUTES,
        late,
        3,
        "words: bad --count\n",
    )?;
    assert!(rt; is_told);
    let missing = "configuration: missing station\n";
    assert!(rt; follows(&rt, ("", &JJY_WAVES), &MINUTES, late, 4, missing)?);
    for (log, line, status, text) in [
        ("5 H\n5 L\n", late, 5, "log 1 a: line 2: not rising\n"),
        // A log that begins so late tells the start.
        (
            "999999999999 H\n",
            "follow k.toml --step 1 --count 2",
            3,
            "words: bad --count\n",
        ),
    ] {
        assert!(rt; tells(&rt, JJY, log, line, status, text)?, "{text}");
    }
    Ok(())
}

// Nothing but a sequence that fits is admitted.
const STRICT: &str =
    "ceiling = 0\nstation = \"jjy\"\n[[receiver]]\nname = \"a\"\nlog = \"a.log\"\n";

#[test]
fn tells_what_is_not_decided(rt: HostRuntime) -> Result<(), Fail> {
    assert!(rt;
        tells(
            &rt,
            JJY,
            "",
            "follow k.toml --count 1",
            1,
            "window 0\nundecided 0\nphase 0\nsequence 2000-01-01T00:00Z 0 no\nsequence 2000-01-01T00:01Z 0 no\n",
        )?
    );
    assert!(rt;
        follows(
            &rt,
            (STRICT, &JJY_WAVES),
            &MINUTES,
            "follow k.toml --seconds 60 --step 120 --count 2 --from 2024-06-10T06:16Z --to 2024-06-10T06:17Z",
            1,
            "window 0\ndecided 0\nphase 0\nsequence 2024-06-10T06:16Z 0 no\nnext none\nminute 2024-06-10T06:16Z at 0\nwindow 120000\nnone\nphase 0\n",
        )?
    );
    Ok(())
}

#[test]
fn refuses_words(rt: HostRuntime) -> Result<(), Fail> {
    for (line, text) in [
        ("follow", "words: usage\n"),
        ("follow k.toml --leap 1", "words: usage\n"),
        ("follow k.toml --step 0", "words: bad --step\n"),
        ("follow k.toml --step 1201", "words: bad --step\n"),
        ("follow k.toml --count 0", "words: bad --count\n"),
        ("follow k.toml --count 1001", "words: bad --count\n"),
        ("follow k.toml --count 0 --step 0", "words: bad --step\n"),
        ("irig k.toml", "words: usage\n"),
        ("decode k.toml", "words: usage\n"),
    ] {
        assert!(rt; tells(&rt, JJY, "", line, 3, text)?, "{line}");
    }
    Ok(())
}

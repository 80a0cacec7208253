//! Runs over clean logs of MSF, WWVB and DCF77: values of DUT1, a cost table and a ceiling, a long window, a feed, and a write
//! that fails once. The texts are worked out by hand from the code descriptions.

use crate::made::{DCF77, files_of, files_of_two, printed, push_record, tells, tells_over};
use bank_files::{Files, MemoryFiles};
use std::alloc::{AllocError, Global};
use std::process::Abort;
use std::test::Fail;
use std::thread::Threads;

// What is low and high in the ten tenths of a second, by symbol. A symbol that isn't listed is unknown.
const DCF77_WAVES: [(u8, &str); 3] = [
    (b'0', "LHHHHHHHHH"),
    (b'1', "LLHHHHHHHH"),
    (b'-', "HHHHHHHHHH"),
];

const MSF_WAVES: [(u8, &str); 5] = [
    (b'0', "LHHHHHHHHH"),
    (b'1', "LHLHHHHHHH"),
    (b'2', "LLHHHHHHHH"),
    (b'3', "LLLHHHHHHH"),
    (b'M', "LLLLLHHHHH"),
];

const WWVB_WAVES: [(u8, &str); 3] = [
    (b'0', "LLHHHHHHHH"),
    (b'1', "LLLLLHHHHH"),
    (b'M', "LLLLLLLLHH"),
];

// A minute of which nothing is known.
const UNKNOWN: &str = "............................................................";

// How many tenths a window has at most.
const MOST_TENTHS: u64 = 12_000;

fn wave_of(waves: &[(u8, &'static str)], symbol: u8) -> &'static str {
    for wave in waves {
        if wave.0 == symbol {
            return wave.1;
        }
    }
    "XXXXXXXXXX"
}

fn name_of(level: u8) -> &'static str {
    match level {
        b'L' => "L",
        b'H' => "H",
        _ => "X",
    }
}

// The log of a receiver without noise that hears these minutes from millisecond 0 on.
fn log_of(
    alloc: Global,
    waves: &[(u8, &'static str)],
    minutes: &[&str],
) -> Result<String, AllocError> {
    let mut text = String::new(alloc);
    push_log(&mut text, waves, minutes)?;
    Ok(text)
}

// Adds its records.
fn push_log(
    text: &mut String,
    waves: &[(u8, &'static str)],
    minutes: &[&str],
) -> Result<(), AllocError> {
    let mut tenth = 0u64;
    let mut last = b'-';
    for minute in minutes {
        for symbol in minute.bytes() {
            for level in wave_of(waves, symbol).bytes() {
                // Never reached: it bounds the sums.
                if tenth >= MOST_TENTHS {
                    return Ok(());
                }
                if level != last {
                    push_record(text, 100 * tenth, name_of(level))?;
                }
                last = level;
                tenth += 1;
            }
        }
    }
    push_record(text, 100 * tenth.min(MOST_TENTHS), "X")
}

// 2024-07-15T12:00Z as MSF sends it, which tells 13:01 in summer time, with a DUT1 of -2 tenths; and the minute behind it.
const MSF_MINUTES: [&str; 2] = [
    "M00000000110000000020020000222020202002020022000000202332330",
    "M00000000110000000020020000222020202002020022000002002332330",
];

// The same minute as WWVB sends it, day 197 of a leap year, with a DUT1 of 3 tenths.
const WWVB_MINUTE: &str = "M00000000M000100010M000101001M011100101M001100010M010001011M";

// A receiver of MSF, and behind it one of WWVB.
const MSF_AND_WWVB: &str =
    "station = \"msf\"\n[[receiver]]\nname = \"a\"\nlog = \"a.log\"\n[[receiver]]\nname = \"b\"\nlog = \"b.log\"\nstation = \"wwvb\"\n";

// What they hear of the minute.
fn files_of_both(alloc: Global) -> Result<MemoryFiles, Fail> {
    let log = log_of(alloc, &MSF_WAVES, &[MSF_MINUTES[0]])?;
    let other = log_of(alloc, &WWVB_WAVES, &[WWVB_MINUTE])?;
    files_of_two(alloc, MSF_AND_WWVB, &log, &other)
}

// A minute later costs one bit of WWVB, 300, and two of MSF, 100 each.
#[test]
fn msf_and_wwvb_tell_a_dut1_each(rt: HostRuntime) -> Result<(), Fail> {
    let mut files = files_of_both(rt.alloc())?;
    assert!(rt;
        tells(
            &rt,
            &mut files,
            "decode k.toml --seconds 60 --from 2024-07-15T12:00Z --to 2024-07-15T12:59Z",
            0,
            "decided 0\nphase 0\nsequence 2024-07-15T12:00Z 0 no\nnext 500\ndut1 msf -2\ndut1 wwvb 3\nminute 2024-07-15T12:00Z at 0\n",
        )?
    );
    Ok(())
}

// The same minute as DCF77 sends it, which tells 14:01 in summer time, but that second 16 was heard as a 1 and second 20 as
// a 0.
const DISTURBED: &str = "00000000000000001100010000001001010010101010011100001001001-";

// A cost table by which a low millisecond costs 2 where the carrier should be high, and a high one 1 where it should be low.
fn with_table(alloc: Global, ceiling: &str) -> Result<String, AllocError> {
    let mut text = String::new(alloc);
    push_table(&mut text, ceiling)?;
    Ok(text)
}

fn push_table(text: &mut String, ceiling: &str) -> Result<(), AllocError> {
    write!(
        text,
        "station = \"dcf77\"\nceiling = {ceiling}\n[table]\nlow = [100"
    )?;
    push_low(text)?;
    text.push_str("]\nhigh = [0")?;
    push_high(text)?;
    text.push_str("]\n[[receiver]]\nname = \"a\"\nlog = \"a.log\"\nweight = 3\n")
}

fn push_low(text: &mut String) -> Result<(), AllocError> {
    for n in 1..101u32 {
        write!(text, ", {}", 100 - n)?;
    }
    Ok(())
}

fn push_high(text: &mut String) -> Result<(), AllocError> {
    for n in 1..101u32 {
        write!(text, ", {}", 2 * n)?;
    }
    Ok(())
}

// Tells whether a decode of the disturbed minute by this table, under this ceiling, ends with this status and prints this text.
fn tells_under<R: Threads + Sync + AllocGlobal>(
    rt: &R,
    ceiling: &str,
    status: u8,
    text: &str,
) -> Result<bool, Fail> {
    let log = log_of(rt.alloc(), &DCF77_WAVES, &[DISTURBED])?;
    let config = with_table(rt.alloc(), ceiling)?;
    tells_over(
        rt,
        &config,
        &log,
        "decode k.toml --seconds 60 --from 2024-07-15T12:00Z --to 2024-07-15T12:59Z",
        status,
        text,
    )
}

// The two disturbed seconds cost 200 and 100, times the weight of 3. 12:06 tells 14:07 and costs two bits more, 100 each, times 3.
const CEILINGS: [(&str, u8, &str); 4] = [
    ("899", 2, "none\nphase 0\n"),
    (
        "900",
        0,
        "decided 900\nphase 0\nsequence 2024-07-15T12:00Z 0 no\nnext none\nminute 2024-07-15T12:00Z at 0\n",
    ),
    (
        "1499",
        0,
        "decided 900\nphase 0\nsequence 2024-07-15T12:00Z 0 no\nnext none\nminute 2024-07-15T12:00Z at 0\n",
    ),
    (
        "1500",
        0,
        "decided 900\nphase 0\nsequence 2024-07-15T12:00Z 0 no\nnext 1500\nminute 2024-07-15T12:00Z at 0\n",
    ),
];

#[test]
fn counts_by_its_own_table_and_ceiling(rt: HostRuntime) -> Result<(), Fail> {
    for (ceiling, status, text) in CEILINGS {
        assert!(rt; tells_under(&rt, ceiling, status, text)?, "{ceiling}");
    }
    Ok(())
}

// The minute as DCF77 sends it, and the second receiver hears it.
const UNDISTURBED: &str = "00000000000000000100110000001001010010101010011100001001001-";

// What stands in a configuration: at the top, at the first receiver and behind it. Then what 12:00 costs, and 12:06, which is next. In the
// two disturbed seconds, and in the two bits that tell 12:06, another symbol was heard, which differs in one tenth: 100 ms, of
// which HIGH makes 200 where the carrier should be high, as in second 16. A receiver costs no more than its own table says, or
// else the bank's, and then as often as its weight.
const BOUNDED: [(&str, &str, &str, u32, u32); 8] = [
    ("[table]\nsecond = 1\n", "", "", 2, 4),
    ("[table]\nsecond = 60\n", "", "", 120, 240),
    ("[table]\nsecond = 2000\n", "", "", 200, 400),
    (
        "[table]\nsecond = 60\n",
        "weight = 3\n",
        "[[receiver]]\nname = \"b\"\nlog = \"b.log\"\nweight = 2\n[receiver.table]\nsecond = 40\n",
        360,
        880,
    ),
    // A table without `second` bounds nothing.
    (
        "[table]\nsecond = 60\n",
        "weight = 3\n",
        "[[receiver]]\nname = \"b\"\nlog = \"b.log\"\n[receiver.table]\n",
        360,
        920,
    ),
    (
        "",
        "weight = 3\n",
        "[[receiver]]\nname = \"b\"\nlog = \"b.log\"\n[receiver.table]\nsecond = 40\n",
        600,
        1280,
    ),
    (
        "[table]\nsecond = 60\n",
        "[receiver.table]\nHIGH\n",
        "[[receiver]]\nname = \"b\"\nlog = \"b.log\"\n",
        300,
        620,
    ),
    (
        "[table]\nsecond = 60\n",
        "[receiver.table]\nsecond = 150\nHIGH\n",
        "[[receiver]]\nname = \"b\"\nlog = \"b.log\"\n",
        250,
        570,
    ),
];

// A configuration of these parts.
fn config_of(alloc: Global, top: &str, first: &str, behind: &str) -> Result<String, Fail> {
    let mut high = String::new(alloc);
    high.push_str("high = [0")?;
    push_high(&mut high)?;
    high.push_str("]")?;
    let first = first.replacen(alloc, "HIGH", &high, 1)?;
    Ok(format!(in alloc;
        "station = \"dcf77\"\n{top}[[receiver]]\nname = \"a\"\nlog = \"a.log\"\n{first}{behind}"
    )?)
}

// Tells whether a decode by this configuration, of the disturbed minute and the other, comes to these costs.
fn costs_are<R: Threads + Sync + AllocGlobal>(
    rt: &R,
    config: &str,
    cost: u32,
    next: u32,
) -> Result<bool, Fail> {
    let log = log_of(rt.alloc(), &DCF77_WAVES, &[DISTURBED])?;
    let other = log_of(rt.alloc(), &DCF77_WAVES, &[UNDISTURBED])?;
    let mut files = files_of_two(rt.alloc(), config, &log, &other)?;
    let text = format!(in rt.alloc();
        "decided {cost}\nphase 0\nsequence 2024-07-15T12:00Z 0 no\nnext {next}\nminute 2024-07-15T12:00Z at 0\n"
    )?;
    let line = "decode k.toml --seconds 60 --from 2024-07-15T12:00Z --to 2024-07-15T12:59Z";
    tells(rt, &mut files, line, 0, &text)
}

#[test]
fn a_second_costs_no_more_than_its_bound(rt: HostRuntime) -> Result<(), Fail> {
    for (top, first, behind, cost, next) in BOUNDED {
        let config = config_of(rt.alloc(), top, first, behind)?;
        assert!(rt; costs_are(&rt, &config, cost, next)?, "{config}");
    }
    Ok(())
}

// Four minutes of DCF77: the first three from 2024-10-27T00:58Z on, which tell 02:59 in summer time, then 02:00 and 02:01 in
// winter time, and the one that begins 19 minutes after the first and tells 02:18.
const CHANGE: [&str; 3] = [
    "00000000000000001100110011010010000111100111100001001001000-",
    "00000000000000001010100000000010000111100111100001001001000-",
    "00000000000000000010110000001010000111100111100001001001000-",
];

const LATER: &str = "00000000000000000010100011000010000111100111100001001001000-";

fn log_of_twenty(alloc: Global) -> Result<String, AllocError> {
    let mut minutes = [UNKNOWN; 20];
    minutes[..3].copy_from_slice(&CHANGE);
    minutes[19] = LATER;
    log_of(alloc, &DCF77_WAVES, &minutes)
}

// An hour later, at 01:58, ten bits are others: in the first two minutes the announcement of the change, in the first the two of
// summer time, and in all but the first the hour and its parity.
#[test]
fn decodes_twenty_minutes(rt: HostRuntime) -> Result<(), Fail> {
    let log = log_of_twenty(rt.alloc())?;
    assert!(rt;
        tells_over(
            &rt,
            DCF77,
            &log,
            "decode k.toml --seconds 1200 --from 2024-10-27T00:00Z --to 2024-10-27T01:59Z",
            0,
            TWENTY,
        )?
    );
    Ok(())
}

const TWENTY: &str =
    "decided 0\nphase 0\nsequence 2024-10-27T00:58Z 0 no\nnext 1000\nminute 2024-10-27T00:58Z at 0\nminute 2024-10-27T00:59Z at 60000\nminute 2024-10-27T01:00Z at 120000\nminute 2024-10-27T01:01Z at 180000\nminute 2024-10-27T01:02Z at 240000\nminute 2024-10-27T01:03Z at 300000\nminute 2024-10-27T01:04Z at 360000\nminute 2024-10-27T01:05Z at 420000\nminute 2024-10-27T01:06Z at 480000\nminute 2024-10-27T01:07Z at 540000\nminute 2024-10-27T01:08Z at 600000\nminute 2024-10-27T01:09Z at 660000\nminute 2024-10-27T01:10Z at 720000\nminute 2024-10-27T01:11Z at 780000\nminute 2024-10-27T01:12Z at 840000\nminute 2024-10-27T01:13Z at 900000\nminute 2024-10-27T01:14Z at 960000\nminute 2024-10-27T01:15Z at 1020000\nminute 2024-10-27T01:16Z at 1080000\nminute 2024-10-27T01:17Z at 1140000\n";

const MSF: &str = "station = \"msf\"\n[[receiver]]\nname = \"a\"\nlog = \"a.log\"\n";

#[test]
fn feeds_minutes_of_msf(rt: HostRuntime) -> Result<(), Fail> {
    let log = log_of(rt.alloc(), &MSF_WAVES, &MSF_MINUTES)?;
    assert!(rt;
        tells_over(
            &rt,
            MSF,
            &log,
            "feed k.toml --seconds 120 --from 2024-07-15T12:00Z --to 2024-07-15T12:59Z",
            0,
            "$GPZDA,120000.00,15,07,2024,00,00*62\r\n$GPZDA,120100.00,15,07,2024,00,00*63\r\n",
        )?
    );
    Ok(())
}

// The report would be written by call 5. That call fails, and the next one would not.
fn files_that_fail_once(alloc: Global) -> Result<MemoryFiles, Fail> {
    let log = log_of(alloc, &MSF_WAVES, &MSF_MINUTES)?;
    let mut files = files_of(alloc, MSF, &log)?;
    files.fail(5)?;
    Ok(files)
}

#[test]
fn a_write_that_fails_once_ends_the_run(rt: HostRuntime) -> Result<(), Fail> {
    let mut files = files_that_fail_once(rt.alloc())?;
    assert!(rt;
        tells(
            &rt,
            &mut files,
            "decode k.toml --seconds 120 --from 2024-07-15T12:00Z --to 2024-07-15T12:59Z",
            6,
            "",
        )?
    );
    takes_the_next_write(&rt, &mut files);
    Ok(())
}

fn takes_the_next_write(rt: &impl Abort, files: &mut MemoryFiles) {
    assert_eq!(rt; files.append("-", b"!"), Ok(1));
    assert!(rt; printed(files, "!"));
}

//! Certificates of banks whose receivers heard something, written by `decode` and judged by `check`: of two stations, by a cost
//! table and a ceiling, and by seconds that cost so much at the most. The texts and the sums of the certificates' bytes are those of
//! `bench/make-certificate` and `bench/check-certificate`, which are made by docs/FORMATS.md alone.

use crate::made::{DCF77_WAVES, JJY_WAVES, MSF_WAVES, WWVB_WAVES, files_of, heard, printed, words};
use bank_files::MemoryFiles;
use checks::check;
use std::alloc::Global;
use std::test::Fail;
use std::thread::Threads;
use workers::NoGate;

// What is due of a bank: its words, what is told of it, and of its certificate the head, how many bytes it has, and their sum.
#[derive(Clone, Copy)]
struct Due {
    words: &'static str,
    report: &'static str,
    head: &'static str,
    length: usize,
    sum: u32,
}

// The bytes of a text, each counted 31 times as often as the one behind it, modulo 2^32.
fn sum_of(bytes: &[u8]) -> u32 {
    let mut sum = 0u32;
    for byte in bytes {
        sum = sum.wrapping_mul(31).wrapping_add(*byte as u32);
    }
    sum
}

// Whether a decode writes the certificate that is due, which a check then certifies.
fn is_certified<R: Threads + Sync + AllocGlobal>(
    rt: &R,
    files: &mut MemoryFiles,
    due: Due,
) -> Result<bool, Fail> {
    let line = format!(in rt.alloc();
        "decode k.toml {} --workers 2 --certificate y.cert",
        due.words
    )?;
    let words = words(rt.alloc(), &line)?;
    let status = bank::run(rt, rt.alloc(), &words, files, &NoGate);
    if status != 0 || !printed(files, due.report) || !is_written(files, due) {
        return Ok(false);
    }
    is_checked(rt.alloc(), files, due)
}

fn is_written(files: &MemoryFiles, due: Due) -> bool {
    let written = files.contents("y.cert").unwrap_or(b"");
    written.starts_with(due.head.as_bytes())
        && written.len() == due.length
        && sum_of(written) == due.sum
}

fn is_checked(alloc: Global, files: &mut MemoryFiles, due: Due) -> Result<bool, Fail> {
    let report = due.report;
    let both = format!(in alloc; "{report}certified\n{report}")?;
    let line = format!(in alloc; "check k.toml y.cert {}", due.words)?;
    let words = words(alloc, &line)?;
    let status = check(alloc, &words, files);
    Ok(status == 0 && printed(files, &both))
}

// 2024-06-10T06:15Z as JJY and DCF77 send it, but that second 3 of JJY was heard as a 0 and second 21 of DCF77 as a 1.
const JJY_MINUTE: &str = "M00000101M000100101M000100110M001000110M000000000M000000000M";

const DCF77_MINUTE: &str = "00000000000000000100111101001000100100001010001100001001000-";

// A bank of a receiver of JJY and one of DCF77, and what they hear of the minute.
fn files_of_two_stations(alloc: Global, config: &str) -> Result<MemoryFiles, Fail> {
    let log = heard(alloc, &JJY_WAVES, &[JJY_MINUTE])?;
    let other = heard(alloc, &DCF77_WAVES, &[DCF77_MINUTE])?;
    let mut files = files_of(alloc, config, &log)?;
    files.put("b.log", other.as_bytes())?;
    Ok(files)
}

// Each alone, and by what a second costs at the most: 150, but 60 at the second receiver, which counts twice. So the sequence that was
// sent costs 300 and 100, or 150 and twice 60.
const TWO_STATIONS: [(&str, Due); 2] = [
    (
        "station = \"jjy\"\n[[receiver]]\nname = \"a\"\nlog = \"a.log\"\n[[receiver]]\nname = \"b\"\nlog = \"b.log\"\nstation = \"dcf77\"\n",
        Due {
            words: "--seconds 60 --from 2024-06-10T06:10Z --to 2024-06-10T06:19Z",
            report: "decided 400\nphase 0\nsequence 2024-06-10T06:15Z 0 no\nnext 1900\nminute 2024-06-10T06:15Z at 0\n",
            head: "tsbank certificate 2\nstations dcf77 jjy\nstart 0\nphase 0\nseconds 60\nfrom 12855250\nto 12855260\nceiling 1920000000\nfirst 3435986692055\nsecond 16320888580054\nworker 0\n",
            length: 4849,
            sum: 4243591576,
        },
    ),
    (
        "station = \"jjy\"\n[table]\nsecond = 150\n[[receiver]]\nname = \"a\"\nlog = \"a.log\"\n[[receiver]]\nname = \"b\"\nlog = \"b.log\"\nstation = \"dcf77\"\nweight = 2\n[receiver.table]\nsecond = 60\n",
        Due {
            words: "--seconds 60 --from 2024-06-10T06:10Z --to 2024-06-10T06:19Z",
            report: "decided 270\nphase 0\nsequence 2024-06-10T06:15Z 0 no\nnext 1020\nminute 2024-06-10T06:15Z at 0\n",
            head: "tsbank certificate 2\nstations dcf77 jjy\nstart 0\nphase 0\nseconds 60\nfrom 12855250\nto 12855260\nceiling 1920000000\nfirst 2319295195095\nsecond 8761746139094\nworker 0\n",
            length: 4758,
            sum: 32027554,
        },
    ),
];

#[test]
fn certifies_two_stations(rt: HostRuntime) -> Result<(), Fail> {
    for (config, due) in TWO_STATIONS {
        let mut files = files_of_two_stations(rt.alloc(), config)?;
        assert!(rt; is_certified(&rt, &mut files, due)?, "{config}");
    }
    Ok(())
}

// A receiver under a ceiling, by a table in which a low millisecond costs 2 where the carrier should be high.
fn by_a_table(alloc: Global, station: &str, ceiling: u32) -> Result<String, Fail> {
    let mut text = String::new(alloc);
    write!(
        text,
        "station = \"{station}\"\nceiling = {ceiling}\n[table]\nhigh = [0"
    )?;
    for n in 1..101u32 {
        write!(text, ", {}", 2 * n)?;
    }
    text.push_str("]\n[[receiver]]\nname = \"a\"\nlog = \"a.log\"\n")?;
    Ok(text)
}

// 2024-07-15T12:00Z as MSF sends it, with a DUT1 of -2 tenths, but that second 17, a 0, was heard as a 2. 12:06 costs two bits more, of
// 100 each, which the ceiling doesn't admit.
const MSF_MINUTE: &str = "M00000000110000002020020000222020202002020022000000202332330";

const MSF_DUE: Due = Due {
    words: "--seconds 60 --from 2024-07-15T11:57Z --to 2024-07-15T12:06Z",
    report: "decided 200\nphase 0\nsequence 2024-07-15T12:00Z 0 no\nnext none\ndut1 -2\nminute 2024-07-15T12:00Z at 0\n",
    head: "tsbank certificate 1\nstation msf\nstart 0\nphase 0\nseconds 60\nfrom 12905997\nto 12906007\nceiling 399\nfirst 1717999824400\nsecond -\nworker 0\n",
    length: 4757,
    sum: 906525832,
};

#[test]
fn certifies_msf_by_a_table_and_a_ceiling(rt: HostRuntime) -> Result<(), Fail> {
    let log = heard(rt.alloc(), &MSF_WAVES, &[MSF_MINUTE])?;
    let config = by_a_table(rt.alloc(), "msf", 399)?;
    let mut files = files_of(rt.alloc(), &config, &log)?;
    assert!(rt; is_certified(&rt, &mut files, MSF_DUE)?);
    Ok(())
}

// The same minute as WWVB sends it, with a DUT1 of 3 tenths, but that second 33, a 1, was heard as a 0. 12:01 costs one bit more.
const WWVB_MINUTE: &str = "M00000000M000100010M000101001M011000101M001100010M010001011M";

const WWVB_DUE: Due = Due {
    words: "--seconds 60 --from 2024-07-15T11:57Z --to 2024-07-15T12:06Z",
    report: "decided 300\nphase 0\nsequence 2024-07-15T12:00Z 0 no\nnext 600\ndut1 3\nminute 2024-07-15T12:00Z at 0\n",
    head: "tsbank certificate 1\nstation wwvb\nstart 0\nphase 0\nseconds 60\nfrom 12905997\nto 12906007\nceiling 900\nfirst 2576993283600\nsecond 5153973661201\nworker 0\n",
    length: 4705,
    sum: 2566595007,
};

#[test]
fn certifies_wwvb_by_a_table_and_a_ceiling(rt: HostRuntime) -> Result<(), Fail> {
    let log = heard(rt.alloc(), &WWVB_WAVES, &[WWVB_MINUTE])?;
    let config = by_a_table(rt.alloc(), "wwvb", 900)?;
    let mut files = files_of(rt.alloc(), &config, &log)?;
    assert!(rt; is_certified(&rt, &mut files, WWVB_DUE)?);
    Ok(())
}

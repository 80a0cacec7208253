//! Feeds over changes of the hour, the day and the year, and with a leap second. The checksums were worked out apart from
//! this project.

use crate::made::{check_row, one_call, printed, sequence_from, window_of};
use bank_files::{Failed, Files, MemoryFiles, OneByte};
use civil::Civil;
use definitions::CENTURY_MINUTES;
use sequence::{Sequence, walkable};
use signal_base::MOST_SECONDS;
use std::alloc::Global;
use std::process::Abort;
use std::test::Fail;
use texts::write_feed;

// The first minute and second, whether a leap second is announced, how many seconds, and the feed.
const FEEDS: [(&str, u8, bool, u16, &str); 8] = [
    // Summer time begins in Europe at 01:00 of this day.
    (
        "2024-03-31T00:58Z",
        0,
        false,
        180,
        "$GPZDA,005800.00,31,03,2024,00,00*6E\r\n$GPZDA,005900.00,31,03,2024,00,00*6F\r\n$GPZDA,010000.00,31,03,2024,00,00*62\r\n",
    ),
    (
        "2024-06-10T23:59Z",
        30,
        false,
        91,
        "$GPZDA,000000.00,11,06,2024,00,00*64\r\n$GPZDA,000100.00,11,06,2024,00,00*65\r\n",
    ),
    (
        "2024-12-31T23:59Z",
        0,
        false,
        61,
        "$GPZDA,235900.00,31,12,2024,00,00*6E\r\n$GPZDA,000000.00,01,01,2025,00,00*63\r\n",
    ),
    // The last minute of this year has 60 seconds, or one more.
    (
        "2016-12-31T23:58Z",
        0,
        false,
        121,
        "$GPZDA,235800.00,31,12,2016,00,00*6E\r\n$GPZDA,235900.00,31,12,2016,00,00*6F\r\n$GPZDA,000000.00,01,01,2017,00,00*62\r\n",
    ),
    (
        "2016-12-31T23:58Z",
        0,
        true,
        121,
        "$GPZDA,235800.00,31,12,2016,00,00*6E\r\n$GPZDA,235900.00,31,12,2016,00,00*6F\r\n",
    ),
    (
        "2016-12-31T23:58Z",
        0,
        true,
        122,
        "$GPZDA,235800.00,31,12,2016,00,00*6E\r\n$GPZDA,235900.00,31,12,2016,00,00*6F\r\n$GPZDA,000000.00,01,01,2017,00,00*62\r\n",
    ),
    // From the leap second itself on, and the other 60 seconds of its minute, in which none begins.
    (
        "2016-12-31T23:59Z",
        60,
        true,
        60,
        "$GPZDA,000000.00,01,01,2017,00,00*62\r\n",
    ),
    ("2016-12-31T23:59Z", 1, true, 60, ""),
];

// Writes the feed of a walk, where there is one.
fn feed<F: Files>(
    files: &mut F,
    civil: &Civil,
    q: Option<Sequence>,
    seconds: u16,
) -> Option<Result<(), Failed>> {
    let q = q?;
    let window = window_of(seconds);
    if q.first >= CENTURY_MINUTES || q.second > 60 || seconds > MOST_SECONDS {
        return None;
    }
    if !walkable(civil, &window, &q) {
        return None;
    }
    Some(write_feed(files, civil, &window, &q))
}

// What becomes of a feed that is written by one call, and whether it is this text.
fn fed(
    alloc: Global,
    civil: &Civil,
    q: Option<Sequence>,
    seconds: u16,
    text: &str,
) -> Result<(Option<Result<(), Failed>>, bool), Fail> {
    let mut files = one_call(alloc)?;
    let written = feed(&mut files, civil, q, seconds);
    Ok((written, printed(&files, text)))
}

fn feeds_minutes_by_one_append(rt: &(impl Abort + AllocGlobal), civil: &Civil) -> Result<(), Fail> {
    for (minute, second, announced, seconds, text) in &FEEDS {
        let q = sequence_from(minute, *second, *announced);
        let found = fed(rt.alloc(), civil, q, *seconds, text)?;
        check_row(rt, found == (Some(Ok(())), true), minute);
    }
    Ok(())
}

// The same where each append takes one byte and the second fails.
fn fed_by_bytes(
    alloc: Global,
    civil: &Civil,
    q: Option<Sequence>,
    text: &str,
) -> Result<(Option<Result<(), Failed>>, bool), Fail> {
    let mut inner = MemoryFiles::make(alloc);
    inner.fail(2)?;
    let mut files = OneByte { inner };
    let written = feed(&mut files, civil, q, 180);
    Ok((written, printed(&files.inner, text)))
}

fn keeps_a_front_where_an_append_fails(
    rt: &(impl Abort + AllocGlobal),
    civil: &Civil,
) -> Result<(), Fail> {
    let q = sequence_from("2024-03-31T00:58Z", 0, false);
    let found = fed_by_bytes(rt.alloc(), civil, q, "$")?;
    assert!(rt; found == (Some(Err(Failed)), true));
    Ok(())
}

fn check_feeds(rt: &(impl Abort + AllocGlobal), civil: &Civil) -> Result<(), Fail> {
    feeds_minutes_by_one_append(rt, civil)?;
    keeps_a_front_where_an_append_fails(rt, civil)
}

#[test]
fn feeds_and_their_appends(rt: HostRuntime) -> Result<(), Fail> {
    let civil = Civil::make(rt.alloc())?;
    check_feeds(&rt, &civil)
}

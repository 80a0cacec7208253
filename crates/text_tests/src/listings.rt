//! Listings of minutes of all four stations. The characters were worked out from the stations' descriptions.

use crate::made::{check_row, one_call, printed};
use bank_files::{Failed, Files};
use civil::{Civil, parse_minute};
use sequence::telegram;
use signal_base::Station;
use std::alloc::Global;
use std::process::Abort;
use std::test::Fail;
use texts::write_listing;

// A station, a minute, whether a leap second is announced, and the listing. Among the minutes are one of a leap day, one
// before a change of summer time, and one in which JJY sends its call sign.
const LISTINGS: [(Station, &str, bool, &str); 6] = [
    (
        Station::Wwvb,
        "2024-02-29T12:34Z",
        false,
        "encode wwvb 2024-02-29T12:34Z 60\nM01100100M000100010M000000110M000000???M????00010M010001000M\n",
    ),
    (
        Station::Jjy,
        "2024-06-10T06:45Z",
        false,
        "encode jjy 2024-06-10T06:45Z 60\nM10000101M000100101M000100110M001000110M*********M??????000M\n",
    ),
    (
        Station::Dcf77,
        "2024-03-31T00:59Z",
        false,
        "encode dcf77 2024-03-31T00:59Z 60\n0???????????????1100100000000110000010001111111000001001000-\n",
    ),
    (
        Station::Msf,
        "2024-07-15T12:00Z",
        false,
        "encode msf 2024-07-15T12:00Z 60\nM????????????????0020020000222020202002020022000000202332330\n",
    ),
    (
        Station::Dcf77,
        "2016-12-31T23:59Z",
        true,
        "encode dcf77 2016-12-31T23:59Z 61\n0???????????????00111000000001000001100000111100001110100010-\n",
    ),
    (
        Station::Msf,
        "2016-12-31T23:59Z",
        true,
        "encode msf 2016-12-31T23:59Z 61\nM????????????????00002022200002000002000000000000000002333320\n",
    ),
];

// Writes the listing of a minute, where the station can encode it.
fn list<F: Files>(
    files: &mut F,
    civil: &Civil,
    station: Station,
    minute: &str,
    leap: bool,
) -> Option<Result<(), Failed>> {
    let t = parse_minute(minute)?;
    telegram(civil, station, t, leap)?;
    Some(write_listing(files, civil, station, t, leap))
}

// What becomes of a listing that is written by one call, and whether it is this text.
fn listed(
    alloc: Global,
    civil: &Civil,
    station: Station,
    minute: &str,
    leap: bool,
    text: &str,
) -> Result<(Option<Result<(), Failed>>, bool), Fail> {
    let mut files = one_call(alloc)?;
    let written = list(&mut files, civil, station, minute, leap);
    Ok((written, printed(&files, text)))
}

fn lists_minutes(rt: &(impl Abort + AllocGlobal), civil: &Civil) -> Result<(), Fail> {
    for (station, minute, leap, text) in &LISTINGS {
        let found = listed(rt.alloc(), civil, *station, minute, *leap, text)?;
        check_row(rt, found == (Some(Ok(())), true), minute);
    }
    Ok(())
}

#[test]
fn lists_minutes_by_one_append(rt: HostRuntime) -> Result<(), Fail> {
    let civil = Civil::make(rt.alloc())?;
    lists_minutes(&rt, &civil)
}

//! The values of DUT1, and the symbols that tell them (NPL on MSF, NIST SP 432 on WWVB).

ghost use Rattle.std.specs.Prelude.{◌≡◌, ◌<◌, ◌≤◌};
ghost use Rattle.definitions.specs.heard.Dut1.{dut1_symbol, has_dut1, is_dut1_second, msf_dut1, wwvb_dut1, wwvb_sign};
ghost use Rattle.plain_costs.specs.Tenths.{tenths_at, value_count};

use signal_base::Station;

/// The most values of DUT1 that a station sends.
pub const MOST_VALUES: usize = 19;

/// A number for each value of DUT1, from the least on. A station that sends fewer values has the first of them.
pub type ByValue = [u32; MOST_VALUES];

/// Whether the station sends DUT1.
pub fn has_dut1(station: Station) -> bool
    ensures { result ≡ has_dut1 station }
{
    match station {
        Station::Msf | Station::Wwvb => true,
        Station::Dcf77 | Station::Jjy => false,
    }
}

/// Whether the second is one of those by which the station tells DUT1.
pub fn is_dut1_second(station: Station, second: u8) -> bool
    ensures { result ≡ is_dut1_second station second }
{
    match station {
        Station::Msf => matches!(second, 1..=16),
        Station::Wwvb => matches!(second, 36..=38 | 40..=43),
        Station::Dcf77 | Station::Jjy => false,
    }
}

/// How many values the station sends: those from -0.8 to 0.8 s at MSF, and from -0.9 to 0.9 s at WWVB.
pub fn value_count(station: Station) -> usize
    ensures count { result ≡ value_count station }
    ensures bound { result ≤ MOST_VALUES }
{
    match station {
        Station::Msf => 17,
        Station::Wwvb => 19,
        Station::Dcf77 | Station::Jjy => 0,
    }
}

/// The tenths of a second of value `i`.
pub fn tenths_at(station: Station, i: usize) -> i8
    requires { i < MOST_VALUES }
    ensures { result ≡ tenths_at station i }
{
    match station {
        Station::Msf => i as i8 - 8,
        Station::Dcf77 | Station::Wwvb | Station::Jjy => i as i8 - 9,
    }
}

/// The symbol, 0 or 1, by which the station tells value `i` in a second of DUT1.
pub fn symbol_of(station: Station, i: usize, second: u8) -> u8
    requires value { i < MOST_VALUES }
    requires second { second ≤ 60 }
    ensures symbol { result ≡ dut1_symbol station (tenths_at station i) second }
    ensures bit { result < 2 }
{
    let tenths = tenths_at(station, i);
    match station {
        Station::Msf => msf_symbol(tenths, second),
        Station::Wwvb => wwvb_symbol(tenths, second),
        Station::Dcf77 | Station::Jjy => 0,
    }
}

// MSF tells tenths by as many ones on end, from second 1 on where they are positive, and from second 9 on where they are
// negative.
fn msf_symbol(tenths: i8, second: u8) -> u8
    requires { second ≤ 60 }
    ensures symbol { result ≡ msf_dut1 tenths second }
    ensures bit { result < 2 }
{
    let first = if tenths < 0 { 9 } else { 1 };
    if first <= second && second < first + tenths.unsigned_abs() {
        1
    } else {
        0
    }
}

// WWVB tells their sign in the seconds 36 to 38, and their number in binary in the seconds 40 to 43.
fn wwvb_symbol(tenths: i8, second: u8) -> u8
    requires { second ≤ 60 }
    ensures symbol { result ≡ wwvb_dut1 tenths second }
    ensures bit { result < 2 }
{
    let digit = tenths.unsigned_abs() % 10;
    match second {
        36..=38 => sign_symbol(tenths, second),
        40 => digit / 8 % 2,
        41 => digit / 4 % 2,
        42 => digit / 2 % 2,
        43 => digit % 2,
        _ => 0,
    }
}

// The sign: 1 0 1 from 0 on, and 0 1 0 below.
fn sign_symbol(tenths: i8, second: u8) -> u8
    ensures symbol { result ≡ wwvb_sign tenths second }
    ensures bit { result < 2 }
{
    if (tenths < 0) == (second == 37) { 1 } else { 0 }
}

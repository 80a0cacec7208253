//! The symbol that a second of a clean log carries.

ghost use Rattle.std.specs.Prelude.{◌≡◌, ◌<◌, ◌≤◌};
ghost use Rattle.signal_base.specs.Waveform.{symbol_count, waveform};
ghost use Rattle.definitions.specs.time.Calendar.{century_minutes, minute_length};
ghost use Rattle.definitions.specs.codes.Allowed.{IsSetOf, allowed, encoded_year};
ghost use Rattle.trial_log.specs.Clean.{clean_symbol, least_symbol, tells_sign};

use civil::Civil;
use definitions::each_second_is_sent;
use sequence::set_in;
use signal_base::{Station, wave};

/// The tenths of a second that are low, the second given as minute and second.
pub fn clean_wave(civil: &Civil, station: Station, announced: bool, place: (u32, u8)) -> [bool; 10]
    requires century { place.0 < century_minutes }
    requires encoded { encoded_year station place.0 ≤ 2099 }
    requires second { place.1 < minute_length announced place.0 }
    ensures { result ≡ waveform station (clean_symbol station place.1 (allowed station announced place)) }
{
    each_second_is_sent();
    let set = set_in(civil, station, announced, place);
    wave(station, clean_symbol(station, place.1, set))
}

// The symbol of a second that may carry this set.
fn clean_symbol(station: Station, second: u8, set: u8) -> u8
    requires { IsSetOf station set }
    ensures symbol { result ≡ clean_symbol station second set }
    ensures known { result < symbol_count station }
{
    if tells_sign(station, second) {
        1
    } else {
        least_symbol(station, set)
    }
}

// Whether the second tells the sign of DUT1 by a 1.
fn tells_sign(station: Station, second: u8) -> bool
    ensures { result ≡ tells_sign station second }
{
    match station {
        Station::Wwvb => second == 36 || second == 38,
        Station::Dcf77 | Station::Msf | Station::Jjy => false,
    }
}

// The least symbol of a set.
fn least_symbol(station: Station, set: u8) -> u8
    requires { IsSetOf station set }
    ensures symbol { result ≡ least_symbol set }
    ensures known { result < symbol_count station }
{
    set.trailing_zeros() as u8
}

//! The waveform of each symbol: which tenths of its second have the carrier low.

ghost use Rattle.std.specs.Prelude.{◌≡◌, ◌<◌};
ghost use Rattle.signal_base.specs.Waveform.{symbol_count, waveform};

use crate::Station;

/// The set of symbols that stands for a second that isn't scored.
pub const UNSCORED: u8 = 255;

/// How many symbols a station has. They are numbered from 0.
pub fn symbols(station: Station) -> u8
    ensures { result ≡ symbol_count station }
{
    match station {
        Station::Msf => 5,
        Station::Dcf77 | Station::Wwvb | Station::Jjy => 3,
    }
}

/// The tenths of a second in which the carrier of this symbol is low (PTB on DCF77, NPL on MSF, NIST SP 432 on
/// WWVB's amplitude code, NICT on JJY).
pub fn wave(station: Station, symbol: u8) -> [bool; 10]
    requires { symbol < symbol_count station }
    ensures { result ≡ waveform station symbol }
{
    const L: bool = true;
    const H: bool = false;
    match (station, symbol) {
        (Station::Dcf77, 0) => [L, H, H, H, H, H, H, H, H, H],
        (Station::Dcf77, 1) => [L, L, H, H, H, H, H, H, H, H],
        (Station::Dcf77, _) => [H, H, H, H, H, H, H, H, H, H],
        (Station::Msf, 0) => [L, H, H, H, H, H, H, H, H, H],
        (Station::Msf, 1) => [L, H, L, H, H, H, H, H, H, H],
        (Station::Msf, 2) => [L, L, H, H, H, H, H, H, H, H],
        (Station::Msf, 3) => [L, L, L, H, H, H, H, H, H, H],
        (Station::Msf, _) => [L, L, L, L, L, H, H, H, H, H],
        (Station::Wwvb, 0) => [L, L, H, H, H, H, H, H, H, H],
        (Station::Wwvb, 1) => [L, L, L, L, L, H, H, H, H, H],
        (Station::Wwvb, _) => [L, L, L, L, L, L, L, L, H, H],
        (Station::Jjy, 0) => [H, H, H, H, H, H, H, H, L, L],
        (Station::Jjy, 1) => [H, H, H, H, H, L, L, L, L, L],
        (Station::Jjy, _) => [H, H, L, L, L, L, L, L, L, L],
    }
}

//! The seconds that JJY gives up for its call sign (NICT).

ghost use Rattle.std.specs.Prelude.{◌≡◌, ℕ, false};
ghost use Rattle.minute_parts.specs.Overlay.{is_call_minute, is_given_up};

use definitions::MINUTES_PER_HOUR;
use signal_base::Station;

/// The first minute of an hour in which the call sign is sent.
pub const CALL_MINUTE: u16 = 15;

/// Every so many minutes it is sent again.
pub const CALL_MINUTES: usize = 30;

/// The first second that the call sign takes, and the one after its last.
pub const CALL_BEGIN: usize = 40;

pub const CALL_END: usize = 56;

/// The second between them that it leaves to its marker.
pub const CALL_MARKER: usize = 49;

/// Whether the call sign is sent in the minutes that encode the minute `u` of the local day.
pub fn is_call_minute(u: u16) -> bool
    ensures { result ≡ is_call_minute u }
{
    let minute = u % MINUTES_PER_HOUR as u16;
    minute == CALL_MINUTE || minute == CALL_MINUTE + CALL_MINUTES as u16
}

/// Whether the call sign takes the second, in the minutes in which it is sent.
pub fn is_given_up(station: Station, second: usize) -> bool
    ensures { result ≡ is_given_up station second }
{
    match station {
        Station::Jjy => {
            CALL_BEGIN <= second && second < CALL_MARKER
                || CALL_MARKER < second && second < CALL_END
        }
        Station::Dcf77 | Station::Msf | Station::Wwvb => false,
    }
}

/// Whether the station gives up seconds for a call sign.
pub fn gives_up(station: Station) -> bool
    ensures { result ≡ false → (s : ℕ) → is_given_up station s ≡ false }
{
    match station {
        Station::Jjy => true,
        Station::Dcf77 | Station::Msf | Station::Wwvb => false,
    }
}

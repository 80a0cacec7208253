//! Windows of 60 seconds, and a minute of the century.

ghost use Rattle.std.specs.Prelude.{◌≡◌};
ghost use Rattle.definitions.specs.examples.Sequences.{window_of};

use signal_base::{Stations, Window};

/// The first minute of 2001, counted from 2000-01-01T00:00Z.
pub const YEAR_2001: u32 = 527_040;

/// Sixty seconds of these stations from millisecond 0 on. The first of them is in a minute from `from` on, before `to`.
pub fn window(stations: Stations, from: u32, to: u32) -> Window
    ensures { result ≡ window_of stations.mask from to }
{
    Window {
        stations,
        start: 0,
        phase: 0,
        seconds: 60,
        from,
        to,
    }
}

/// The same of DCF77 alone.
pub fn dcf77(from: u32, to: u32) -> Window
    ensures { result ≡ window_of 1 from to }
{
    window(Stations { mask: 1 }, from, to)
}

/// The same of JJY alone.
pub fn jjy(from: u32, to: u32) -> Window
    ensures { result ≡ window_of 8 from to }
{
    window(Stations { mask: 8 }, from, to)
}

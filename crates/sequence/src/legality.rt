//! Which sequences may explain a window: those that are walkable in it, and of these the legal ones.

ghost use Rattle.std.specs.Prelude.{ℕ, ◌≡◌, ◌<◌, ◌≤◌, ◌↔◌, IsTrue, true};
ghost use Rattle.definitions.specs.codes.Allowed.{CanBeEncoded};
ghost use Rattle.definitions.specs.sequences.Walks.{IsLegal, IsSequence, IsWalkable, ShowsLeap, place_at, unannounced};
ghost use Rattle.sequence.specs.Sets.{SetsDiffer, StationDiffers};

use crate::encoded::can_be_encoded;
use crate::{minute_length, next_place, set_in};
use civil::Civil;
use definitions::Sequence;
use signal_base::{Station, Stations, Window};

// The inserted second of a minute of 61 seconds.
const LEAP_SECOND: u8 = 60;

/// Whether the sequence begins in the window's range and each minute of its walk can be encoded by the window's
/// stations.
pub fn walkable(civil: &Civil, window: &Window, q: &Sequence) -> bool
    requires { IsSequence q.now }
    ensures { IsTrue result ↔ IsWalkable window.now q.now }
{
    window.from <= q.first
        && q.first < window.to
        && q.second < minute_length(civil, q.first, q.announced)
        && walks_through_encoded(civil, window, q)
}

// Whether each minute of the walk can be encoded.
fn walks_through_encoded(civil: &Civil, window: &Window, q: &Sequence) -> bool
    requires { IsSequence q.now }
    ensures { IsTrue result ↔ ((k : ℕ) → k < window.now.seconds → CanBeEncoded window.now.stations (place_at q.now k).0) }
{
    let mut place = (q.first, q.second);
    for _ in 0..window.seconds {
        if !can_be_encoded(civil, window.stations, place.0) {
            return false;
        }
        place = next_place(civil, q.announced, place);
    }
    true
}

/// Whether the sequence is walkable and, if it announces a leap second, the window tells of it: the sequence begins with
/// that second, or it wouldn't be walkable without the announcement, or some station's sets would be others.
pub fn legal(civil: &Civil, window: &Window, q: &Sequence) -> bool
    requires { IsSequence q.now }
    ensures { IsTrue result ↔ IsLegal window.now q.now }
{
    if !walkable(civil, window, q) {
        return false;
    }
    if !q.announced {
        return true;
    }
    if q.second == LEAP_SECOND {
        return true;
    }
    if !walkable(civil, window, &unannounced(q)) {
        return true;
    }
    shows_leap(civil, window, q)
}

// The same beginning without a leap second.
fn unannounced(q: &Sequence) -> Sequence
    ensures { result ≡ unannounced q.now }
{
    Sequence {
        first: q.first,
        second: q.second,
        announced: false,
    }
}

// Whether in some slot a station may carry another set than without the announcement.
fn shows_leap(civil: &Civil, window: &Window, q: &Sequence) -> bool
    requires sequence { IsSequence q.now }
    requires walkable { IsWalkable window.now q.now }
    requires twin { IsWalkable window.now (unannounced q.now) }
    ensures { IsTrue result ↔ ShowsLeap window.now q.now }
{
    let mut place = (q.first, q.second);
    let mut twin = (q.first, q.second);
    for _ in 0..window.seconds {
        if sets_differ(civil, window.stations, q.announced, place, twin) {
            return true;
        }
        place = next_place(civil, q.announced, place);
        twin = next_place(civil, false, twin);
    }
    false
}

// Whether some station may carry another set in `place` than, without the announcement, in `twin`.
fn sets_differ(
    civil: &Civil,
    stations: Stations,
    announced: bool,
    place: (u32, u8),
    twin: (u32, u8),
) -> bool
    requires place { CanBeEncoded stations place.0 }
    requires twin { CanBeEncoded stations twin.0 }
    ensures { IsTrue result ↔ SetsDiffer stations announced place twin }
{
    if station_differs(civil, stations, Station::Dcf77, announced, place, twin) {
        return true;
    }
    if station_differs(civil, stations, Station::Msf, announced, place, twin) {
        return true;
    }
    if station_differs(civil, stations, Station::Wwvb, announced, place, twin) {
        return true;
    }
    station_differs(civil, stations, Station::Jjy, announced, place, twin)
}

// The same of one station, and false where it isn't one of the stations.
fn station_differs(
    civil: &Civil,
    stations: Stations,
    station: Station,
    announced: bool,
    place: (u32, u8),
    twin: (u32, u8),
) -> bool
    requires place { CanBeEncoded stations place.0 }
    requires twin { CanBeEncoded stations twin.0 }
    ensures { IsTrue result ↔ StationDiffers stations announced place twin station }
{
    if !stations.has(station) {
        return false;
    }
    set_in(civil, station, announced, place) != set_in(civil, station, false, twin)
}

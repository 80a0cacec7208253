//! What the date tells of each second.

ghost use Rattle.std.specs.Prelude.{◌≡◌, ◌<◌, if◌then◌else◌, slice_index};
ghost use Rattle.minute_parts.specs.Dates.{AreInRange, date_part};
ghost use Rattle.minute_parts.specs.Overlay.{is_time_second};
ghost use Rattle.minute_parts.specs.declared.part.TheConstants.{SECONDS};

use crate::dates::DateFacts;
use crate::part::{Part, SECONDS, nothing};
use crate::seconds::sets_by;
use crate::times::is_time_second;
use signal_base::Station;

/// What the date tells, by its facts.
pub fn date_part(station: Station, date: &DateFacts) -> Part
    requires { AreInRange date.now }
    ensures { result ≡ date_part station date.now }
{
    let sets = sets_by(station, date, 0);
    let mut part = nothing();
    for s in 0..SECONDS {
        part[s] = date_set(station, &sets, s);
    }
    part
}

// What it tells of a second by these sets of the first minute of the day: nothing where the time of day always tells it.
fn date_set(station: Station, sets: &[u8; 61], second: usize) -> u8
    requires { second < SECONDS }
    ensures { result ≡ (if is_time_second station second then 0 else slice_index sets.now second) }
{
    if is_time_second(station, second as u8) {
        0
    } else {
        sets[second]
    }
}

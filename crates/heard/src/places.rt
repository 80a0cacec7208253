//! Where the receivers of a configuration stand in the order of their stations.

ghost use Rattle.std.specs.Prelude.{◌≡◌, ◌<◌, ◌≤◌, IfOk, length, map};
ghost use Rattle.heard.specs.Kept.{place_in, places_in};

use bank::places_of;
use bank_config::Receiver;
use signal_base::{MOST_RECEIVERS, Station};
use std::alloc::{AllocError, Global};

/// The place of each receiver.
pub fn places_in(alloc: Global, stations: &[Station]) -> Result<Vec<u8>, AllocError>
    requires { length stations.now ≤ MOST_RECEIVERS }
    ensures { IfOk result (λ places. places.items ≡ places_in stations.now) }
{
    let mut places = Vec::new(alloc);
    for i in 0..stations.len() {
        places.push(place_in(stations, i))?;
    }
    Ok(places)
}

// The place of receiver `i`: behind those of the stations before its own, and behind those of its own that stand before it.
fn place_in(stations: &[Station], i: usize) -> u8
    requires few { length stations.now ≤ MOST_RECEIVERS }
    requires within { i < length stations.now }
    ensures { result ≡ place_in stations.now i }
{
    let (first, _) = places_of(stations, stations[i]);
    let (from, behind) = places_of(&stations[..i], stations[i]);
    (first + (behind - from)) as u8
}

/// The station of each receiver.
pub fn stations_of(alloc: Global, receivers: &[Receiver]) -> Result<Vec<Station>, AllocError>
    ensures { IfOk result (λ stations. stations.items ≡ map (λ r. r.station) receivers.now) }
{
    receivers
        .iter()
        .map(|receiver| receiver.station)
        .collect(alloc)
}

//! What stations may send, whatever was heard. It takes much of the time that tables take, and serves for each window of the same
//! stations and length.

ghost use Rattle.std.specs.Prelude.{◌≡◌, ◌∷◌, ◌++◌, ◌≤◌, IfOk, OnOk, []};
ghost use Rattle.signal_base.specs.declared.limits.TheConstants.{MOST_SECONDS};
ghost use Rattle.definitions.specs.sequences.Windows.{IsWindow};
ghost use Rattle.field_tables.specs.Scopes.{scope_if, scopes_of};

use crate::tables::TablesFault;
use civil::Civil;
use leap_unions::LeapUnions;
use minute_parts::{Parts, Unions};
use signal_base::{Station, Window};
use std::alloc::{AllocError, Global};
use std::marker::Model;

/// What a station may send in windows of so many seconds. Contracts see the station and the seconds.
#[derive(Drop)]
pub struct StationParts {
    pub(crate) unions: Unions,
    pub(crate) leaps: LeapUnions,
}

impl Model for StationParts {
    ghost use Rattle.std.specs.Prelude.{◌≡◌};
    ghost use Rattle.leap_unions.specs.Scope.{Scope};

    ghost Value = { Scope };

    ghost view = { λ p. p.leaps };

    ghost invariant = { λ p. p.unions.station ≡ p.leaps.station };
}

impl StationParts {
    /// Makes them for a station and windows of `seconds` seconds, 1 to 1,200. `NoMemory` comes only for want of memory.
    pub fn make(
        alloc: Global,
        civil: &Civil,
        station: Station,
        seconds: u16,
    ) -> Result<StationParts, TablesFault>
        requires some { 1 ≤ seconds }
        requires few { seconds ≤ MOST_SECONDS }
        ensures station { IfOk result (λ parts. parts.station ≡ station) }
        ensures seconds { IfOk result (λ parts. parts.seconds ≡ seconds) }
    {
        let parts = Parts::make(alloc, civil, station)?;
        let unions = Unions::make(alloc, parts)?;
        let leaps = LeapUnions::make(alloc, civil, station, &unions, seconds)?;
        Ok(StationParts { unions, leaps })
    }
}

// No window has more stations.
const MOST_STATIONS: usize = 4;

/// The parts of each station of a window, in their order. They are those of each window of the same stations and length,
/// whenever it begins. `NoMemory` comes only for want of memory.
pub fn parts_of(
    alloc: Global,
    civil: &Civil,
    window: &Window,
) -> Result<Vec<StationParts>, TablesFault>
    requires { IsWindow window.now }
    ensures { IfOk result (λ parts. parts.items ≡ scopes_of window.now.stations window.now.seconds) }
{
    let mut parts = Vec::with_capacity(alloc, MOST_STATIONS)?;
    add_if_heard(&mut parts, alloc, civil, window, Station::Dcf77)?;
    add_if_heard(&mut parts, alloc, civil, window, Station::Msf)?;
    add_if_heard(&mut parts, alloc, civil, window, Station::Wwvb)?;
    add_if_heard(&mut parts, alloc, civil, window, Station::Jjy)?;
    Ok(parts)
}

// Adds those of a station, if it is one of the window's.
fn add_if_heard(
    parts: &mut Vec<StationParts>,
    alloc: Global,
    civil: &Civil,
    window: &Window,
    station: Station,
) -> Result<(), TablesFault>
    requires { IsWindow window.now }
    ensures { OnOk result (parts.new.items ≡ parts.old.items ++ scope_if window.now.stations window.now.seconds station) }
{
    if !window.stations.has(station) {
        return Ok(());
    }
    let one = StationParts::make(alloc, civil, station, window.seconds)?;
    add(parts, one)?;
    Ok(())
}

// One more station.
fn add(parts: &mut Vec<StationParts>, one: StationParts) -> Result<(), AllocError>
    ensures { OnOk result (parts.new.items ≡ parts.old.items ++ one ∷ []) }
{
    parts.push(one)?;
    Ok(())
}

//! The stations of a window.

ghost use Rattle.std.specs.Prelude.{◌≡◌, ◌∷◌, ◌++◌, ◌<◌, ◌≤◌, ℕ, IfOk, []};
ghost use Rattle.std.specs.List.{All};
ghost use Rattle.definitions.specs.sequences.Windows.{IsWindow};
ghost use Rattle.field_tables.specs.Grids.{AreGrids};
ghost use Rattle.field_tables.specs.Scopes.{scopes_of};
ghost use Rattle.field_tables.specs.Sums.{AreOf};

use crate::parts::StationParts;
use crate::station::StationSums;
use definitions::CENTURY_MINUTES;
use signal_base::Window;
use std::alloc::{AllocError, Global};
use symbol_cost::CostGrid;

/// The stations of a window's grids, in their order.
pub fn stations_of<'a>(
    alloc: Global,
    parts: &'a [StationParts],
    grids: &[CostGrid],
    _window: &Window,
    keep_days: bool,
) -> Result<Vec<StationSums<'a>>, AllocError>
    requires window { IsWindow _window.now }
    requires parts { parts.now ≡ scopes_of _window.now.stations _window.now.seconds }
    requires grids { AreGrids _window.now grids.now }
    ensures { IfOk result (λ stations. AreOf grids.now stations.items) }
{
    let mut stations = Vec::with_capacity(alloc, grids.len())?;
    for grid in grids {
        let part = &parts[stations.len()];
        let station = StationSums::make(alloc, part, grid, keep_days)?;
        add(&mut stations, station)?;
    }
    Ok(stations)
}

// One more station.
fn add<'a>(stations: &mut Vec<StationSums<'a>>, station: StationSums<'a>) -> Result<(), AllocError>
    ensures { IfOk result (λ _. stations.new.items ≡ stations.old.items ++ station.entry ∷ []) }
{
    stations.push(station)?;
    Ok(())
}

/// The first minute that not all of these stations can encode.
pub fn end_of(stations: &[StationSums]) -> u32
    ensures end { (t : ℕ) → t < result → All (λ w. t < w.parts.end) stations.now }
    ensures before { (t : ℕ) → t < CENTURY_MINUTES → All (λ w. t < w.parts.end) stations.now → t < result }
    ensures bound { result ≤ CENTURY_MINUTES }
{
    let mut end = CENTURY_MINUTES;
    for station in stations {
        end = end.min(station.walks().parts().end());
    }
    end
}

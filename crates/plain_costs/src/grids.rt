//! The grids of a window's stations.

ghost use Rattle.std.specs.Prelude.{◌≡◌, MatchOption, None, Some};
ghost use Rattle.plain_costs.specs.Grids.{grid_of};

use signal_base::Station;
use symbol_cost::CostGrid;

/// The grid of the station, if there is one.
pub fn grid_of<'a>(grids: &'a [CostGrid], station: Station) -> Option<&'a CostGrid>
    ensures { MatchOption result (grid_of grids.now station ≡ None) (λ grid. grid_of grids.now station ≡ Some grid.now) }
{
    for grid in grids {
        if grid.station().number() == station.number() {
            return Some(grid);
        }
    }
    None
}

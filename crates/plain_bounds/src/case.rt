//! A window with all that its blocks are bounded by.

ghost use Rattle.std.specs.Prelude.{◌≡◌};
ghost use Rattle.definitions.specs.sequences.Windows.{IsWindow};
ghost use Rattle.field_tables.specs.Grids.{AreGrids};

use civil::Civil;
use field_tables::Tables;
use signal_base::Window;
use symbol_cost::CostGrid;

/// A window, the grids of its stations, and the tables that are made of both.
#[derive(Drop)]
pub struct Case<'a> {
    pub civil: &'a Civil,
    pub grids: &'a [CostGrid],
    pub tables: &'a Tables<'a>,
    pub window: Window,
    pub ghost window_is_in_range: { IsWindow window },
    pub ghost grids_are_of_the_window: { AreGrids window grids.now },
    pub ghost tables_are_of_the_window: { tables.now.window ≡ window },
}

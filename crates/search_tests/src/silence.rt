//! Ten million costs where nothing was heard, which the gate is to see done in time.

ghost use Rattle.std.specs.Prelude.{◌<◌};
ghost use Rattle.definitions.specs.time.Calendar.{century_minutes};

use crate::checks::{Check, check_window};
use definitions::{CENTURY_MINUTES, Sequence};
use field_tables::Tables;
use sample_grids::grid;
use signal_base::{CostTable, MOST_SECONDS, Station, Stations, Window};
use std::test::Fail;

// The first minutes of the sequences are below this. `make quick` looks at fewer.
const MINUTES: u32 = 10_000_000;

// Whether the sequence from second 0 of this minute on is legal and costs nothing.
fn costs_nothing(tables: &Tables, first: u32) -> bool
    requires { first < century_minutes }
{
    let q = Sequence {
        first,
        second: 0,
        announced: false,
    };
    tables.legal(&q) && tables.cost(&q) == 0
}

// How many sequences of the tables' window cost something or aren't legal.
pub(crate) fn costly_sequences(tables: &Tables) -> u32 {
    let mut costly = 0u32;
    for first in 0..MINUTES {
        if !costs_nothing(tables, first) {
            costly = costly.saturating_add(1);
        }
    }
    costly
}

// By a log of DCF77 without records, of 1,200 seconds.
#[test]
fn an_empty_log_costs_nothing(rt: HostRuntime) -> Result<(), Fail> {
    let window = Window {
        stations: Stations::one(Station::Dcf77),
        start: 0,
        phase: 0,
        seconds: MOST_SECONDS,
        from: 0,
        to: CENTURY_MINUTES,
    };
    let table = CostTable::default();
    let grids = [grid(rt.alloc(), Station::Dcf77, &table, b"", MOST_SECONDS)?];
    check_window(&rt, rt.alloc(), &window, &grids, Check::Silence)
}

//! A measurement of the search of a window.

ghost use Rattle.std.specs.Prelude.{◌≡◌, IfOk};
ghost use Rattle.bank.specs.Hearing.{IsBank};
ghost use Rattle.definitions.specs.sequences.Windows.{IsWindow};
ghost use Rattle.field_tables.specs.Grids.{AreGrids};
ghost use Rattle.field_tables.specs.Scopes.{scopes_of};
ghost use Rattle.formats.specs.OrderRanges.{IsAsked};

use crate::fault::Fault;
use crate::load::load;
use crate::order::search_order;
use crate::pricing::measure_bounds;
use crate::searching::measure_search;
use crate::times::{nanoseconds, tell};
use bank::{Bank, grids_of, window_of};
use civil::Civil;
use definitions::CENTURY_MINUTES;
use field_tables::{StationParts, Tables, parts_of};
use formats::Asked;
use plain_bounds::Case;
use signal_base::{LEAST_SECONDS, MOST_SECONDS, Window};
use std::rt::{Clock, Files};
use std::thread::Threads;
use std::time::Instant;
use symbol_cost::CostGrid;

/// Searches the window that the words ask for, as `180 0 52596000 jjy=a.log`: so many seconds, the first minute of the range
/// and its end, and the receivers. Prints what was measured, a name and a number a line.
pub fn measure<R: Threads + Sync + Clock + Files + Print + AllocGlobal>(
    rt: &R,
    words: &[String],
) -> Result<(), Fault> {
    let [seconds, from, to, receivers @ ..] = words else {
        return Err(Fault::Words);
    };
    let asked = asked_of(seconds.as_str(), from.as_str(), to.as_str())?;
    let bank = load(rt, receivers)?;
    measure_bank(rt, &bank, &asked)
}

// The same of a bank.
fn measure_bank<R: Threads + Sync + Clock + Files + Print + AllocGlobal>(
    rt: &R,
    bank: &Bank,
    asked: &Asked,
) -> Result<(), Fault>
    requires bank { IsBank bank.now }
    requires asked { IsAsked asked.now }
{
    let civil = Civil::make(rt.alloc())?;
    let window = window_of(bank, asked);
    let grids = grids_of(rt.alloc(), bank, &window)?;
    let parts = parts_in_time(rt, &civil, &window)?;
    measure_parts(rt, &civil, &grids, &parts, window)
}

// What doesn't depend on the logs, and how long it takes.
fn parts_in_time<R: Clock + Print + AllocGlobal>(
    rt: &R,
    civil: &Civil,
    window: &Window,
) -> Result<Vec<StationParts>, Fault>
    requires { IsWindow window.now }
    ensures { IfOk result (λ parts. parts.items ≡ scopes_of window.now.stations window.now.seconds) }
{
    let begin = Instant::now(rt)?;
    let parts = parts_of(rt.alloc(), civil, window)?;
    tell(rt, "parts_ns", nanoseconds(rt, begin)?)?;
    Ok(parts)
}

// Measures the tables of a window, and what is made by them.
fn measure_parts<R: Threads + Sync + Clock + Files + Print + AllocGlobal>(
    rt: &R,
    civil: &Civil,
    grids: &[CostGrid],
    parts: &[StationParts],
    window: Window,
) -> Result<(), Fault>
    requires window { IsWindow window }
    requires grids { AreGrids window grids.now }
    requires parts { parts.now ≡ scopes_of window.stations window.seconds }
{
    let begin = Instant::now(rt)?;
    let tables = Tables::make_with_days(rt.alloc(), parts, grids, civil, &window)?;
    tell(rt, "tables_ns", nanoseconds(rt, begin)?)?;
    measure_by(rt, civil, grids, &tables, window)
}

// Measures the order of a window's items, its bounds and its search, by its tables.
fn measure_by<R: Threads + Sync + Clock + Files + Print + AllocGlobal>(
    rt: &R,
    civil: &Civil,
    grids: &[CostGrid],
    tables: &Tables,
    window: Window,
) -> Result<(), Fault>
    requires window { IsWindow window }
    requires grids { AreGrids window grids.now }
    requires tables { tables.now.window ≡ window }
{
    let begin = Instant::now(rt)?;
    let order = search_order(rt.alloc(), civil, tables, &window)?;
    tell(rt, "order_ns", nanoseconds(rt, begin)?)?;
    let case = Case {
        civil,
        grids,
        tables,
        window,
    };
    measure_bounds(rt, &case, &order)?;
    measure_search(rt, tables, &order)
}

// Which window the words ask for.
fn asked_of(seconds: &str, from: &str, to: &str) -> Result<Asked, Fault>
    ensures { IfOk result IsAsked }
{
    let seconds = seconds.parse::<u16>().map_err(|_| Fault::Words)?;
    let from = from.parse::<u32>().map_err(|_| Fault::Words)?;
    let to = to.parse::<u32>().map_err(|_| Fault::Words)?;
    if seconds < LEAST_SECONDS || seconds > MOST_SECONDS {
        return Err(Fault::Words);
    }
    if from >= to || to > CENTURY_MINUTES {
        return Err(Fault::Words);
    }
    Ok(Asked {
        start: Some(0),
        seconds,
        from,
        to,
    })
}

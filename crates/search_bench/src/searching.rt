//! How long a search takes, with one worker and with four.

ghost use Rattle.std.specs.Prelude.{◌≤◌};
ghost use Rattle.workers.specs.Searches.{AreItemsOf};

use crate::counts::Counts;
use crate::fault::Fault;
use crate::times::{nanoseconds, tell};
use definitions::Block;
use field_tables::Tables;
use race_words::Race;
use signal_base::GREATEST_COST;
use std::rt::Clock;
use std::thread::Threads;
use std::time::Instant;
use workers::{Found, NoGate, finish, search, search_with};

// How many workers are compared with one.
const MANY: u8 = 4;

/// Counts what a search of the items with one worker comes to that asks for no floors of days, and times searches that do. All
/// find the same keys, else it is refused.
pub fn measure_search<R: Threads + Sync + Clock + Print + AllocGlobal>(
    rt: &R,
    tables: &Tables,
    items: &[Block],
) -> Result<(), Fault>
    requires { AreItemsOf tables.now.window items.now }
{
    let mut counts = Counts::none();
    let counted = count_with(rt, tables, items, &mut counts)?;
    tell(rt, "years", counts.years)?;
    tell(rt, "days", counts.days)?;
    tell(rt, "hours", counts.hours)?;
    tell(rt, "minutes", counts.minutes)?;
    let begin = Instant::now(rt)?;
    let one = search_by(rt, tables, items, 1)?;
    tell(rt, "one_worker_ns", nanoseconds(rt, begin)?)?;
    let begin = Instant::now(rt)?;
    let many = search_by(rt, tables, items, MANY)?;
    tell(rt, "four_workers_ns", nanoseconds(rt, begin)?)?;
    if one != counted || many != counted {
        return Err(Fault::Searches);
    }
    Ok(())
}

// Searches with one worker, and counts the blocks that it comes to.
fn count_with<R: Threads + Sync + AllocGlobal>(
    rt: &R,
    tables: &Tables,
    items: &[Block],
    counts: &mut Counts,
) -> Result<Found, Fault>
    requires items { AreItemsOf tables.now.window items.now }
{
    let (race, mut seat) = Race::make(rt.alloc(), 1)?;
    match search_with(
        rt,
        &race,
        &mut seat,
        tables,
        items,
        GREATEST_COST,
        1,
        &NoGate,
        counts,
    ) {
        Ok(()) => {}
    }
    Ok(finish(race, seat, tables, items, GREATEST_COST))
}

// Searches with so many workers.
fn search_by<R: Threads + Sync + AllocGlobal>(
    rt: &R,
    tables: &Tables,
    items: &[Block],
    workers: u8,
) -> Result<Found, Fault>
    requires items { AreItemsOf tables.now.window items.now }
    requires workers { (1 ≤ workers) × (workers ≤ 8) }
{
    let (race, mut seat) = Race::make(rt.alloc(), workers)?;
    search(
        rt,
        &race,
        &mut seat,
        tables,
        items,
        GREATEST_COST,
        workers,
        &NoGate,
    );
    Ok(finish(race, seat, tables, items, GREATEST_COST))
}

//! Unions that are kept, since some ask for them often: of whole days and years in UTC, where no leap second is announced.

ghost use Rattle.std.specs.Prelude.{◌≡◌, ◌<◌, ◌≤◌, [], IfOk, OnOk, length, true};
ghost use Rattle.block_costs.specs.Keeping.{AreGathered, AreKept, range_at};

use definitions::{CENTURY_DAYS, MINUTES_PER_DAY};
use slot_columns::{LayerTable, Part};
use std::alloc::{AllocError, Global};
use walk_costs::StationWalks;

/// The minutes from `lo` up to, and without, `hi`.
#[derive(Clone, Copy)]
pub struct Range {
    pub lo: u32,
    pub hi: u32,
}

/// Ranges of minutes in which walks may begin, and what their unions cost, in the same order.
#[derive(Drop)]
pub struct Kept {
    pub ranges: Vec<Range>,
    pub costs: LayerTable,
}

/// Such ranges and their layers: the union of the walks' first minutes, and that of each later one.
#[derive(Drop)]
pub struct Gathered {
    pub ranges: Vec<Range>,
    pub firsts: Vec<Part>,
    pub rests: Vec<Part>,
}

/// The walks that begin in it reach furthest.
pub const LAST_SECOND: u8 = 59;

/// The years of the century.
pub const CENTURY_YEARS: u32 = 100;

/// The fewest days of a year.
pub const YEAR_DAYS: u32 = 365;

/// The first days of the century, so many.
pub fn kept_days(alloc: Global, walks: &StationWalks, days: u32) -> Result<Kept, AllocError>
    requires { days ≤ CENTURY_DAYS }
    ensures { IfOk result (λ kept. AreKept walks.now kept.ranges.items kept.costs) }
{
    let mut gathered = room_for(alloc, days as usize)?;
    for day in 0..days {
        let lo = day * MINUTES_PER_DAY;
        gather(&mut gathered, walks, lo, lo + MINUTES_PER_DAY)?;
    }
    costs_of(alloc, walks, gathered)
}

/// Its years.
pub fn kept_years(alloc: Global, walks: &StationWalks) -> Result<Kept, AllocError>
    ensures { IfOk result (λ kept. AreKept walks.now kept.ranges.items kept.costs) }
{
    let mut gathered = room_for(alloc, CENTURY_YEARS as usize)?;
    for year in 0..CENTURY_YEARS {
        let lo = year_begin(year);
        gather(&mut gathered, walks, lo, year_begin(year + 1))?;
    }
    costs_of(alloc, walks, gathered)
}

// The first minute of a year, counted from 2000 on, of which each fourth has a day more.
fn year_begin(year: u32) -> u32
    requires { year ≤ CENTURY_YEARS }
{
    (year * YEAR_DAYS + (year + 3) / 4) * MINUTES_PER_DAY
}

// Room for the layers of so many ranges.
fn room_for(alloc: Global, count: usize) -> Result<Gathered, AllocError>
    ensures { IfOk result (λ g. (g.ranges.items ≡ []) × (g.firsts.items ≡ []) × (g.rests.items ≡ [])) }
{
    let ranges = Vec::with_capacity(alloc, count)?;
    let firsts = Vec::with_capacity(alloc, count)?;
    let rests = Vec::with_capacity(alloc, count)?;
    Ok(Gathered {
        ranges,
        firsts,
        rests,
    })
}

// Takes the layers of a range if it has some, and is encoded as far as walks reach from it.
fn gather(gathered: &mut Gathered, walks: &StationWalks, lo: u32, hi: u32) -> Result<(), AllocError>
    requires { AreGathered walks.now gathered.old.ranges.items gathered.old.firsts.items gathered.old.rests.items }
    ensures { OnOk result (AreGathered walks.now gathered.new.ranges.items gathered.new.firsts.items gathered.new.rests.items) }
{
    let reach = walks.later_minutes(LAST_SECOND);
    let unions = walks.unions();
    let end = unions.parts().end();
    if lo >= hi || end < hi || end - hi < reach {
        return Ok(());
    }
    let Some(layers) = unions.layers(false, lo, hi, reach) else {
        return Ok(());
    };
    gathered.ranges.push(Range { lo, hi })?;
    gathered.firsts.push(layers.first)?;
    gathered.rests.push(layers.rest)?;
    Ok(())
}

// What the layers cost.
fn costs_of(alloc: Global, walks: &StationWalks, gathered: Gathered) -> Result<Kept, AllocError>
    requires { AreGathered walks.now gathered.ranges.items gathered.firsts.items gathered.rests.items }
    ensures { IfOk result (λ kept. AreKept walks.now kept.ranges.items kept.costs) }
{
    let Gathered {
        ranges,
        firsts,
        rests,
    } = gathered;
    let costs = LayerTable::make(alloc, walks.columns(), &firsts, &rests)?;
    Ok(Kept { ranges, costs })
}

/// Whether entry `i` is this range.
pub fn is_kept(kept: &Kept, i: usize, lo: u32, hi: u32) -> bool
    ensures found { result ≡ true → i < length kept.now.ranges.items }
    ensures begins { result ≡ true → (range_at kept.now.ranges.items i).lo ≡ lo }
    ensures ends { result ≡ true → (range_at kept.now.ranges.items i).hi ≡ hi }
{
    if i >= kept.ranges.len() {
        return false;
    }
    let range = &kept.ranges[i];
    range.lo == lo && range.hi == hi
}

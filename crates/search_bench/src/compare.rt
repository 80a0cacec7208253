//! The quick answers of a search compared with the plain ones, over windows and blocks by chance.

ghost use Rattle.std.specs.Prelude.{◌≡◌, ◌≤◌, length};
ghost use Rattle.definitions.specs.answers.Blocks.{IsBlock};
ghost use Rattle.definitions.specs.sequences.Walks.{IsSequence};
ghost use Rattle.definitions.specs.sequences.Windows.{IsWindow};
ghost use Rattle.field_tables.specs.Grids.{AreGrids};
ghost use Rattle.formats.specs.OrderRanges.{IsAsked};
ghost use Rattle.signal_base.specs.declared.limits.TheConstants.{MOST_RECEIVERS};

use crate::chance::Chance;
use crate::draw::{draw_block, draw_item, draw_sequence, draw_slot};
use crate::fault::Fault;
use crate::floor_tally::FloorTally;
use crate::floors::compare_floors;
use crate::noise::noisy_bank;
use crate::places::{PLACES, Place, minute_at};
use crate::slots::{plain_union, slots_of};
use crate::tally::Tally;
use crate::windows::{
    STATION_SETS, STATIONS_ALONE, asked_for_days, asked_near, name_of, stations, year_from,
};
use bank::{grids_of, window_of};
use bounds::{Bounded, bound, items};
use civil::Civil;
use definitions::{Block, MINUTES_PER_DAY, Sequence};
use field_tables::{Tables, parts_of};
use formats::Asked;
use plain_bounds::{Case, plain_bound};
use plain_costs::plain_cost;
use sequence::{legal, walkable};
use signal_base::{Station, Window};
use std::alloc::Global;
use symbol_cost::CostGrid;

// So many blocks are drawn for a window. Those are left out whose sequences have more slots together than are left of so
// many.
const DRAWS: u32 = 1000;

const MOST_SLOTS: u64 = 2_000_000;

// So many sequences are drawn for a window.
const SEQUENCES: u32 = 200;

// A whole year has so many minutes at least.
const SHORTEST_YEAR: u32 = 365 * MINUTES_PER_DAY;

// What is compared of a window.
#[derive(Clone, Copy)]
enum Extent {
    // Blocks and sequences by chance.
    Parts,
    // One block that is a whole year.
    Year,
    // Floors of days by chance.
    Floors,
}

/// Compares, and prints how much. Nothing that is printed hangs on how near floors come.
pub fn compare<R: Print + AllocGlobal>(rt: &R, seed: u64) -> Result<(), Fault> {
    let civil = Civil::make(rt.alloc())?;
    let mut chance = Chance::new(seed);
    compare_all(rt, &civil, &mut chance)
}

// The same by a calendar.
fn compare_all<R: Print + AllocGlobal>(
    rt: &R,
    civil: &Civil,
    chance: &mut Chance,
) -> Result<(), Fault> {
    let alloc = rt.alloc();
    for place in PLACES {
        let tally = parts_at(alloc, civil, chance, place)?;
        println!(rt; "{place}: {tally}")?;
    }
    let tally = whole_years(alloc, civil, chance)?;
    println!(rt; "whole years: {tally}")?;
    for place in PLACES {
        let floors = floors_at(alloc, civil, chance, place)?;
        println!(rt; "{place}: {floors}")?;
    }
    Ok(())
}

// Compares parts of windows of each set of stations at a place.
fn parts_at(
    alloc: Global,
    civil: &Civil,
    chance: &mut Chance,
    place: Place,
) -> Result<Tally, Fault> {
    let mut tally = Tally::new();
    for set in 0..STATION_SETS {
        compare_at(alloc, civil, chance, place, set, Extent::Parts, &mut tally)?;
    }
    Ok(tally)
}

// Compares a whole year of each station.
fn whole_years(alloc: Global, civil: &Civil, chance: &mut Chance) -> Result<Tally, Fault> {
    let mut tally = Tally::new();
    for set in 0..STATIONS_ALONE {
        let t = minute_at(civil, chance, Place::YearEnd);
        let asked = year_from(t);
        compare_window(
            alloc,
            civil,
            chance,
            stations(set),
            &asked,
            Extent::Year,
            &mut tally,
        )?;
    }
    Ok(tally)
}

// Compares floors of days of each set of stations at a place.
fn floors_at(
    alloc: Global,
    civil: &Civil,
    chance: &mut Chance,
    place: Place,
) -> Result<FloorTally, Fault> {
    let mut tally = Tally::new();
    for set in 0..STATION_SETS {
        compare_floors_at(alloc, civil, chance, place, set, &mut tally)?;
    }
    Ok(tally.floors)
}

/// Compares floors of days, and prints how near they come.
pub fn measure_floors<R: Print + AllocGlobal>(rt: &R, seed: u64) -> Result<(), Fault> {
    let civil = Civil::make(rt.alloc())?;
    let mut chance = Chance::new(seed);
    for set in 0..STATION_SETS {
        measure_floors_of(rt, &civil, &mut chance, set)?;
    }
    Ok(())
}

// The same of a set of stations.
fn measure_floors_of<R: Print + AllocGlobal>(
    rt: &R,
    civil: &Civil,
    chance: &mut Chance,
    set: u8,
) -> Result<(), Fault> {
    for place in PLACES {
        measure_floors_at(rt, civil, chance, place, set)?;
    }
    Ok(())
}

// The same of a set of stations at a place.
fn measure_floors_at<R: Print + AllocGlobal>(
    rt: &R,
    civil: &Civil,
    chance: &mut Chance,
    place: Place,
    set: u8,
) -> Result<(), Fault> {
    let mut tally = Tally::new();
    compare_floors_at(rt.alloc(), civil, chance, place, set, &mut tally)?;
    let stations = name_of(set);
    let nearness = tally.floors.nearness();
    println!(rt; "{stations}, {place}: {nearness}")?;
    Ok(())
}

// Compares floors of days in a window of any kind at a place, and in a short one over some days.
fn compare_floors_at(
    alloc: Global,
    civil: &Civil,
    chance: &mut Chance,
    place: Place,
    set: u8,
    tally: &mut Tally,
) -> Result<(), Fault> {
    compare_at(alloc, civil, chance, place, set, Extent::Floors, tally)?;
    let t = minute_at(civil, chance, place);
    let asked = asked_for_days(chance, t);
    compare_window(
        alloc,
        civil,
        chance,
        stations(set),
        &asked,
        Extent::Floors,
        tally,
    )
}

// Compares in a window at a place.
fn compare_at(
    alloc: Global,
    civil: &Civil,
    chance: &mut Chance,
    place: Place,
    set: u8,
    extent: Extent,
    tally: &mut Tally,
) -> Result<(), Fault> {
    let t = minute_at(civil, chance, place);
    let asked = asked_near(chance, place, t);
    compare_window(alloc, civil, chance, stations(set), &asked, extent, tally)
}

// Compares in a window in which receivers of these stations hear noise.
fn compare_window(
    alloc: Global,
    civil: &Civil,
    chance: &mut Chance,
    stations: &[Station],
    asked: &Asked,
    extent: Extent,
    tally: &mut Tally,
) -> Result<(), Fault>
    requires some { 1 ≤ length stations.now }
    requires few { length stations.now ≤ MOST_RECEIVERS }
    requires asked { IsAsked asked.now }
{
    let bank = noisy_bank(alloc, chance, stations, asked.seconds)?;
    let window = window_of(&bank, asked);
    let grids = grids_of(alloc, &bank, &window)?;
    tally.count_window();
    compare_heard(alloc, civil, &grids, window, chance, extent, tally)
}

// The same by the grids of a window's stations.
fn compare_heard(
    alloc: Global,
    civil: &Civil,
    grids: &[CostGrid],
    window: Window,
    chance: &mut Chance,
    extent: Extent,
    tally: &mut Tally,
) -> Result<(), Fault>
    requires window { IsWindow window }
    requires grids { AreGrids window grids.now }
{
    let parts = parts_of(alloc, civil, &window)?;
    let tables = Tables::make(alloc, &parts, grids, civil, &window)?;
    compare_by(alloc, civil, grids, &tables, window, chance, extent, tally)
}

// The same by the tables of the window.
fn compare_by(
    alloc: Global,
    civil: &Civil,
    grids: &[CostGrid],
    tables: &Tables,
    window: Window,
    chance: &mut Chance,
    extent: Extent,
    tally: &mut Tally,
) -> Result<(), Fault>
    requires window { IsWindow window }
    requires grids { AreGrids window grids.now }
    requires tables { tables.now.window ≡ window }
{
    let case = Case {
        civil,
        grids,
        tables,
        window,
    };
    match extent {
        Extent::Parts => compare_parts(alloc, &case, chance, tally),
        Extent::Year => compare_year(alloc, &case, chance, tally),
        Extent::Floors => compare_floors(alloc, &case, chance, &mut tally.floors),
    }
}

// Compares blocks and sequences by chance.
fn compare_parts(
    alloc: Global,
    case: &Case,
    chance: &mut Chance,
    tally: &mut Tally,
) -> Result<(), Fault> {
    compare_blocks(alloc, case, chance, tally)?;
    for _ in 0..SEQUENCES {
        let q = draw_sequence(&case.window, chance);
        compare_sequence(case, &q, tally)?;
    }
    Ok(())
}

// Compares the bounds of blocks.
fn compare_blocks(
    alloc: Global,
    case: &Case,
    chance: &mut Chance,
    tally: &mut Tally,
) -> Result<(), Fault> {
    let list = items(alloc, case.civil, &case.window)?;
    let mut slots_left = MOST_SLOTS;
    for _ in 0..DRAWS {
        let Some(found) = draw_block(case.tables, &list, chance) else {
            return Ok(());
        };
        let slots = slots_of(case, &found.block);
        if slots <= slots_left {
            slots_left -= slots;
            compare_block(case, &found, tally)?;
            compare_unions(case, &found.block, chance, tally)?;
        }
    }
    Ok(())
}

// Compares the bound of one whole year, for some first second.
fn compare_year(
    alloc: Global,
    case: &Case,
    chance: &mut Chance,
    tally: &mut Tally,
) -> Result<(), Fault> {
    let list = items(alloc, case.civil, &case.window)?;
    for _ in 0..DRAWS {
        let Some(found) = draw_item(case.tables, &list, chance) else {
            return Ok(());
        };
        if found.block.hi.saturating_sub(found.block.lo) >= SHORTEST_YEAR {
            return compare_block(case, &found, tally);
        }
    }
    Ok(())
}

// Compares the bounds of a block.
fn compare_block(case: &Case, found: &Bounded, tally: &mut Tally) -> Result<(), Fault>
    requires { IsBlock case.now.window found.now.block }
{
    let alone = bound(case.tables, &found.block);
    let plain = plain_bound(case, &found.block);
    tally.count_block(&found.block, plain);
    if alone != plain || found.bound != plain {
        return Err(Fault::Bounds {
            block: found.block,
            alone,
            in_row: found.bound,
            plain,
        });
    }
    Ok(())
}

// Compares the unions of a block in one slot, for each station.
fn compare_unions(
    case: &Case,
    block: &Block,
    chance: &mut Chance,
    tally: &mut Tally,
) -> Result<(), Fault>
    requires { IsBlock case.now.window block.now }
{
    let slot = draw_slot(&case.window, chance);
    for grid in case.grids {
        let station = grid.station();
        if !case.window.stations.has(station) {
            continue;
        }
        let quick = case.tables.union_at(station, block, slot);
        let plain = plain_union(case, station, block, slot);
        tally.count_union(plain);
        if quick != plain {
            return Err(Fault::Unions {
                block: *block,
                slot,
                quick,
                plain,
            });
        }
    }
    Ok(())
}

// Compares whether a sequence is legal, and what it costs.
fn compare_sequence(case: &Case, q: &Sequence, tally: &mut Tally) -> Result<(), Fault>
    requires { IsSequence q.now }
{
    let is_legal = legal(case.civil, &case.window, q);
    if case.tables.legal(q) != is_legal {
        return Err(Fault::Sequences(*q));
    }
    let is_walkable = walkable(case.civil, &case.window, q);
    tally.count_sequence(is_walkable, is_legal);
    if is_walkable {
        let plain = plain_cost(case.grids, case.civil, &case.window, q);
        if case.tables.cost(q) != plain {
            return Err(Fault::Sequences(*q));
        }
    }
    Ok(())
}

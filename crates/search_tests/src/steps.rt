//! What no clause says: that steps are kept with ample memory, and that a visit goes by what another seat offered.

ghost use Rattle.std.specs.Prelude.{◌≡◌};
ghost use Rattle.definitions.specs.answers.Blocks.{items};
ghost use Rattle.definitions.specs.examples.Sequences.{window_of};

use crate::checks::{Check, check_window};
use crate::items::item;
use civil::Civil;
use definitions::Block;
use field_tables::Tables;
use kept_steps::{StepList, decide_recorded, visit_recorded};
use race_words::{Race, Seat};
use sample_grids::{YEAR_2001, jjy, silent_grid};
use signal_base::{GREATEST_COST, Station, Window};
use std::alloc::Global;
use std::test::Fail;
use workers::NoGate;

// The last two minutes of 2000 and the first two of 2001.
fn new_year() -> Window
    ensures { result ≡ window_of 8 527038 527042 }
{
    jjy(YEAR_2001 - 2, YEAR_2001 + 2)
}

// The steps of a visit of an item. None where there is no such item, or no memory.
fn steps_of(
    alloc: Global,
    race: &Race,
    seat: &mut Seat,
    tables: &Tables,
    list: &[Block],
    number: usize,
) -> Option<StepList>
    requires race { seat.old.race ≡ race.now.id }
    requires items { list.now ≡ items tables.now.window }
    ensures { seat.new.race ≡ seat.old.race }
{
    let item = item(tables, list, number)?;
    let mut steps = StepList::new(alloc);
    match visit_recorded(race, seat, tables, &item, GREATEST_COST, &mut steps) {
        Ok(()) => Some(steps),
        Err(_) => None,
    }
}

// How many steps a visit of the second item has, and of the first of them the bound and what was read, once another seat has
// offered two keys.
pub(crate) fn first_step(
    alloc: Global,
    tables: &Tables,
    list: &[Block],
) -> Result<Option<(usize, Option<u32>, u64)>, Fail>
    requires { list.now ≡ items tables.now.window }
{
    let (race, mut first) = Race::make(alloc, 2)?;
    let mut other = race.split(&mut first, 1);
    race.offer(&mut first, 0);
    race.offer(&mut first, 1);
    let Some(steps) = steps_of(alloc, &race, &mut other, tables, list, 1) else {
        return Ok(None);
    };
    let Some(step) = steps.as_slice().first() else {
        return Ok(None);
    };
    Ok(Some((steps.as_slice().len(), step.bound, step.seen)))
}

// A worker that cuts by its own offers alone would open the year, whose bound is 0: where nothing was heard, nothing costs.
#[test]
fn keeps_what_is_read_of_another_seat(rt: HostRuntime) -> Result<(), Fail> {
    let grids = [silent_grid(rt.alloc(), Station::Jjy)?];
    check_window(&rt, rt.alloc(), &new_year(), &grids, Check::FirstStep)
}

#[test]
fn keeps_the_steps_of_each_worker(rt: HostRuntime) -> Result<(), Fail> {
    let civil = Civil::make(rt.alloc())?;
    let grids = [silent_grid(rt.alloc(), Station::Jjy)?];
    let found = decide_recorded(
        &rt,
        rt.alloc(),
        &civil,
        &grids,
        &new_year(),
        GREATEST_COST,
        2,
        &NoGate,
    );
    let keys = found.map(|kept| (kept.found.first, kept.found.second, kept.lists.len()));
    assert_eq!(rt; keys.ok(), Some((Some(527_038), Some(527_039), 2)));
    Ok(())
}

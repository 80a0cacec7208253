//! The floors of days compared with what their legal sequences cost at the least.

ghost use Rattle.std.specs.Prelude.{◌≡◌, MatchResult};
ghost use Rattle.definitions.specs.answers.Blocks.{IsBlock};
ghost use Rattle.definitions.specs.declared.block.Span.TheVariants.{Day};
ghost use Rattle.plain_bounds.specs.Floors.{IsTooHigh};

use crate::chance::Chance;
use crate::draw::draw_day;
use crate::fault::Fault;
use crate::floor_tally::FloorTally;
use crate::slots::slots_of;
use bounds::items;
use definitions::Block;
use plain_bounds::{Case, is_too_high, least_cost};
use signal_base::GREATEST_COST;
use std::alloc::Global;

// So many days are drawn for a window. Those are left out whose sequences have more slots together than are left of so many.
const DRAWS: u32 = 300;

const MOST_SLOTS: u64 = 3_000_000;

/// Compares the floors of some days of a window.
pub fn compare_floors(
    alloc: Global,
    case: &Case,
    chance: &mut Chance,
    tally: &mut FloorTally,
) -> Result<(), Fault> {
    let list = items(alloc, case.civil, &case.window)?;
    let mut slots_left = MOST_SLOTS;
    for _ in 0..DRAWS {
        let Some(day) = draw_day(case.tables, &list, chance) else {
            return Ok(());
        };
        let slots = slots_of(case, &day);
        if slots <= slots_left {
            slots_left -= slots;
            compare_floor(case, &day, tally)?;
        }
    }
    Ok(())
}

// Compares the floor of a day.
fn compare_floor(case: &Case, day: &Block, tally: &mut FloorTally) -> Result<(), Fault>
    requires block { IsBlock case.now.window day.now }
    requires day { day.now.span ≡ Day }
{
    let floor = case.tables.floor(day, GREATEST_COST);
    let least = least_cost(case, day);
    tally.count(day, floor, least);
    judge(day, floor, least)
}

// A floor that is too high is a fault.
fn judge(day: &Block, floor: Option<u32>, least: Option<u32>) -> Result<(), Fault>
    ensures { MatchResult result (λ done. ¬ (IsTooHigh floor least)) (λ fault. IsTooHigh floor least) }
{
    if is_too_high(floor, least) {
        return Err(Fault::Floors {
            day: *day,
            floor,
            least,
        });
    }
    Ok(())
}

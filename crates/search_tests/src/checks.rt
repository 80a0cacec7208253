//! What is checked of a window's tables and items. They are made in one place for all tests, since what owns them takes long to
//! prove.

ghost use Rattle.std.specs.Prelude.{◌≡◌};
ghost use Rattle.std.specs.List.{AllByRecursion};
ghost use Rattle.definitions.specs.answers.Blocks.{IsBlock, items};
ghost use Rattle.definitions.specs.sequences.Windows.{IsWindow};
ghost use Rattle.field_tables.specs.Grids.{AreGrids};

use crate::floors::{announced_years_have_no_floor, four_days_cost_100};
use crate::judged::first_wrong;
use crate::order::years_are_ranked;
use crate::searches::{
    days_are_passed_over, few_steps_are_kept, two_workers_meet, visits_go_by_offers,
};
use crate::silence::costly_sequences;
use crate::steps::first_step;
use crate::written::{last_minutes_are_written, pieces_are_written};
use bounds::items;
use civil::Civil;
use definitions::Block;
use field_tables::{Tables, parts_of};
use signal_base::Window;
use std::alloc::Global;
use std::process::Abort;
use std::test::Fail;
use std::thread::Threads;
use symbol_cost::CostGrid;

/// One for each test.
#[derive(Clone, Copy)]
pub(crate) enum Check {
    Meeting,
    Visit,
    Day,
    FewSteps,
    FourDays,
    QuietDays,
    Order,
    Certificate,
    Pieces,
    Judged,
    FirstStep,
    Silence,
}

/// Makes the tables and the items of a window, and checks them.
pub(crate) fn check_window<R: Threads + Abort + Sync>(
    rt: &R,
    alloc: Global,
    window: &Window,
    grids: &[CostGrid],
    check: Check,
) -> Result<(), Fail>
    requires window { IsWindow window.now }
    requires grids { AreGrids window.now grids.now }
{
    let civil = Civil::make(alloc)?;
    let parts = parts_of(alloc, &civil, window)?;
    let tables = Tables::make(alloc, &parts, grids, &civil, window)?;
    let list = items(alloc, &civil, window)?;
    check_tables(rt, alloc, &tables, &list, check)
}

// Checks what searches say of these.
fn check_tables<R: Threads + Abort + Sync>(
    rt: &R,
    alloc: Global,
    tables: &Tables,
    list: &[Block],
    check: Check,
) -> Result<(), Fail>
    requires items { list.now ≡ items tables.now.window }
    requires blocks { AllByRecursion (IsBlock tables.now.window) list.now }
{
    match check {
        Check::Meeting => two_workers_meet(rt, alloc, tables, list),
        Check::Visit => visits_go_by_offers(rt, alloc, tables, list),
        Check::Day => days_are_passed_over(rt, alloc, tables, list),
        Check::FewSteps => few_steps_are_kept(rt, alloc, tables, list),
        Check::FourDays => four_days_cost_100(rt, tables, list),
        Check::QuietDays => {
            announced_years_have_no_floor(rt, tables, list);
            Ok(())
        }
        Check::Order => years_are_ranked(rt, alloc, tables, list),
        Check::Certificate => last_minutes_are_written(rt, alloc, tables, list),
        Check::Pieces => pieces_are_written(rt, alloc, tables, list),
        Check::Judged => {
            assert_eq!(rt; first_wrong(alloc, tables, list)?, None);
            Ok(())
        }
        Check::FirstStep => {
            let step = first_step(alloc, tables, list)?;
            assert_eq!(rt; step, Some((1, Some(0), 1)));
            Ok(())
        }
        Check::Silence => {
            assert_eq!(rt; costly_sequences(tables), 0);
            Ok(())
        }
    }
}

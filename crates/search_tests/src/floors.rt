//! How much the floors of days and years say, which no clause does.

ghost use Rattle.std.specs.Prelude.{◌≡◌};
ghost use Rattle.definitions.specs.answers.Blocks.{IsBlock, items};

use crate::checks::{Check, check_window};
use crate::items::item;
use bounds::bounded_children;
use definitions::Block;
use field_tables::Tables;
use sample_grids::{YEAR_2001, dcf77, minute_grid, silent_grid, window};
use signal_base::{Station, Stations};
use std::process::Abort;
use std::test::Fail;

// The last bit of the minute: MSF tells 1, of the minute that comes, and WWVB tells 1, of the minute that is. A wrong one costs 100 at
// MSF, and 300 at WWVB.
const MSF_IS_ODD: &[u8] = b"0 X\n51000 L\n51200 H\n52000 X\n";

const WWVB_IS_ODD: &[u8] = b"0 X\n8000 L\n8500 H\n9000 X\n";

// Each station is right in every other minute, and both in none.
#[test]
fn a_day_costs_what_its_stations_do_in_one_minute(rt: HostRuntime) -> Result<(), Fail> {
    let alloc = rt.alloc();
    let window = window(Stations { mask: 6 }, YEAR_2001 - 2880, YEAR_2001 + 2880);
    let grids = [
        minute_grid(alloc, Station::Msf, MSF_IS_ODD)?,
        minute_grid(alloc, Station::Wwvb, WWVB_IS_ODD)?,
    ];
    check_window(&rt, alloc, &window, &grids, Check::FourDays)
}

pub(crate) fn four_days_cost_100(
    rt: &impl Abort,
    tables: &Tables,
    list: &[Block],
) -> Result<(), Fail>
    requires { list.now ≡ items tables.now.window }
{
    let mut days = 0u32;
    for number in 0..list.len() {
        let Some(year) = item(tables, list, number) else {
            continue;
        };
        if !year.announced && year.second == 0 {
            days = days.saturating_add(floors_of_days(rt, tables, &year, 100)?);
        }
    }
    assert_eq!(rt; days, 4);
    Ok(())
}

// How many days a block has, whose floors are so much.
fn floors_of_days(rt: &impl Abort, tables: &Tables, block: &Block, cost: u32) -> Result<u32, Fail>
    requires { IsBlock tables.now.window block.now }
{
    let mut count = 0u32;
    let mut days = bounded_children(tables, block);
    while let Some(day) = days.next_block() {
        assert_eq!(rt; tables.floor(&day, 0), Some(cost), "of day {count}");
        count = count.saturating_add(1);
    }
    Ok(count)
}

// In January nothing tells of a leap second, so that no announced sequence is legal. The others are, and cost nothing here.
#[test]
fn announced_years_of_quiet_days_have_no_floor(rt: HostRuntime) -> Result<(), Fail> {
    let alloc = rt.alloc();
    let window = dcf77(YEAR_2001, YEAR_2001 + 2880);
    let grids = [silent_grid(alloc, Station::Dcf77)?];
    check_window(&rt, alloc, &window, &grids, Check::QuietDays)
}

pub(crate) fn announced_years_have_no_floor(rt: &impl Abort, tables: &Tables, list: &[Block])
    requires { list.now ≡ items tables.now.window }
{
    for number in 0..list.len() {
        let Some(year) = item(tables, list, number) else {
            continue;
        };
        let has_none = tables.floor(&year, 0).is_none();
        assert_eq!(rt; has_none, year.announced, "of item {number}");
    }
}

//! The years of the century's last minutes, and their order.

ghost use Rattle.std.specs.List.{AllByRecursion};
ghost use Rattle.definitions.specs.answers.Blocks.{IsBlock};

use crate::checks::{Check, check_window};
use crate::last_minutes::FROM;
use bounds::{Block, Span, announced_last, ranked};
use definitions::CENTURY_MINUTES;
use field_tables::Tables;
use sample_grids::{dcf77, grid, table};
use signal_base::Station;
use std::alloc::Global;
use std::process::Abort;
use std::test::Fail;

#[test]
fn ranks_the_years_of_the_last_minutes(rt: HostRuntime) -> Result<(), Fail> {
    let grids = [grid(rt.alloc(), Station::Dcf77, &table(100, 100), b"", 60)?];
    let window = dcf77(FROM, CENTURY_MINUTES);
    check_window(&rt, rt.alloc(), &window, &grids, Check::Order)
}

// Two have a bound, and then come the others in the order of their first sequences.
pub(crate) fn years_are_ranked(
    rt: &impl Abort,
    alloc: Global,
    tables: &Tables,
    list: &[Block],
) -> Result<(), Fail>
    requires { AllByRecursion (IsBlock tables.now.window) list.now }
{
    let order = ranked(alloc, tables, list)?;
    is_ranked(rt, &order);
    let parted = announced_last(alloc, tables, list)?;
    is_parted(rt, &parted);
    Ok(())
}

fn is_ranked(rt: &impl Abort, order: &[Block]) {
    assert_eq!(rt; order.len(), 121);
    for (i, block) in order.iter().enumerate() {
        let place = match i {
            0 => (false, 0),
            1 => (true, 0),
            2..=60 => (false, i - 1),
            _ => (true, i - 60),
        };
        assert_eq!(rt; (block.announced, block.second as usize), place, "at {i}");
        assert_eq!(rt;
            (block.span, block.lo, block.hi),
            (Span::Year, FROM, CENTURY_MINUTES)
        );
    }
}

fn is_parted(rt: &impl Abort, parted: &[Block]) {
    assert_eq!(rt; parted.len(), 121);
    for (i, block) in parted.iter().enumerate() {
        let place = if i < 60 { (false, i) } else { (true, i - 60) };
        assert_eq!(rt; (block.announced, block.second as usize), place, "at {i}");
    }
}

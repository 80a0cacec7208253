//! Grids of the largest logs, which the gate is to see made in time.

ghost use Rattle.std.specs.Prelude.{◌≡◌, ◌≤◌, IfOk, length};
ghost use Rattle.signal_base.specs.Limits.{IsPriced};

use crate::made::log_in;
use pulse_log::{Log, LogFault};
use signal_base::{CostTable, Station, Tuning};
use std::alloc::{AllocError, Global};
use std::process::Abort;
use std::test::Fail;
use std::time::Instant;
use symbol_cost::CostGrid;

// A text of 200,000 records, of which one is 5 ms after the other: low, high, low and so on.
fn largest_text(alloc: Global) -> Result<String, AllocError> {
    let mut text = String::new(alloc);
    for n in 0..100_000u32 {
        write!(text, "{} L\n{} H\n", 10 * n, 10 * n + 5)?;
    }
    Ok(text)
}

const PLAIN: Tuning = Tuning {
    delay: 0,
    weight: 1,
    table: None,
};

// So many logs of a text.
fn logs_in(
    rt: &(impl Abort + AllocGlobal),
    text: &[u8],
    count: usize,
) -> Result<Vec<Log>, LogFault> {
    let mut logs = Vec::new(rt.alloc());
    for _ in 0..count {
        logs.push(log_in(rt, text)?)?;
    }
    Ok(logs)
}

// So many logs of the largest text.
fn largest_logs(rt: &(impl Abort + AllocGlobal), count: usize) -> Result<Vec<Log>, Fail> {
    let text = largest_text(rt.alloc())?;
    Ok(logs_in(rt, text.as_bytes(), count)?)
}

// A second of the grid of eight of them, and one after the end of the logs.
fn costs_of_the_largest(rt: &HostRuntime, logs: &[Log]) -> Result<(u32, u32), Fail>
    requires { length logs.now ≡ 8 }
{
    let table = CostTable::default();
    let begin = Instant::now(rt)?;
    let grid = CostGrid::make(
        rt.alloc(),
        Station::Msf,
        &[PLAIN; 8],
        &table,
        logs,
        0,
        0,
        1200,
    )?;
    let microseconds = begin.elapsed(rt)?.as_micros();
    println!(rt; "{microseconds} microseconds")?;
    Ok((grid.cost(998, 16), grid.cost(1000, 16)))
}

// Each tenth has 50 low milliseconds, so each of its symbols costs a receiver 50, and a second costs eight of them
// 4,000. The log ends in second 999. `bench/grid` reads what is printed.
#[test]
fn grids_of_the_largest_logs(rt: HostRuntime) -> Result<(), Fail> {
    let logs = largest_logs(&rt, 8)?;
    assert!(rt; logs.len() == 8);
    for _ in 0..5u8 {
        assert!(rt; costs_of_the_largest(&rt, &logs)? == (4000, 0));
    }
    Ok(())
}

// Three minutes of one of them from a millisecond on.
fn three_minutes(
    alloc: Global,
    table: &CostTable,
    logs: &[Log],
    start: u64,
) -> Result<CostGrid, Fail>
    requires priced { IsPriced table.now }
    requires logs { length logs.now ≡ 1 }
    requires start { start ≤ 60000 }
    ensures slots { IfOk result (λ grid. length grid.rows ≡ 180) }
    ensures receivers { IfOk result (λ grid. grid.receivers ≡ 1) }
{
    Ok(CostGrid::make(alloc, Station::Msf, &[PLAIN], table, logs, start, 0, 180)?)
}

// What some of their seconds cost: the first, those before and behind two minutes, and the last.
fn costs_of_four(grid: &CostGrid) -> [u32; 4]
    requires { length grid.now.rows ≡ 180 }
{
    [
        grid.cost(0, 16),
        grid.cost(119, 16),
        grid.cost(120, 16),
        grid.cost(179, 16),
    ]
}

// What seconds cost of a grid that is moved by a minute, and of one that is made there.
fn moved_and_made(rt: &HostRuntime, logs: &[Log]) -> Result<([u32; 4], [u32; 4]), Fail>
    requires { length logs.now ≡ 1 }
{
    let table = CostTable::default();
    let mut moved = three_minutes(rt.alloc(), &table, logs, 0)?;
    let begin = Instant::now(rt)?;
    moved.advance(&[PLAIN], &table, logs, 0, 0, 60);
    let advancing = begin.elapsed(rt)?.as_nanos();
    let begin = Instant::now(rt)?;
    let made = three_minutes(rt.alloc(), &table, logs, 60_000)?;
    let making = begin.elapsed(rt)?.as_nanos();
    println!(rt; "{advancing} nanoseconds to move, {making} to make")?;
    Ok((costs_of_four(&moved), costs_of_four(&made)))
}

// Three minutes of such a log at one receiver, moved by a minute and made anew: a second costs 500 throughout. `bench/grid` reads what
// is printed.
#[test]
fn grids_moved_by_a_minute(rt: HostRuntime) -> Result<(), Fail> {
    let logs = largest_logs(&rt, 1)?;
    assert!(rt; logs.len() == 1);
    for _ in 0..5u8 {
        assert!(rt; moved_and_made(&rt, &logs)? == ([500; 4], [500; 4]));
    }
    Ok(())
}

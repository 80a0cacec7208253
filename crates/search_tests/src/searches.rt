//! What no clause says: that workers take part beside each other, that a visit goes by what others offered, and that a search ends
//! where its steps can't be kept.

ghost use Rattle.std.specs.Prelude.{◌≡◌};
ghost use Rattle.definitions.specs.answers.Blocks.{items};

use crate::checks::{Check, check_window};
use crate::items::item;
use definitions::{Block, Span};
use field_tables::Tables;
use race_words::{Race, Seat};
use sample_grids::{YEAR_2001, jjy, silent_grid};
use signal_base::{GREATEST_COST, Station};
use std::alloc::Global;
use std::convert::Infallible;
use std::process::Abort;
use std::sync::atomic::{AtomicBool, Ordering};
use std::test::Fail;
use std::thread;
use std::thread::Threads;
use workers::{Gate, NoGate, Recorder, search, search_with, visit_with};

// How often a worker who is held looks for the other.
const TURNS: u32 = 10_000_000;

// Holds each of two workers at its first pass until both have made one.
#[derive(Drop)]
struct Meeting {
    first: AtomicBool,
    second: AtomicBool,
    gave_up: AtomicBool,
}

impl Gate for Meeting {
    fn pass(&self, worker: u32, _number: u64) {
        let mine = if worker == 0 {
            &self.first
        } else {
            &self.second
        };
        if mine.load(Ordering::SeqCst) {
            return;
        }
        mine.store(true, Ordering::SeqCst);
        for _ in 0..TURNS {
            if self.first.load(Ordering::SeqCst) && self.second.load(Ordering::SeqCst) {
                return;
            }
            thread::yield_now();
        }
        self.gave_up.store(true, Ordering::SeqCst);
    }
}

#[test]
fn two_workers_meet_at_the_gate(rt: HostRuntime) -> Result<(), Fail> {
    let grids = [silent_grid(rt.alloc(), Station::Jjy)?];
    check_window(&rt, rt.alloc(), &jjy(0, 60), &grids, Check::Meeting)
}

pub(crate) fn two_workers_meet<R: Threads + Abort + Sync>(
    rt: &R,
    alloc: Global,
    tables: &Tables,
    list: &[Block],
) -> Result<(), Fail>
    requires { list.now ≡ items tables.now.window }
{
    let gate = Meeting {
        first: AtomicBool::new(false),
        second: AtomicBool::new(false),
        gave_up: AtomicBool::new(false),
    };
    let (race, mut seat) = Race::make(alloc, 2)?;
    search(rt, &race, &mut seat, tables, list, GREATEST_COST, 2, &gate);
    assert!(rt; gate.first.load(Ordering::SeqCst), "worker 0 passed");
    assert!(rt; gate.second.load(Ordering::SeqCst), "worker 1 passed");
    assert!(rt;
        !gate.gave_up.load(Ordering::SeqCst),
        "neither waited in vain"
    );
    Ok(())
}

// Counts the blocks of which it is told: of all that visits come to, or of those that aren't passed over by a floor.
#[derive(Drop)]
pub(crate) struct Counter {
    pub needs_all: bool,
    pub blocks: u32,
}

impl Recorder for Counter {
    type Fault = Infallible;

    ghost told = { λ before step after. Unit {0} };

    ghost fails = { λ before after. Unit {0} };

    ghost parts = { λ before after part. Unit {0} };

    ghost joins = { λ before part after. Unit {0} };

    fn needs_steps(&self) -> bool {
        self.needs_all
    }

    fn record(
        &mut self,
        _block: &Block,
        _bound: Option<u32>,
        _seen: u64,
    ) -> Result<(), Infallible> {
        self.blocks = self.blocks.saturating_add(1);
        Ok(())
    }

    fn split(&mut self) -> Result<Counter, Infallible> {
        Ok(Counter {
            needs_all: self.needs_all,
            blocks: 0,
        })
    }

    fn join(&mut self, part: Counter) -> Result<(), Infallible> {
        self.blocks = self.blocks.saturating_add(part.blocks);
        Ok(())
    }
}

// Of how many blocks the visit of an item tells, where all are to be told or those that no floor passes over.
fn blocks_of(
    race: &Race,
    seat: &mut Seat,
    tables: &Tables,
    list: &[Block],
    number: usize,
    needs_all: bool,
) -> Option<u32>
    requires race { seat.old.race ≡ race.now.id }
    requires items { list.now ≡ items tables.now.window }
    ensures { seat.new.race ≡ seat.old.race }
{
    let item = item(tables, list, number)?;
    let mut counter = Counter {
        needs_all,
        blocks: 0,
    };
    match visit_with(race, seat, tables, &item, GREATEST_COST, &mut counter) {
        Ok(()) => Some(counter.blocks),
    }
}

#[test]
fn a_visit_goes_by_what_another_seat_offered(rt: HostRuntime) -> Result<(), Fail> {
    let grids = [silent_grid(rt.alloc(), Station::Jjy)?];
    let window = jjy(YEAR_2001 - 2, YEAR_2001 + 2);
    check_window(&rt, rt.alloc(), &window, &grids, Check::Visit)
}

pub(crate) fn visits_go_by_offers(
    rt: &impl Abort,
    alloc: Global,
    tables: &Tables,
    list: &[Block],
) -> Result<(), Fail>
    requires { list.now ≡ items tables.now.window }
{
    assert_eq!(rt;
        list.get(1).map(|b| (b.span, b.lo, b.second, b.announced)),
        Some((Span::Year, YEAR_2001, 0, false))
    );

    // A seat that has seen nothing comes to the year, its day, its hour and two minutes.
    let told = blocks_of_a_visit(alloc, tables, list, 1)?;
    assert_eq!(rt; told, Some(5));

    // Once another seat has offered two lesser keys, it comes to the year alone.
    let told = blocks_after(alloc, tables, list, 1, (0, 1), true)?;
    assert_eq!(rt; told, Some(1));
    Ok(())
}

// Of how many blocks the visit of an item tells where nothing was offered.
fn blocks_of_a_visit(
    alloc: Global,
    tables: &Tables,
    list: &[Block],
    number: usize,
) -> Result<Option<u32>, Fail>
    requires items { list.now ≡ items tables.now.window }
{
    let (race, mut seat) = Race::make(alloc, 1)?;
    Ok(blocks_of(&race, &mut seat, tables, list, number, true))
}

// Of how many blocks the visit of an item tells, once another seat has offered these keys.
fn blocks_after(
    alloc: Global,
    tables: &Tables,
    list: &[Block],
    number: usize,
    keys: (u32, u32),
    needs_all: bool,
) -> Result<Option<u32>, Fail>
    requires items { list.now ≡ items tables.now.window }
{
    let (race, mut first) = Race::make(alloc, 2)?;
    let mut other = race.split(&mut first, 1);
    race.offer(&mut first, keys.0 as u64);
    race.offer(&mut first, keys.1 as u64);
    Ok(blocks_of(&race, &mut other, tables, list, number, needs_all))
}

// The last minute of a day; the next begins with the minute after it.
const LAST: u32 = YEAR_2001 + 1439;

#[test]
fn a_day_is_passed_over_by_what_another_seat_offered(rt: HostRuntime) -> Result<(), Fail> {
    let grids = [silent_grid(rt.alloc(), Station::Jjy)?];
    check_window(&rt, rt.alloc(), &jjy(LAST, LAST + 2), &grids, Check::Day)
}

// By a window of these two minutes. What is told of all blocks is told of their own steps.
pub(crate) fn days_are_passed_over(
    rt: &impl Abort,
    alloc: Global,
    tables: &Tables,
    list: &[Block],
) -> Result<(), Fail>
    requires { list.now ≡ items tables.now.window }
{
    for (keys, all, some) in [
        // After greater keys the visit comes to the year, two days, two hours and two minutes.
        ((LAST + 2, LAST + 3), 7, 7),
        // After two keys below the second day's that day is passed over: by its own step, or by its floor, and then nothing
        // is told of it.
        ((0, LAST), 5, 4),
        // After the very key of the second day, which is the second-least once the first day's minute is offered, it is not.
        ((LAST + 1, LAST + 3), 7, 7),
    ] {
        let told = blocks_after(alloc, tables, list, 0, keys, true)?;
        assert_eq!(rt; told, Some(all));
        let told = blocks_after(alloc, tables, list, 0, keys, false)?;
        assert_eq!(rt; told, Some(some));
    }
    Ok(())
}

// Keeps so many steps in each part, and fails at the next.
#[derive(Drop)]
struct FewSteps {
    room: u32,
}

#[derive(Clone, Copy, Debug, PartialEq, Eq)]
struct NoRoom;

impl Recorder for FewSteps {
    type Fault = NoRoom;

    ghost told = { λ before step after. Unit {0} };

    ghost fails = { λ before after. Unit {0} };

    ghost parts = { λ before after part. Unit {0} };

    ghost joins = { λ before part after. Unit {0} };

    fn needs_steps(&self) -> bool {
        true
    }

    fn record(&mut self, _block: &Block, _bound: Option<u32>, _seen: u64) -> Result<(), NoRoom> {
        if self.room == 0 {
            return Err(NoRoom);
        }
        self.room -= 1;
        Ok(())
    }

    fn split(&mut self) -> Result<FewSteps, NoRoom> {
        Ok(FewSteps { room: self.room })
    }

    fn join(&mut self, _part: FewSteps) -> Result<(), NoRoom> {
        Ok(())
    }
}

// What becomes of a search by two workers who keep so many steps each, and the least two keys that they offered.
fn kept_in<R: Threads + Sync>(
    rt: &R,
    alloc: Global,
    tables: &Tables,
    list: &[Block],
    room: u32,
) -> Result<(Result<(), NoRoom>, u64, u64), Fail>
    requires { list.now ≡ items tables.now.window }
{
    let (race, mut seat) = Race::make(alloc, 2)?;
    let mut recorder = FewSteps { room };
    let kept = search_with(
        rt,
        &race,
        &mut seat,
        tables,
        list,
        GREATEST_COST,
        2,
        &NoGate,
        &mut recorder,
    );

    // The seat has the whole share, with which alone a race is closed.
    let ends = race.close(seat);
    Ok((kept, ends.least, ends.second))
}

#[test]
fn a_search_whose_steps_cannot_be_kept_ends(rt: HostRuntime) -> Result<(), Fail> {
    let grids = [silent_grid(rt.alloc(), Station::Jjy)?];
    check_window(&rt, rt.alloc(), &jjy(0, 60), &grids, Check::FewSteps)
}

// An hour of JJY has 121 items, each of which takes a step at least, and two workers keep at most 60 each. A key is offered at the
// fourth step, behind the year, the day and the hour, and who draws the first item offers the least two.
pub(crate) fn few_steps_are_kept<R: Threads + Abort + Sync>(
    rt: &R,
    alloc: Global,
    tables: &Tables,
    list: &[Block],
) -> Result<(), Fail>
    requires { list.now ≡ items tables.now.window }
{
    for (room, least, second) in [(0, u64::MAX, u64::MAX), (1, u64::MAX, u64::MAX), (60, 0, 1)] {
        let kept = kept_in(rt, alloc, tables, list, room)?;
        assert_eq!(rt; kept, (Err(NoRoom), least, second), "{room}");
    }
    Ok(())
}

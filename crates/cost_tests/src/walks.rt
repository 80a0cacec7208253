//! Floors of walks of which four seconds are known, worked out by hand: that they say as much as they can, no clause says.

ghost use Rattle.std.specs.Prelude.{◌≤◌, length};
ghost use Rattle.signal_base.specs.Limits.{IsPriced};

use civil::Civil;
use definitions::CENTURY_MINUTES;
use minute_parts::{Parts, Unions};
use sample_grids::{grid, table};
use signal_base::{CostTable, Station};
use slot_columns::SECONDS_PER_MINUTE;
use std::alloc::AllocGlobal;
use std::process::Abort;
use std::test::Fail;
use walk_costs::StationWalks;

// The slots 0, 2, 60 and 61 are known, and the others cost nothing.
const SOME_SLOTS: &[u8] = b"0 H\n1000 X\n2000 H\n3000 X\n60000 H\n62000 H\n";

// 2024-06-10T06:45Z, at which JJY sends its call sign, in a run of 1,440 minutes.
const CALL: u32 = 12_855_285;

const RUN_END: u32 = 12_854_340 + 1440;

// Friday's run ends so many minutes later: 2024-06-14T15:00Z.
const FRIDAY: u32 = 4 * 1440;

// A low tenth costs 20 and a high one 10, so JJY's 0, 1 and marker cost 120, 150 and 180. One walk goes on from the run to the
// next. From second 0 on both dates tell a marker in it, and the time of day 0 twice. In second 33 they tell the lowest bit of
// the day of the year, 0 for day 162 and 1 for day 163, which costs 120 or more each time; the seconds 34 and 35 are 0. From
// second 50 on Friday tells 101 and Saturday 110: both a 1, and each other bit is 0 on one of the days.
fn a_walk_to_the_next_run_costs_no_less(rt: &impl Abort, walks: &StationWalks) {
    for (second, minute, least) in [
        (0, RUN_END - 1, 180 + 120 + 180 + 120),
        (33, RUN_END - 1, 4 * 120),
        (50, RUN_END + FRIDAY - 1, 150 + 120 + 150 + 120),
    ] {
        assert_eq!(rt;
            least_across(walks, second, minute),
            Some(least),
            "second {second}"
        );
    }
}

// What the walk from the minute costs at the least, where it goes from its run to the next.
fn least_across(walks: &StationWalks, p: u8, t: u32) -> Option<u32> {
    let parts = walks.parts();
    if p as usize >= SECONDS_PER_MINUTE || t >= CENTURY_MINUTES || t >= parts.end() {
        return None;
    }
    let run = parts.run_of(t);
    if run >= parts.runs() - 1 {
        return None;
    }
    let last = t + walks.later_minutes(p);
    if last < parts.run_end(run) || last >= parts.run_end(run + 1) {
        return None;
    }
    if parts.run(run + 1).shift != parts.run(run).shift {
        return None;
    }
    Some(walks.least_across(false, p, run, t, t + 1))
}

// The minute before the two that tell of summer time first: 2024-03-31T00:58Z.
const SPRING: u32 = 12_752_698;

// The minute before the one in which the new year is told first; the next one tells of a leap second, if there is one:
// 2024-12-31T22:58Z.
const NEW_YEAR: u32 = 13_150_018;

// A low tenth costs 20 and a high one 10, so 0, 1 and no reduction cost 110, 120 and 100. From second 29 on the hour is 1 in the
// first minute, 100000, and 3 in the next, 110000. From second 59 on a walk meets the last minute that announces the change, which
// tells the new hour, and the first that doesn't: two marks, a bit that may be 0, and a second 0.
fn a_walk_over_a_change_of_summer_time(rt: &impl Abort, walks: &StationWalks) {
    for (second, minute, least) in [
        (29, SPRING, Some(120 + 110 + 120 + 120)),
        (59, SPRING, Some(100 + 110 + 100 + 110)),
        (29, SPRING - 1, None),
        (29, SPRING + 1, Some(120 + 110 + 120 + 120)),
        (59, NEW_YEAR, Some(100 + 110 + 100 + 110)),
    ] {
        assert_eq!(rt; least_over(walks, second, minute), least, "second {second}");
    }
}

// What the walk from the minute costs at the least, where it goes from its run to the next, which encodes another local time, or to
// the run behind that.
fn least_over(walks: &StationWalks, p: u8, t: u32) -> Option<u32> {
    let parts = walks.parts();
    if p as usize >= SECONDS_PER_MINUTE || t >= CENTURY_MINUTES || t >= parts.end() {
        return None;
    }
    let run = parts.run_of(t);
    if parts.runs() < 3 || run >= parts.runs() - 2 {
        return None;
    }
    let end = t + walks.later_minutes(p) + 1;
    let last = if end <= parts.run_end(run + 1) {
        run + 1
    } else {
        run + 2
    };
    if end <= parts.run_end(run) || end > parts.run_end(last) {
        return None;
    }
    if parts.run(last).shift != parts.run(run + 1).shift {
        return None;
    }
    let over = walks.costs_over(false, p, run, last)?;
    Some(walks.floor_over(&over, t))
}

// JJY warns of a leap second from the second UTC day of June on: 2024-06-02T00:00Z.
const WARNED: u32 = 12_843_360;

// The date tells of no leap second on 2024-06-01, and of one from the next day on.
fn hours_before_the_warning_never_show_it(rt: &impl Abort, walks: &StationWalks) {
    let end = walks.parts().end();
    assert!(rt; WARNED < end);
    assert!(rt; walks.never_shows(WARNED - 60, WARNED - 1));
    assert!(rt; !walks.never_shows(WARNED - 60, WARNED));
    assert!(rt; !walks.never_shows(WARNED, WARNED));
}

// Of DCF77 nothing is given up and nothing added. Of JJY the known slots from second 40 on are the seconds 40 and 42 of one
// minute and 40 and 41 of the next, in which 2024 tells four zeros; the call sign takes one of the two minutes. From second 50
// on Saturday tells 1 and 0, and in the next minute 1 and 1, which costs most: there the call sign lets both bits be 0.
fn a_floor_is_what_the_cheapest_walk_costs(
    rt: &impl Abort,
    civil: &Civil,
    walks: &StationWalks,
    second: u8,
    minute: u32,
) -> Option<u32> {
    let floor = floor(walks, second, minute);
    assert!(rt; floor.is_some());
    assert_eq!(rt;
        floor,
        cheapest(walks, civil, second, minute),
        "second {second}"
    );
    floor
}

fn floors_of_jjy(rt: &impl Abort, civil: &Civil, walks: &StationWalks) {
    for (second, minute, least) in [
        (40, CALL, 2 * 120),
        (50, CALL + FRIDAY + 1440, 150 + 3 * 120),
    ] {
        let floor = a_floor_is_what_the_cheapest_walk_costs(rt, civil, walks, second, minute);
        assert_eq!(rt; floor, Some(least), "second {second}");
    }
}

// The floor of all walks that lie in the run of the minute.
fn floor(walks: &StationWalks, p: u8, t: u32) -> Option<u32> {
    let parts = walks.parts();
    if p as usize >= SECONDS_PER_MINUTE || t >= parts.end() {
        return None;
    }
    let run = parts.run_of(t);
    let lo = parts.run(run).first;
    let end = parts.run_end(run);
    let later = walks.later_minutes(p);
    if end - lo <= later {
        return None;
    }
    Some(walks.least_in(false, p, run, lo, end - later))
}

// Four seconds of DCF77: the slots 0, 14 and 53 tell 1, and the slot 60 tells 0.
const TOLD: &[u8] =
    b"0 L\n200 H\n1000 X\n14000 L\n14200 H\n15000 X\n53000 L\n53200 H\n54000 X\n60000 L\n60100 H\n61000 X\n";

// From second 36 on the slots 0 and 60 are the lowest bit of the day of the month in two minutes, the slot 53 is that of the hour in
// the second of them, and the slot 14 is that of the year, which all dates of 2024 tell as 0: 100 milliseconds differ. A date tells
// the bit of its day twice, so as many do, and in an odd hour no more. A walk into the next day tells the hour 0, so as many do.
fn the_floor_of_a_year_is_what_its_dates_cost(
    rt: &impl Abort,
    civil: &Civil,
    walks: &StationWalks,
) {
    for day in 0..3 {
        let minute = CALL + 1440 * day;
        assert_eq!(rt; floor_of_year(walks, 36, minute), Some(200), "at {minute}");
        assert_eq!(rt;
            cheapest(walks, civil, 36, minute),
            Some(200),
            "at {minute}"
        );
    }
}

// What no walk that begins in the run of the minute costs less than, by the dates of its year, or in those behind it in which that is more
// than 100.
fn floor_of_year(walks: &StationWalks, p: u8, t: u32) -> Option<u32> {
    let parts = walks.parts();
    if p as usize >= SECONDS_PER_MINUTE || t >= parts.end() {
        return None;
    }
    let run = parts.run_of(t);
    let costs = walks.span_costs(p, run)?;
    let near = walks.least_near(&costs, run, 100);
    if near.last == run {
        return None;
    }
    Some(near.floor)
}

// What its cheapest walk costs.
fn cheapest(walks: &StationWalks, civil: &Civil, p: u8, t: u32) -> Option<u32> {
    let parts = walks.parts();
    if t >= parts.end() {
        return None;
    }
    let run = parts.run_of(t);
    let mut least = None;
    for t0 in parts.run(run).first..parts.run_end(run) {
        least = lesser(least, walks.cost(civil, false, p, t0));
    }
    least
}

fn lesser(one: Option<u32>, other: Option<u32>) -> Option<u32> {
    match (one, other) {
        (Some(one), Some(other)) => Some(one.min(other)),
        (None, cost) | (cost, None) => cost,
    }
}

// What is checked of a station's walks.
#[derive(Clone, Copy)]
enum Check {
    Dcf77,
    Year,
    Jjy,
}

fn check_walks(rt: &impl Abort, civil: &Civil, walks: &StationWalks, check: Check) {
    match check {
        Check::Dcf77 => {
            a_walk_over_a_change_of_summer_time(rt, walks);
            a_floor_is_what_the_cheapest_walk_costs(rt, civil, walks, 20, CALL);
        }
        Check::Year => the_floor_of_a_year_is_what_its_dates_cost(rt, civil, walks),
        Check::Jjy => {
            a_walk_to_the_next_run_costs_no_less(rt, walks);
            hours_before_the_warning_never_show_it(rt, walks);
            floors_of_jjy(rt, civil, walks);
        }
    }
}

// Checks a station's walks of 62 slots by a log. They are made here alone, since what owns them takes long to prove.
fn check_walks_of(
    rt: &(impl Abort + AllocGlobal),
    station: Station,
    table: &CostTable,
    pulses: &[u8],
    check: Check,
) -> Result<(), Fail>
    requires priced { IsPriced table.now }
    requires short { length pulses.now ≤ 1000 }
{
    let civil = Civil::make(rt.alloc())?;
    let unions = Unions::make(rt.alloc(), Parts::make(rt.alloc(), &civil, station)?)?;
    let grid = grid(rt.alloc(), station, table, pulses, 62)?;
    let walks = StationWalks::make(rt.alloc(), &unions, &grid)?;
    check_walks(rt, &civil, &walks, check);
    Ok(())
}

#[test]
fn walks_of_dcf77(rt: HostRuntime) -> Result<(), Fail> {
    let table = table(20, 10);
    check_walks_of(&rt, Station::Dcf77, &table, SOME_SLOTS, Check::Dcf77)
}

#[test]
fn walks_of_a_year(rt: HostRuntime) -> Result<(), Fail> {
    let table = CostTable::default();
    check_walks_of(&rt, Station::Dcf77, &table, TOLD, Check::Year)
}

#[test]
fn walks_of_jjy(rt: HostRuntime) -> Result<(), Fail> {
    let table = table(20, 10);
    check_walks_of(&rt, Station::Jjy, &table, SOME_SLOTS, Check::Jjy)
}

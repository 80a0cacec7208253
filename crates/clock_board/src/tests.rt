//! What no clause says: that askers find places, that readings are fresh, and askers in threads beside a tracker.
ghost use Rattle.std.specs.Prelude.{◌≡◌, ◌+◌, ◌<◌, []};
ghost use Rattle.std.specs.Thread.{IsSync};
ghost use Rattle.clock_board.specs.Seats.{published};

use crate::{Asker, Reading, Shelf, Tracker, make};
use board_entries::{Entry, Told};
use civil::Civil;
use definitions::Sequence;
use std::sync::Wait;
use std::test::Fail;
use std::thread::{Threads, join_mut};

const QUESTIONS: u32 = 10_000;

const ENTRIES: u32 = 1_000;

// 2024-06-10T06:16Z, counted from 2000-01-01T00:00Z.
const IN_JUNE: u32 = 12_855_256;

// A minute from millisecond 0 on, of which this minute was decided.
#[tactic(auto, using(crate::proofs::Staying::minute_stays))]
fn entry(first: u32) -> Entry
    requires { first < 50_000_000 }
{
    Entry {
        start: 0,
        phase: 0,
        seconds: 60,
        sequence: Sequence {
            first,
            second: 0,
            announced: false,
        },
    }
}

fn reading(told: Told, count: u32, fresh: bool) -> Reading {
    Reading { told, count, fresh }
}

fn in_june() -> Told {
    Told::At {
        minute: IN_JUNE,
        second: 0,
    }
}

// Two answers of an asker: before it learned the tracker's news, and after.
fn two_answers<R: Wait>(
    rt: &R,
    civil: &Civil,
    tracker: &mut Tracker,
    askers: &mut [Asker],
) -> Option<(Reading, Reading)>
    requires { published tracker.old ≡ [] }
{
    let asker = askers.first_mut()?;
    tracker.publish(rt, entry(IN_JUNE)).ok()?;
    let before = asker.ask(civil, 0);
    asker.learn(tracker.news());
    Some((before, asker.ask(civil, 0)))
}

#[test]
fn an_asker_reads_the_board(rt: HostRuntime) -> Result<(), Fail> {
    let civil = Civil::make(rt.alloc())?;
    let (mut tracker, mut askers) = make(rt.alloc(), 1)?;
    let answers = two_answers(&rt, &civil, &mut tracker, askers.as_mut_slice());
    tracker.end(&rt);
    let fresh = reading(in_june(), 1, true);
    assert!(rt; answers == Some((fresh, fresh)));
    let asker = askers.pop();
    let after = asker.map(|mut asker| asker.ask(&civil, 59_999));
    assert!(rt;
        after
            == Some(reading(
                Told::At {
                    minute: IN_JUNE,
                    second: 59
                },
                1,
                false
            )),
        "after the end it answers from its copy"
    );
    Ok(())
}

// What an asker without a place answers before it learned anything, and after; what the board's own asker answers; and what the
// first one answers when it has learned news with a place.
fn answers_without_a_place<R: Wait>(
    rt: &R,
    civil: &Civil,
    tracker: &mut Tracker,
    askers: &mut [Asker],
) -> Option<(Reading, Reading, Reading, Reading)>
    requires { published tracker.old ≡ [] }
{
    let mut asker = Asker {
        reader: None,
        kept: Shelf::blank(),
    };
    tracker.publish(rt, entry(IN_JUNE)).ok()?;
    let before = asker.ask(civil, 0);
    // These news have the last place.
    let held = tracker.news();
    asker.learn(tracker.news());
    let after = asker.ask(civil, 0);
    drop(held);
    let own = askers.first_mut()?.ask(civil, 0);
    asker.learn(tracker.news());
    Some((before, after, own, asker.ask(civil, 0)))
}

#[test]
fn an_asker_without_a_place_answers_from_its_copy_until_news_bring_one(
    rt: HostRuntime,
) -> Result<(), Fail> {
    let civil = Civil::make(rt.alloc())?;
    let (mut tracker, mut askers) = make(rt.alloc(), 1)?;
    let answers = answers_without_a_place(&rt, &civil, &mut tracker, askers.as_mut_slice());
    tracker.end(&rt);
    assert!(rt;
        answers
            == Some((
                reading(Told::Unknown, 0, false),
                reading(in_june(), 1, false),
                reading(in_june(), 1, true),
                reading(in_june(), 1, true)
            ))
    );
    Ok(())
}

// Publishes a minute after the other.
fn publishes<R: Wait>(rt: &R, tracker: &mut Tracker) -> bool
    requires { published tracker.old ≡ [] }
{
    for n in 0..ENTRIES {
        if tracker.publish(rt, entry(n)).is_err() {
            return false;
        }
    }
    true
}

// The minute of the last of so many entries.
fn last_of(count: u32) -> Told {
    match count.checked_sub(1) {
        Some(minute) => Told::At { minute, second: 0 },
        None => Told::Unknown,
    }
}

// Asks and counts the answers that went back, or that are wrong for their count.
fn asks(civil: &Civil, asker: &mut Asker) -> u32 {
    let (mut last, mut wrong) = (0, 0u32);
    for _ in 0..QUESTIONS {
        let reading = asker.ask(civil, 0);
        if reading.count < last || reading.told != last_of(reading.count) {
            wrong = wrong.saturating_add(1);
        }
        last = reading.count;
    }
    wrong
}

fn both_ask<R: Threads + Sync>(
    rt: &R,
    civil: &Civil,
    one: &mut Asker,
    other: &mut Asker,
) -> (u32, u32) {
    join_mut(rt, &mut || asks(civil, one), &mut || asks(civil, other))
}

// Whether all was published, and how many answers were wrong.
fn beside<R: Threads + Wait + Sync>(
    rt: &R,
    civil: &Civil,
    tracker: &mut Tracker,
    one: &mut Asker,
    other: &mut Asker,
) -> (bool, (u32, u32))
    requires { published tracker.old ≡ [] }
{
    join_mut(
        rt,
        &mut || -> bool
            requires { IsSync R.row × (published tracker.now ≡ []) }
        { publishes(rt, tracker) },
        &mut || -> (u32, u32)
            requires { IsSync R.row }
        { both_ask(rt, civil, one, other) },
    )
}

// The same, and what an asker then answers when it has the news.
fn beside_and_after<R: Threads + Wait + Sync>(
    rt: &R,
    civil: &Civil,
    tracker: &mut Tracker,
    askers: &mut Vec<Asker>,
) -> Option<(bool, (u32, u32), Reading)>
    requires { published tracker.old ≡ [] }
{
    let mut one = askers.pop()?;
    let mut other = askers.pop()?;
    let (all, wrong) = beside(rt, civil, tracker, &mut one, &mut other);
    one.learn(tracker.news());
    Some((all, wrong, one.ask(civil, 0)))
}

#[test]
fn askers_beside_the_tracker(rt: HostRuntime) -> Result<(), Fail> {
    let civil = Civil::make(rt.alloc())?;
    let (mut tracker, mut askers) = make(rt.alloc(), 2)?;
    let seen = beside_and_after(&rt, &civil, &mut tracker, &mut askers);
    tracker.end(&rt);
    assert!(rt; seen == Some((true, (0, 0), reading(last_of(ENTRIES), ENTRIES, true))));
    Ok(())
}

//! What no clause says: that a race can be made, what a seat sees of another's keys, and threads that race.
ghost use Rattle.std.specs.Prelude.{◌≡◌, ◌<◌, []};

use crate::{Race, Seat};
use std::marker::Brand;
use std::test::Fail;
use std::thread;

const NONE: u64 = u64::MAX;

const COUNT: u64 = 10_000;

#[test]
fn two_seats_of_one_race(rt: HostRuntime) -> Result<(), Fail> {
    let (race, mut first) = Race::make(rt.alloc(), 2)?;
    let mut other = race.split(&mut first, 1);
    race.offer(&mut first, 5);
    race.offer(&mut first, 7);
    let seen = race.limit(&mut other);
    assert_eq!(rt; seen, 7, "the other seat sees the second-least key");
    let seen = race.limit_often::<Brand>(&mut other);
    assert_eq!(rt; seen, 7, "and by a read that may count as more than one");

    let drawn = [
        race.draw(&mut other),
        race.draw(&mut other),
        race.draw(&mut first),
    ];
    assert!(rt; drawn == [0, 1, 2], "each number is drawn once");

    race.offer(&mut other, 6);
    race.join(&mut first, other);
    let ends = race.close(first);
    assert!(rt;
        ends.least == 5 && ends.second == 6,
        "the two least of both seats"
    );
    Ok(())
}

#[test]
fn a_key_that_is_offered_twice_counts_twice(rt: HostRuntime) -> Result<(), Fail> {
    let (race, mut seat) = Race::make(rt.alloc(), 1)?;
    race.offer(&mut seat, 9);
    race.offer(&mut seat, 9);
    let ends = race.close(seat);
    assert!(rt; ends.least == 9 && ends.second == 9);
    Ok(())
}

#[test]
fn no_key_was_offered(rt: HostRuntime) -> Result<(), Fail> {
    let (race, seat) = Race::make(rt.alloc(), 1)?;
    let ends = race.close(seat);
    assert!(rt; ends.least == NONE && ends.second == NONE);
    Ok(())
}

// The key of a number below 10,000. 10,007 is a prime, so all keys differ.
fn key_of(number: u64) -> u64
    requires { number < 10000 }
    ensures { result < 20000 }
{
    (number * 7_919 + 5_003) % 10_007 + 40
}

// Draws until the numbers are used up, and offers the key of each.
fn take_part(race: &Race, mut seat: Seat) -> Seat
    requires race { seat.race ≡ race.now.id }
    requires view { (seat.view.share ≡ 1) × (seat.view.drawn ≡ []) }
    ensures race { result.race ≡ race.now.id }
    ensures share { result.view.share ≡ 1 }
{
    for _ in 0..=COUNT {
        let number = race.draw(&mut seat);
        if number >= COUNT {
            break;
        }
        race.offer(&mut seat, key_of(number));
    }
    seat
}

#[test]
fn two_threads_offer_ten_thousand_keys(rt: HostRuntime) -> Result<(), Fail> {
    let (race, mut first) = Race::make(rt.alloc(), 2)?;
    let other = race.split(&mut first, 1);
    let shared = &race;
    let (mut first, other) = thread::join(
        &rt,
        move || take_part(shared, first),
        move || take_part(shared, other),
    );
    race.join(&mut first, other);
    let ends = race.close(first);
    assert!(rt; ends.least == 40 && ends.second == 41);
    Ok(())
}

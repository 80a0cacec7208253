//! Walks that are kept near a leap second: how many there are where memory is ample, no clause says.

ghost use Rattle.std.specs.Prelude.{◌<◌, ◌≤◌};

use civil::Civil;
use leap_unions::{LeapUnions, Sets};
use minute_parts::{Parts, Unions};
use signal_base::{MOST_SECONDS, Station};
use std::process::Abort;
use std::test::Fail;

// The minute after 2016-12-31, at whose end a leap second came.
const YEAR_2017: u32 = 8_942_400;

// What the walks of some minutes carry, by each of them.
fn one_by_one(leaps: &LeapUnions, second: u8, from: u32, to: u32) -> Option<Sets>
    requires { second < 60 }
{
    let mut sets = [0; MOST_SECONDS as usize];
    for first in from..to {
        let walk = leaps.walk(second, first)?;
        for slot in 0..MOST_SECONDS as usize {
            sets[slot] |= walk.sets[slot];
        }
    }
    Some(sets)
}

// The walks of the last 21 minutes are kept, each of them and all together, and none of the minute before these.
fn last_walks_are_kept(rt: &impl Abort, leaps: &LeapUnions) {
    for second in [0, 13, 59] {
        let together = leaps.walks_together(second, YEAR_2017 - 21, YEAR_2017);
        assert!(rt; together.is_some(), "{second}");
        let each = one_by_one(leaps, second, YEAR_2017 - 21, YEAR_2017);
        assert!(rt; together == each, "{second}");
        let more = leaps.walks_together(second, YEAR_2017 - 22, YEAR_2017);
        assert!(rt; more.is_none(), "{second}");
    }
}

// By windows of 1,200 seconds.
#[test]
fn walks_before_2017(rt: HostRuntime) -> Result<(), Fail> {
    let civil = Civil::make(rt.alloc())?;
    let unions = Unions::make(rt.alloc(), Parts::make(rt.alloc(), &civil, Station::Dcf77)?)?;
    let leaps = LeapUnions::make(rt.alloc(), &civil, Station::Dcf77, &unions, MOST_SECONDS)?;
    last_walks_are_kept(&rt, &leaps);
    Ok(())
}

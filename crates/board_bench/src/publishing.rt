//! One who publishes entries, as fast as it can.

ghost use Rattle.std.specs.Prelude.{◌≡◌, []};
ghost use Rattle.clock_board.specs.Seats.{published};

use crate::entries::entry;
use crate::limit::{Limit, MOST};
use crate::ring::Ring;
use clock_board::Tracker;
use std::rt::Clock;
use std::sync::{Mutex, Wait};

/// Publishes entries on a board until the limit, or until there is no memory, and says how many.
pub fn publish_on_board<R: Wait + Clock>(rt: &R, tracker: &mut Tracker, limit: &Limit) -> u32
    requires { published tracker.old ≡ [] }
{
    for number in 0..MOST {
        if limit.is_over(rt, number) {
            return number;
        }
        if tracker.publish(rt, entry(number)).is_err() {
            return number;
        }
    }
    MOST
}

/// Adds entries until the limit, each under the lock, and says how many.
pub fn publish_in_lock<R: Wait + Clock>(rt: &R, ring: &Mutex<Ring>, limit: &Limit) -> u32 {
    for number in 0..MOST {
        if limit.is_over(rt, number) {
            return number;
        }
        ring.lock(rt).add(entry(number));
    }
    MOST
}

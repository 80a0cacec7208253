//! Askers at their desks: each asks its share of the queries.

ghost use Rattle.std.specs.Prelude.{◌≡◌, IfErr};
ghost use Rattle.bank.specs.declared.stop.Stop.TheVariants.{NoMemory};

use bank::Stop;
use civil::Civil;
use clock_board::{Asker, Reading, Tracker};
use std::alloc::Global;
use std::thread::{Threads, for_each_mut};

/// An asker, what it was answered so far, and whether its last question was answered by the board itself.
#[derive(Drop)]
pub struct Desk {
    asker: Asker,
    /// What it was answered, in the order of its questions.
    pub readings: Vec<Reading>,
    /// Whether it asked once more behind the last entry, and read the board then.
    pub fresh: bool,
}

/// A desk for each asker, with room for so many answers.
pub fn desks_of(alloc: Global, askers: Vec<Asker>, room: usize) -> Result<Vec<Desk>, Stop>
    ensures { IfErr result (λ stop. stop ≡ NoMemory) }
{
    let mut desks = Vec::new(alloc);
    for asker in askers {
        desks.push(Desk {
            asker,
            readings: Vec::with_capacity(alloc, room)?,
            fresh: false,
        })?;
    }
    Ok(desks)
}

/// All ask, each in a thread of its own where one can be made: of so many desks the one of number r asks the queries whose place
/// divided by that number leaves r.
pub fn ask_all<R: Threads + Sync>(rt: &R, civil: &Civil, desks: &mut [Desk], queries: &[u64]) {
    let many = desks.len();
    if many > 0 {
        let ask = |number: usize, desk: &mut Desk| ask_share(civil, desk, queries, number, many);
        for_each_mut(rt, desks, many, &ask);
    }
}

// Asks the queries whose place divided by the number of desks leaves this one's.
fn ask_share(civil: &Civil, desk: &mut Desk, queries: &[u64], number: usize, many: usize) {
    for place in 0..queries.len() {
        if place.checked_rem(many) == Some(number) {
            let reading = desk.asker.ask(civil, queries[place]);
            if desk.readings.len() < desk.readings.capacity() {
                desk.readings.push_reserved(reading);
            }
        }
    }
}

/// Each asker learns the tracker's news, and asks once more.
pub fn ask_behind_the_news(civil: &Civil, tracker: &mut Tracker, desks: &mut [Desk]) {
    for i in 0..desks.len() {
        desks[i].asker.learn(tracker.news());
        desks[i].fresh = desks[i].asker.ask(civil, 0).fresh;
    }
}

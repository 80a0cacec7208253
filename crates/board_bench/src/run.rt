//! One who publishes, and askers beside it.

ghost use Rattle.std.specs.Prelude.{◌≡◌, ◌≤◌, [], IfOk};
ghost use Rattle.std.specs.Thread.{IsSync};
ghost use Rattle.clock_board.specs.Seats.{published};
ghost use Rattle.clock_board.specs.declared.board.TheConstants.{MOST_READERS};

use crate::asking::{Seat, Source, ask_all};
use crate::fault::Fault;
use crate::limit::Limit;
use crate::publishing::{publish_in_lock, publish_on_board};
use crate::ring::Ring;
use civil::Civil;
use clock_board::{Asker, Tracker, make};
use std::alloc::{AllocError, Global};
use std::rt::Clock;
use std::sync::{Arc, Mutex, Wait};
use std::thread::{Threads, join_mut};

/// What was done.
#[derive(Clone, Copy)]
pub struct Counts {
    /// How many questions were asked.
    pub questions: u64,
    /// How many entries were published.
    pub publications: u32,
    /// How many answers differ from what the entries tell, or come of too few of them.
    pub wrong: u64,
}

impl Counts {
    /// Refuses wrong answers.
    pub fn refuse_difference(&self) -> Result<(), Fault> {
        if self.wrong > 0 {
            return Err(Fault::Difference(self.wrong));
        }
        Ok(())
    }
}

/// Publishes on a board beside so many askers, until each came to its limit. Then each asker learns the news and asks once more:
/// it is to be answered by all entries.
pub fn run_board<R: Threads + Wait + Sync + Clock>(
    rt: &R,
    alloc: Global,
    askers: u8,
    publishing: &Limit,
    asking: &Limit,
) -> Result<Counts, Fault>
    requires { (1 ≤ askers) × (askers ≤ MOST_READERS) }
{
    let civil = Civil::make(alloc)?;
    let (mut tracker, askers) = make(alloc, askers)?;
    let ran = run_beside(rt, alloc, &civil, &mut tracker, askers, publishing, asking);
    tracker.end(rt);
    Ok(ran?)
}

fn run_beside<R: Threads + Wait + Sync + Clock>(
    rt: &R,
    alloc: Global,
    civil: &Civil,
    tracker: &mut Tracker,
    askers: Vec<Asker>,
    publishing: &Limit,
    asking: &Limit,
) -> Result<Counts, AllocError>
    requires { published tracker.old ≡ [] }
{
    let mut seats = Vec::with_capacity(alloc, askers.len())?;
    for asker in askers {
        seats.push(Seat::new(Source::Board(asker)))?;
    }
    let publications = ask_beside(rt, civil, tracker, seats.as_mut_slice(), publishing, asking);
    for seat in seats.as_mut_slice() {
        if let Source::Board(asker) = &mut seat.source {
            asker.learn(tracker.news());
        }
    }
    Ok(counts_of(rt, civil, seats.as_mut_slice(), publications))
}

fn ask_beside<R: Threads + Wait + Sync + Clock>(
    rt: &R,
    civil: &Civil,
    tracker: &mut Tracker,
    seats: &mut [Seat],
    publishing: &Limit,
    asking: &Limit,
) -> u32
    requires { published tracker.old ≡ [] }
{
    let (publications, ()) = join_mut(
        rt,
        &mut || -> u32
            requires { IsSync R.row × (published tracker.now ≡ []) }
        { publish_on_board(rt, tracker, publishing) },
        &mut ||
            requires { IsSync R.row }
        { ask_all(rt, civil, seats, asking) },
    );
    publications
}

/// The same under a lock.
pub fn run_lock<R: Threads + Wait + Sync + Clock>(
    rt: &R,
    alloc: Global,
    askers: u8,
    publishing: &Limit,
    asking: &Limit,
) -> Result<Counts, Fault> {
    let civil = Civil::make(alloc)?;
    let ring = Arc::new(alloc, Mutex::new(Ring::new()))?;
    let mut seats = Vec::with_capacity(alloc, askers as usize)?;
    for _ in 0..askers {
        seats.push(Seat::new(Source::Lock(Arc::try_clone(&ring)?)))?;
    }
    let publications = ask_beside_lock(rt, &civil, &ring, seats.as_mut_slice(), publishing, asking);
    Ok(counts_of(rt, &civil, seats.as_mut_slice(), publications))
}

fn ask_beside_lock<R: Threads + Wait + Sync + Clock>(
    rt: &R,
    civil: &Civil,
    ring: &Mutex<Ring>,
    seats: &mut [Seat],
    publishing: &Limit,
    asking: &Limit,
) -> u32 {
    let (publications, ()) = join_mut(
        rt,
        &mut || -> u32
            requires { IsSync R.row }
        { publish_in_lock(rt, ring, publishing) },
        &mut ||
            requires { IsSync R.row }
        { ask_all(rt, civil, seats, asking) },
    );
    publications
}

// Counts what was asked, and asks each once more, which isn't counted.
fn counts_of<R: Wait>(rt: &R, civil: &Civil, seats: &mut [Seat], publications: u32) -> Counts {
    let mut questions = 0u64;
    let mut wrong = 0u64;
    for seat in seats {
        questions = questions.saturating_add(seat.questions as u64);
        if seat.ask(rt, civil, 0) != publications {
            wrong = wrong.saturating_add(1);
        }
        wrong = wrong.saturating_add(seat.wrong as u64);
    }
    Counts {
        questions,
        publications,
        wrong,
    }
}

//! The entries that are published, and what the first so many of them tell, worked out from their numbers alone.

ghost use Rattle.std.specs.Prelude.{◌<◌};
ghost use Rattle.board_bench.specs.declared.limit.TheConstants.{MOST};

use board_entries::{Entry, LAST_ENTRIES, Told};
use definitions::Sequence;

// A window begins so many milliseconds after the one before, has so many seconds, and a phase.
const STEP: u64 = 1000;

const SECONDS: u16 = 60;

const PHASE: u16 = 250;

// The sequences of so many entries begin in different minutes.
const MINUTES: u32 = 10_000_000;

/// The entry of this number, counted from 0: a minute of which the first second was heard in the window's first.
#[tactic(auto, using(clock_board::proofs::Staying::minute_stays))]
pub fn entry(number: u32) -> Entry
    requires { number < MOST }
{
    Entry {
        start: STEP * number as u64,
        phase: PHASE,
        seconds: SECONDS,
        sequence: Sequence {
            first: number % MINUTES,
            second: 0,
            announced: false,
        },
    }
}

/// What the first so many entries tell of a millisecond. Of those that begin before it the last tells, if it is one of the last 64
/// and lasts as long.
pub fn told_by_first(count: u32, ms: u64) -> Told {
    let (Some(last), Some(since)) = (count.checked_sub(1), ms.checked_sub(PHASE as u64)) else {
        return Told::Unknown;
    };
    let second = since / STEP;
    let number = second.min(last as u64);
    let slot = second - number;
    if number + (LAST_ENTRIES as u64) < count as u64 || slot >= SECONDS as u64 {
        return Told::Unknown;
    }
    Told::At {
        minute: number as u32 % MINUTES,
        second: slot as u8,
    }
}

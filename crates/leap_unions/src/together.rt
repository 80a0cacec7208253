//! Walks that may meet a leap second, some of them together.

ghost use Rattle.std.specs.Prelude.{ℕ, ◌≡◌, ◌+◌, ◌^◌, ◌<◌, ◌≤◌, bit_or, slice_index};
ghost use Rattle.signal_base.specs.declared.limits.TheConstants.{MOST_SECONDS};
ghost use Rattle.leap_unions.specs.Kept.{IsKeptTape};
ghost use Rattle.leap_unions.specs.Walks.{AreTogether};

use crate::sets::Sets;
use crate::tapes::{KeptTape, TAPE_PLACES, Tape};
use minute_parts::SECONDS;
use signal_base::{MOST_SECONDS, Station};

/// What the walks from second `p` carry together that begin in some of a tape's minutes.
pub fn walks_of(kept: &KeptTape, _station: Station, _seconds: u16, p: u8, lo: u32, hi: u32) -> Sets
    requires few { _seconds ≤ MOST_SECONDS }
    requires kept { IsKeptTape _station _seconds kept.now }
    requires second { p < SECONDS }
    requires begun { kept.now.lo ≤ lo }
    requires ends { hi ≤ kept.now.hi }
    ensures { AreTogether (record { station = _station; seconds = _seconds }) p lo hi result }
{
    let mut sets = [0; MOST_SECONDS as usize];
    for first in lo..hi {
        let from = SECONDS * (first - kept.lo) as usize + p as usize;
        add_from(&mut sets, &kept.tape, from);
    }
    bytes_of(&sets);
    sets
}

// Adds what a tape has from a second on.
fn add_from(sets: &mut Sets, tape: &Tape, from: usize)
    requires { from + MOST_SECONDS ≤ TAPE_PLACES }
    ensures { (k : ℕ) → k < MOST_SECONDS → slice_index sets.new k ≡ bit_or (slice_index sets.old k) (slice_index tape.now (from + k)) }
{
    for k in 0..MOST_SECONDS as usize {
        sets[k] |= tape[from + k];
    }
}

// A set is a byte: this says so, and does nothing.
fn bytes_of(sets: &Sets)
    ensures { (k : ℕ) → k < MOST_SECONDS → slice_index sets.now k < 2 ^ 8 }
{
    for k in 0..MOST_SECONDS as usize {
        let _byte = sets[k];
    }
}

//! Rows that are kept.

ghost use Rattle.std.specs.Prelude.{ℕ, ◌≡◌, ◌+◌, ◌*◌, ◌<◌, ◌≤◌, bit_or, slice_index};

use crate::rows::{PLACES, Row};
use crate::tapes::Tape;
use minute_parts::SECONDS;

/// The row of the walks that begin in the minutes from `lo` up to, and without, `hi`.
#[derive(Clone, Copy)]
pub struct Kept {
    /// The first of the minutes.
    pub lo: u32,
    /// Their end.
    pub hi: u32,
    /// What the walks carry.
    pub row: Row,
}

/// Of no minutes, from the first of the century on.
pub fn nothing_kept() -> Kept
    ensures lo { result.lo ≡ 0 }
    ensures hi { result.hi ≡ 0 }
    ensures row { (i : ℕ) → slice_index result.row i ≡ 0 }
{
    Kept {
        lo: 0,
        hi: 0,
        row: [0; PLACES],
    }
}

/// The row of the minutes of both, where the one ends and the other begins.
pub fn joined(a: &Kept, b: &Kept) -> Kept
    ensures lo { result.lo ≡ a.now.lo }
    ensures hi { result.hi ≡ b.now.hi }
    ensures row { (i : ℕ) → i < PLACES → slice_index result.row i ≡ bit_or (slice_index a.now.row i) (slice_index b.now.row i) }
{
    Kept {
        lo: a.lo,
        hi: b.hi,
        row: joined_rows(&a.row, &b.row),
    }
}

// The sets of both rows together.
fn joined_rows(a: &Row, b: &Row) -> Row
    ensures { (i : ℕ) → i < PLACES → slice_index result i ≡ bit_or (slice_index a.now i) (slice_index b.now i) }
{
    let mut row = [0; PLACES];
    for i in 0..PLACES {
        row[i] = a[i] | b[i];
    }
    row
}

/// Adds to a row what the tape has from minute `m` on.
pub fn add_from_minute(row: &mut Row, tape: &Tape, m: usize)
    requires { m ≤ 20 }
    ensures { (i : ℕ) → i < PLACES → slice_index row.new i ≡ bit_or (slice_index row.old i) (slice_index tape.now (SECONDS * m + i)) }
{
    for i in 0..PLACES {
        row[i] |= tape[SECONDS * m + i];
    }
}

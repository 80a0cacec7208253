//! Sets of a window's slots.

ghost use Rattle.std.specs.Prelude.{ℕ, ◌≡◌, ◌+◌, ◌<◌, ◌≤◌, bit_or, length, slice_index};

use signal_base::MOST_SECONDS;

/// A set for each slot that a window can have.
pub type Sets = [u8; MOST_SECONDS as usize];

/// The sets of two, slot by slot together.
pub fn either(a: &Sets, b: &Sets) -> Sets
    ensures { (k : ℕ) → k < MOST_SECONDS → slice_index result k ≡ bit_or (slice_index a.now k) (slice_index b.now k) }
{
    let mut sets = [0; MOST_SECONDS as usize];
    for k in 0..MOST_SECONDS as usize {
        sets[k] = a[k] | b[k];
    }
    sets
}

/// The sets of a row or tape, from the second `from` on.
pub fn sets_from(row: &[u8], from: usize) -> Sets
    requires { from + MOST_SECONDS ≤ length row.now }
    ensures { (k : ℕ) → k < MOST_SECONDS → slice_index result k ≡ slice_index row.now (from + k) }
{
    let mut sets = [0; MOST_SECONDS as usize];
    for k in 0..MOST_SECONDS as usize {
        sets[k] = row[from + k];
    }
    sets
}

//! Rows: what walks carry in each second after the start of their first minute, whichever second they begin in.

ghost use Rattle.std.specs.Prelude.{ℕ, ◌≡◌, ◌+◌, ◌*◌, ◌<◌, ◌≤◌, IfSome, slice_index};
ghost use Rattle.minute_parts.specs.Layers.{AreLayers};
ghost use Rattle.minute_parts.specs.Unions.{AreRegular, IsUnionOver};

use minute_parts::{Layers, Part, SECONDS, Unions};
use signal_base::MOST_SECONDS;

/// The most seconds from the start of a walk's first minute to its end.
pub const PLACES: usize = MOST_SECONDS as usize + SECONDS;

/// How many minutes the walks of a row reach at most after their first one.
pub const MOST_REACH: u32 = 20;

/// A set for each of these seconds, counted from 0.
pub type Row = [u8; PLACES];

/// The unions of walks that begin in the minutes from `lo` up to, and without, `hi`, and reach `reach` minutes that have
/// 60 seconds each.
pub fn regular_row(unions: &Unions, announced: bool, lo: u32, hi: u32, reach: u32) -> Row
    requires some { lo < hi }
    requires reach { reach ≤ MOST_REACH }
    requires regular { AreRegular announced lo (hi + reach) unions.now.end }
    ensures { (m s : ℕ) → m ≤ reach → s < SECONDS → IsUnionOver unions.now.station announced (lo + m) (hi + m) s (slice_index result (SECONDS * m + s)) }
{
    let layers = unions.layers(announced, lo, hi, reach);
    let mut row = [0; PLACES];
    for m in 0..reach + 1 {
        let part = part_after(unions, announced, &layers, lo, hi, reach, m);
        put_part(&mut row, m as usize, &part);
    }
    row
}

// The union of the minutes in which these walks are `m` minutes after their first one.
fn part_after(
    unions: &Unions,
    announced: bool,
    layers: &Option<Layers>,
    lo: u32,
    hi: u32,
    reach: u32,
    m: u32,
) -> Part
    requires some { lo < hi }
    requires regular { AreRegular announced lo (hi + reach) unions.now.end }
    requires layers { IfSome layers.now (AreLayers unions.now.station announced lo hi reach) }
    requires reached { m ≤ reach }
    ensures { (s : ℕ) → s < SECONDS → IsUnionOver unions.now.station announced (lo + m) (hi + m) s (slice_index result s) }
{
    let Some(layers) = layers else {
        // What ends before it fits.
        unions.parts().end();
        return unions.over(announced, lo + m, hi + m);
    };
    if m == 0 { layers.first } else { layers.rest }
}

// Writes what is told of the seconds of a minute.
fn put_part(row: &mut Row, m: usize, part: &Part)
    requires { m ≤ MOST_REACH }
    ensures here { (s : ℕ) → s < SECONDS → slice_index row.new (SECONDS * m + s) ≡ slice_index part.now s }
    ensures before { (i : ℕ) → i < SECONDS * m → slice_index row.new i ≡ slice_index row.old i }
{
    for s in 0..SECONDS {
        row[SECONDS * m + s] = part[s];
    }
}

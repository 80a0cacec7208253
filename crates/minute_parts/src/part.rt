//! Parts of telegrams, one or two of them at a time.

ghost use Rattle.std.specs.Prelude.{ℕ, ◌≡◌, ◌<◌, bit_or, false, slice_index, true};
ghost use Rattle.minute_parts.specs.Overlay.{overlay};

/// How many seconds a part tells of.
pub const SECONDS: usize = 60;

/// What a part of a telegram tells of each second of a minute of 60: the set of symbols that it may carry, as a mask, or
/// 0 where the part tells nothing.
pub type Part = [u8; SECONDS];

/// A part that tells nothing.
pub fn nothing() -> Part
    ensures { (s : ℕ) → slice_index result s ≡ 0 }
{
    [0; SECONDS]
}

/// The part again, of bytes as each part is.
pub fn copied(part: &Part) -> Part
    ensures sets { (s : ℕ) → s < SECONDS → slice_index result s ≡ slice_index part.now s }
    ensures bytes { (s : ℕ) → s < SECONDS → slice_index result s < 256 }
{
    let mut copy = [0; SECONDS];
    for s in 0..SECONDS {
        copy[s] = part[s];
    }
    copy
}

/// The sets of two parts together, second by second.
pub fn either(a: &Part, b: &Part) -> Part
    ensures sets { (s : ℕ) → s < SECONDS → slice_index result s ≡ bit_or (slice_index a.now s) (slice_index b.now s) }
    ensures bytes { (s : ℕ) → s < SECONDS → slice_index result s < 256 }
{
    let mut part = [0; SECONDS];
    for s in 0..SECONDS {
        part[s] = a[s] | b[s];
    }
    part
}

/// What the time of day tells of each second, or what the date tells where it tells nothing.
pub fn overlaid(time: &Part, date: &Part) -> Part
    ensures sets { (s : ℕ) → s < SECONDS → slice_index result s ≡ overlay (slice_index time.now s) (slice_index date.now s) }
    ensures bytes { (s : ℕ) → s < SECONDS → slice_index result s < 256 }
{
    let mut part = [0; SECONDS];
    for s in 0..SECONDS {
        part[s] = if time[s] == 0 { date[s] } else { time[s] };
    }
    part
}

/// Whether two parts tell the same of each second.
pub fn same(a: &Part, b: &Part) -> bool
    ensures same { result ≡ true → (s : ℕ) → s < SECONDS → slice_index a.now s ≡ slice_index b.now s }
    ensures differ { result ≡ false → ((s : ℕ) → s < SECONDS → slice_index a.now s ≡ slice_index b.now s) → ⊥ }
{
    a == b
}

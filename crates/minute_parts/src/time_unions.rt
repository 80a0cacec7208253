//! Unions of what the time of day tells.

ghost use Rattle.std.specs.Prelude.{ℕ, List, ◌≡◌, ◌+◌, ◌*◌, ◌/◌, ◌%◌, ◌^◌, ◌<◌, ◌≤◌, IfOk, length, slice_index};
ghost use Rattle.definitions.specs.time.Calendar.{minutes_per_day};
ghost use Rattle.minute_parts.specs.Times.{IsLevelEntry, IsTimeTable, time_at};
ghost use Rattle.minute_parts.specs.declared.part.TheConstants.{SECONDS};
ghost use Rattle.minute_parts.specs.Unions.{IsUnionOf};

use crate::part::{Part, copied, either};
use crate::parts::Parts;
use std::alloc::{AllocError, Global};

/// The minutes of a day.
pub const DAY_MINUTES: usize = 1440;

/// There are unions of 1, 2, 4 and so on up to 1,024 minutes.
pub const LEVELS: usize = 11;

// How many minutes a union of this level has.
fn width(level: usize) -> usize
    requires { level < LEVELS }
    ensures { result ≡ 2 ^ level }
{
    1 << level
}

// The highest level whose unions have at most `n` minutes, where this is no more than a day.
fn level_of(n: usize) -> usize
    requires some { 1 ≤ n }
    requires day { n ≤ minutes_per_day }
    ensures is_level { result < LEVELS }
    ensures within { 2 ^ result ≤ n }
    ensures half { n ≤ 2 * 2 ^ result }
{
    n.ilog2() as usize
}

/// The unions of what the time of day tells.
pub fn time_table(alloc: Global, parts: &Parts) -> Result<Vec<Part>, AllocError>
    ensures { IfOk result (λ table. IsTimeTable parts.now.times table.items) }
{
    let mut table = Vec::with_capacity(alloc, LEVELS * DAY_MINUTES)?;
    for n in 0..LEVELS * DAY_MINUTES {
        let part = table_entry(&table, parts, n);
        table.push(part)?;
    }
    Ok(table)
}

// Entry `n` of the table, by the entries before it.
fn table_entry(table: &[Part], parts: &Parts, n: usize) -> Part
    requires end { n < LEVELS * minutes_per_day }
    requires count { length table.now ≡ n }
    requires each { (i : ℕ) → i < n → IsLevelEntry parts.now.times table.now i }
    ensures { (s : ℕ) → s < SECONDS → IsUnionOf (time_at parts.now.times s) (n % minutes_per_day) (n % minutes_per_day + 2 ^ (n / minutes_per_day)) (slice_index result s) }
{
    if n < DAY_MINUTES {
        return copied(parts.time_part(n as u16));
    }
    let u = n % DAY_MINUTES;
    let level = n / DAY_MINUTES - 1;
    let next = (u + width(level)) % DAY_MINUTES;
    either(
        &table[level * DAY_MINUTES + u],
        &table[level * DAY_MINUTES + next],
    )
}

/// What the time of day tells in the `n` minutes from minute `u` of the day on, all of them together.
pub fn time_union(table: &[Part], u: usize, n: usize) -> Part
    requires minute { u < minutes_per_day }
    requires some { 1 ≤ n }
    requires count { length table.now ≡ LEVELS * minutes_per_day }
    ensures { (times : List (List ℕ)) (s : ℕ) → IsTimeTable times table.now → s < SECONDS → IsUnionOf (time_at times s) u (u + n) (slice_index result s) }
{
    let most = n.min(DAY_MINUTES);
    let level = level_of(most);
    let last = (u + most - width(level)) % DAY_MINUTES;
    either(
        &table[level * DAY_MINUTES + u],
        &table[level * DAY_MINUTES + last],
    )
}

//! What each second carries minute by minute through a day.

ghost use Rattle.std.specs.Prelude.{◌≡◌, ◌<◌, ◌%◌, [], ℕ, IfOk, false, length, slice_index, slice_index_or, true};
ghost use Rattle.definitions.specs.time.Calendar.{minutes_per_day};
ghost use Rattle.slot_columns.specs.declared.limits.TheConstants.{SETS};
ghost use Rattle.slot_columns.specs.Days.{AreDayColumns, AreOfDay, hour_begin};
ghost use Rattle.slot_columns.specs.Parts.{entry};
ghost use Rattle.slot_columns.specs.Rows.{index_of};

use crate::limits::{DAY_MINUTES, HOUR_MINUTES, REACHED_MINUTES, SECONDS_PER_MINUTE};
use crate::part::Part;
use crate::slots::index_of;
use std::alloc::{AllocError, Global};
use std::marker::Model;

/// Where the sets stand in a row that one second carries: in the minutes of a day, and in those after it that a walk
/// may reach, which are the day's first again.
pub type DayColumn = [u8; REACHED_MINUTES];

/// What the minutes of a day carry, second by second.
#[derive(Drop)]
pub struct Day {
    columns: Vec<DayColumn>,
    used: [bool; SECONDS_PER_MINUTE],
    hourly: [bool; SECONDS_PER_MINUTE],
    steady: [bool; SECONDS_PER_MINUTE],
}

impl Model for Day {
    ghost use Rattle.std.specs.Prelude.{List, ℕ};
    ghost use Rattle.slot_columns.specs.Days.{AreDayColumns};

    ghost Value = { List (List ℕ) };

    ghost view = { λ d. d.columns.items };

    ghost invariant = { λ d. AreDayColumns d.columns.items d.used d.hourly d.steady };
}

impl Day {
    /// Takes the parts of a day's minutes.
    pub fn make(alloc: Global, times: &[Part]) -> Result<Day, AllocError>
        requires { length times.now ≡ minutes_per_day }
        ensures { IfOk result (λ day. AreOfDay day times.now) }
    {
        let mut columns = Vec::with_capacity(alloc, SECONDS_PER_MINUTE)?;
        let mut used = [false; SECONDS_PER_MINUTE];
        let mut hourly = [false; SECONDS_PER_MINUTE];
        let mut steady = [false; SECONDS_PER_MINUTE];
        for s in 0..SECONDS_PER_MINUTE {
            let column = column_of(times, s);
            used[s] = is_used(&column);
            hourly[s] = is_hourly(&column);
            steady[s] = is_steady(&column);
            columns.push(column)?;
        }
        Ok(Day {
            columns,
            used,
            hourly,
            steady,
        })
    }

    /// What a second carries.
    pub fn column(&self, s: usize) -> &DayColumn
        requires { s < SECONDS_PER_MINUTE }
        ensures column { (i : ℕ) → slice_index result.now i ≡ entry self.now s i }
        ensures bound { (i : ℕ) → i < REACHED_MINUTES → slice_index result.now i < SETS }
    {
        &self.columns[s]
    }

    /// Whether some minute may have a set that costs something in this second.
    pub fn is_used(&self, s: usize) -> bool
        requires { s < SECONDS_PER_MINUTE }
        ensures { result ≡ false → (i : ℕ) → i < REACHED_MINUTES → entry self.now s i ≡ 0 }
    {
        self.used[s]
    }

    /// Whether a second is known to carry the same in each hour, minute by minute.
    pub fn is_hourly(&self, s: usize) -> bool
        requires { s < SECONDS_PER_MINUTE }
        ensures { result ≡ true → (i : ℕ) → i < REACHED_MINUTES → entry self.now s i ≡ entry self.now s (i % HOUR_MINUTES) }
    {
        self.hourly[s]
    }

    /// Whether a second is known to carry the same in all minutes of an hour.
    pub fn is_steady(&self, s: usize) -> bool
        requires { s < SECONDS_PER_MINUTE }
        ensures { result ≡ true → (i : ℕ) → i < REACHED_MINUTES → entry self.now s i ≡ entry self.now s (hour_begin i) }
    {
        self.steady[s]
    }
}

// The column of second `s`.
fn column_of(times: &[Part], s: usize) -> DayColumn
    requires day { length times.now ≡ minutes_per_day }
    requires second { s < SECONDS_PER_MINUTE }
    ensures sets { (i : ℕ) → i < REACHED_MINUTES → slice_index result i ≡ index_of (slice_index (slice_index_or times.now (i % minutes_per_day) []) s) }
    ensures bound { (i : ℕ) → i < REACHED_MINUTES → slice_index result i < SETS }
{
    let mut column = [0; REACHED_MINUTES];
    for i in 0..REACHED_MINUTES {
        column[i] = index_of(times[i % DAY_MINUTES][s]) as u8;
    }
    column
}

// Whether a set of the column may cost something.
fn is_used(column: &DayColumn) -> bool
    ensures { result ≡ false → (i : ℕ) → i < REACHED_MINUTES → slice_index column.now i ≡ 0 }
{
    column.iter().any(|index| *index != 0)
}

// Whether the column begins again with each hour.
fn is_hourly(column: &DayColumn) -> bool
    ensures { result ≡ true → (i : ℕ) → i < REACHED_MINUTES → slice_index column.now i ≡ slice_index column.now (i % HOUR_MINUTES) }
{
    for i in 0..REACHED_MINUTES {
        if column[i] != column[i % HOUR_MINUTES] {
            return false;
        }
    }
    true
}

// Whether the column stays as it is through each hour.
fn is_steady(column: &DayColumn) -> bool
    ensures { result ≡ true → (i : ℕ) → i < REACHED_MINUTES → slice_index column.now i ≡ slice_index column.now (hour_begin i) }
{
    for i in 0..REACHED_MINUTES {
        if column[i] != column[i / HOUR_MINUTES * HOUR_MINUTES] {
            return false;
        }
    }
    true
}

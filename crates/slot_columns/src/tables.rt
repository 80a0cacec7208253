//! The tables: what each set costs in each second of walk minute 0, and in that second of all later minutes together.

ghost use Rattle.std.specs.Prelude.{◌≡◌, ◌+◌, ◌*◌, ◌<◌, ◌≤◌, ◌^◌, ℕ, IfOk, false, length, min, slice_index};
ghost use Rattle.signal_base.specs.declared.limits.TheConstants.{MOST_RECEIVERS};
ghost use Rattle.symbol_cost.specs.declared.limits.TheConstants.{RECEIVER_COST};
ghost use Rattle.slot_columns.specs.declared.limits.TheConstants.{COLUMNS};
ghost use Rattle.slot_columns.specs.Layered.{HaveRoom};
ghost use Rattle.slot_columns.specs.Rows.{index_of};
ghost use Rattle.slot_columns.specs.Tables.{AreColumns, at_place, columns_cost, in_first, in_later, lesser_cost};

use crate::limits::{COLUMNS, LATER_MINUTES, SECONDS_PER_MINUTE, SETS};
use crate::part::Part;
use crate::slots::{Row, SlotCosts, index_of, no_costs};
use std::alloc::{AllocError, Global};

/// A column for each first second and each second: what the sets cost in walk minute 0.
pub fn first_columns(alloc: Global, slots: &SlotCosts) -> Result<Vec<Row>, AllocError>
    ensures { IfOk result (λ columns. AreColumns columns.items (in_first slots.now)) }
{
    let mut columns = Vec::with_capacity(alloc, COLUMNS)?;
    for i in 0..COLUMNS {
        columns.push(column_at(slots, i / SECONDS_PER_MINUTE, i % SECONDS_PER_MINUTE))?;
    }
    Ok(columns)
}

/// A column for each first second and each second: what the sets cost in all walk minutes but the first.
pub fn later_columns(alloc: Global, slots: &SlotCosts) -> Result<Vec<Row>, AllocError>
    ensures { IfOk result (λ columns. AreColumns columns.items (in_later slots.now)) }
{
    let mut columns = Vec::with_capacity(alloc, COLUMNS)?;
    for i in 0..COLUMNS {
        columns.push(later_column(slots, i / SECONDS_PER_MINUTE, i % SECONDS_PER_MINUTE))?;
    }
    Ok(columns)
}

// What the sets cost in second `s` of all minutes but the first.
fn later_column(slots: &SlotCosts, p: usize, s: usize) -> Row
    requires { s < SECONDS_PER_MINUTE }
    ensures { (set : ℕ) → set < SETS → slice_index result set ≡ in_later slots.now p s set }
{
    let mut sums = no_costs();
    for m in 0..LATER_MINUTES {
        let column = column_at(slots, p, SECONDS_PER_MINUTE * (m + 1) + s);
        add(&mut sums, &column);
    }
    sums
}

// What they cost in the slot at place `i` of a walk that begins in second `p`: second `i % 60` of walk minute `i / 60`.
fn column_at(slots: &SlotCosts, p: usize, i: usize) -> Row
    ensures costs { (set : ℕ) → set < SETS → slice_index result set ≡ at_place slots.now p set i }
    ensures small { (set : ℕ) → set < SETS → slice_index result set ≤ MOST_RECEIVERS * RECEIVER_COST }
{
    if p <= i && i - p < slots.seconds() {
        *slots.row(i - p)
    } else {
        no_costs()
    }
}

// Adds a row's costs to others.
fn add(sums: &mut Row, row: &Row)
    requires { (set : ℕ) → set < SETS → slice_index sums.old set + slice_index row.now set < 2 ^ 32 }
    ensures { (set : ℕ) → set < SETS → slice_index sums.new set ≡ slice_index sums.old set + slice_index row.now set }
{
    for set in 0..SETS {
        sums[set] += row[set];
    }
}

/// The costs of two rows together.
pub fn sum_of_rows(a: &Row, b: &Row) -> Row
    requires { (set : ℕ) → set < SETS → slice_index a.now set + slice_index b.now set < 2 ^ 32 }
    ensures { (set : ℕ) → set < SETS → slice_index result set ≡ slice_index a.now set + slice_index b.now set }
{
    let mut sums = *a;
    add(&mut sums, b);
    sums
}

/// Sums the columns of first second `p`: what a part costs in walk minute 0, and another in all later minutes.
pub fn sum_of_columns(
    first: &[Row],
    later: &[Row],
    p: usize,
    in_first: &Part,
    in_later: &Part,
) -> u32
    requires first { length first.now ≡ COLUMNS }
    requires later { length later.now ≡ COLUMNS }
    requires second { p < SECONDS_PER_MINUTE }
    requires room { columns_cost first.now later.now p in_first.now in_later.now < 2 ^ 32 }
    ensures { result ≡ columns_cost first.now later.now p in_first.now in_later.now }
{
    let begin = SECONDS_PER_MINUTE * p;
    let mut cost = 0;
    for s in 0..SECONDS_PER_MINUTE {
        cost += first[begin + s][index_of(in_first[s])] + later[begin + s][index_of(in_later[s])];
    }
    cost
}

/// Sums the columns of first second `p`: of each second the lesser of what two parts cost there in all minutes.
pub fn sum_of_lesser(first: &[Row], later: &[Row], p: usize, one: &Part, other: &Part) -> u32
    requires first { length first.now ≡ COLUMNS }
    requires later { length later.now ≡ COLUMNS }
    requires second { p < SECONDS_PER_MINUTE }
    requires rows { HaveRoom first.now later.now }
    requires room { lesser_cost first.now later.now p one.now other.now < 2 ^ 32 }
    ensures { result ≡ lesser_cost first.now later.now p one.now other.now }
{
    let begin = SECONDS_PER_MINUTE * p;
    let mut cost = 0;
    for s in 0..SECONDS_PER_MINUTE {
        cost += lesser_of(&first[begin + s], &later[begin + s], one[s], other[s]);
    }
    cost
}

// What the cheaper of two sets costs in two rows together.
fn lesser_of(first: &Row, later: &Row, one: u8, other: u8) -> u32
    requires { (set : ℕ) → set < SETS → slice_index first.now set + slice_index later.now set < 2 ^ 32 }
    ensures { result ≡ min (slice_index first.now (index_of one) + slice_index later.now (index_of one)) (slice_index first.now (index_of other) + slice_index later.now (index_of other)) }
{
    let one = index_of(one);
    let other = index_of(other);
    (first[one] + later[one]).min(first[other] + later[other])
}

//! The rows of a grid: a row for each slot of a window, and how they are moved to a later window.

ghost use Rattle.std.specs.Prelude.{◌≡◌, ◌+◌, ◌-◌, ◌*◌, ◌<◌, ◌≤◌, ℕ, [], IfOk, length, slice_index_or};
ghost use Rattle.std.specs.List.{All};
ghost use Rattle.signal_base.specs.Limits.{IsPriced, IsTuned};
ghost use Rattle.definitions.specs.heard.Receivers.{receptions};
ghost use Rattle.definitions.specs.heard.Costs.{slot_cost};
ghost use Rattle.symbol_cost.specs.Grid.{AreRows, AreSmall, cost_at};

use crate::limits::SECOND;
use crate::receivers::add_receiver;
use crate::second::Row;
use pulse_log::Log;
use signal_base::{CostTable, MOST_RECEIVERS, MOST_SECONDS, START_LIMIT, Station, Tuning};
use std::alloc::{AllocError, Global};

/// The rows of so many slots, of which the first begins at millisecond `begin`.
pub fn rows_of(
    alloc: Global,
    station: Station,
    tunings: &[Tuning],
    table: &CostTable,
    logs: &[Log],
    begin: u64,
    seconds: u16,
) -> Result<Vec<Row>, AllocError>
    requires few { length tunings.now ≤ MOST_RECEIVERS }
    requires logs { length logs.now ≡ length tunings.now }
    requires tuned { All IsTuned tunings.now }
    requires priced { IsPriced table.now }
    requires begin { begin < START_LIMIT + SECOND }
    requires seconds { seconds ≤ MOST_SECONDS }
    ensures { IfOk result (λ rows. AreRows rows.items station seconds (length tunings.now) (slot_cost table.now (receptions tunings.now logs.now) station begin)) }
{
    let mut rows = vec![in alloc; [0; 5]; seconds as usize]?;
    score(rows.as_mut_slice(), station, tunings, table, logs, begin);
    Ok(rows)
}

/// Moves the rows of a window, whose first slot begins at millisecond `begin`, to the window that begins `by` seconds later.
pub fn move_on(
    rows: &mut [Row],
    station: Station,
    tunings: &[Tuning],
    table: &CostTable,
    logs: &[Log],
    begin: u64,
    by: u16,
)
    requires few { length tunings.now ≤ MOST_RECEIVERS }
    requires logs { length logs.now ≡ length tunings.now }
    requires tuned { All IsTuned tunings.now }
    requires priced { IsPriced table.now }
    requires begin { begin + SECOND * by < START_LIMIT + SECOND }
    requires slots { length rows.old ≤ MOST_SECONDS }
    requires small { AreSmall (length tunings.now) rows.old }
    ensures slots { length rows.new ≡ length rows.old }
    ensures small { AreSmall (length tunings.now) rows.new }
    ensures costs { (n : ℕ) → AreRows rows.old station n (length tunings.now) (slot_cost table.now (receptions tunings.now logs.now) station begin)
        → AreRows rows.new station n (length tunings.now) (slot_cost table.now (receptions tunings.now logs.now) station (begin + SECOND * by)) }
{
    let kept = keep(rows, by as usize);
    let later = begin + SECOND * by as u64 + SECOND * kept as u64;
    score(&mut rows[kept..], station, tunings, table, logs, later);
}

// Moves the rows to the front by so many places, and frees of cost those at the end that none was moved to. Answers how many
// were moved.
fn keep(rows: &mut [Row], by: usize) -> usize
    ensures count { result ≡ length rows.old - by }
    ensures slots { length rows.new ≡ length rows.old }
    ensures moved { (k : ℕ) → k < result → slice_index_or rows.new k [] ≡ slice_index_or rows.old (k + by) [] }
    ensures free { (k x : ℕ) → result ≤ k → cost_at rows.new k x ≡ 0 }
{
    let kept = rows.len().saturating_sub(by);
    for k in 0..kept {
        rows[k] = rows[k + by];
    }
    free(rows, kept);
    kept
}

// Frees of cost the rows from one place on.
fn free(rows: &mut [Row], from: usize)
    requires { from ≤ length rows.old }
    ensures slots { length rows.new ≡ length rows.old }
    ensures kept { (k : ℕ) → k < from → slice_index_or rows.new k [] ≡ slice_index_or rows.old k [] }
    ensures free { (k x : ℕ) → from ≤ k → cost_at rows.new k x ≡ 0 }
{
    for k in from..rows.len() {
        rows[k] = [0; 5];
    }
}

// Scores rows that are free of cost: adds what the symbols cost each receiver. The first slot begins at millisecond `begin`.
fn score(
    rows: &mut [Row],
    station: Station,
    tunings: &[Tuning],
    table: &CostTable,
    logs: &[Log],
    begin: u64,
)
    requires few { length tunings.now ≤ MOST_RECEIVERS }
    requires logs { length logs.now ≡ length tunings.now }
    requires tuned { All IsTuned tunings.now }
    requires priced { IsPriced table.now }
    requires begin { begin < START_LIMIT + (MOST_SECONDS + 1) * SECOND }
    requires slots { length rows.old ≤ MOST_SECONDS }
    requires free { (k x : ℕ) → cost_at rows.old k x ≡ 0 }
    ensures { AreRows rows.new station (length rows.old) (length tunings.now) (slot_cost table.now (receptions tunings.now logs.now) station begin) }
{
    for i in 0..tunings.len() {
        add_receiver(rows, station, table, &tunings[i], &logs[i], begin);
    }
}

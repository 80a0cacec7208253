//! Windows that follow one another, each decoded by the grids of the one before, which are moved to it.

ghost use Rattle.std.specs.Prelude.{◌≡◌, ◌+◌, ◌-◌, ◌*◌, ◌<◌, ◌≤◌, All, IfErr, IfOk, true, false};
ghost use Rattle.signal_base.specs.declared.limits.TheConstants.{START_LIMIT};
ghost use Rattle.definitions.specs.sequences.Windows.{IsWindow};
ghost use Rattle.field_tables.specs.Scopes.{scopes_of};
ghost use Rattle.follow_due.specs.Windows.{AreReportsOf, IsReportOf, StartInTime, StartTooLate, window_after, windows_from};
ghost use Rattle.bank.specs.declared.stop.Stop.TheVariants.{NoMemory};
ghost use Rattle.bank.specs.Hearing.{AreBankGrids, IsBank, bank_seen};
ghost use Rattle.bank.specs.Tasks.{AreWorkers};
ghost use Rattle.follow.specs.Finding.{CanBeReported};

use crate::window_gate::WindowGate;
use bank::{Bank, Stop, advance_grids, decode_window_by, grids_of};
use civil::Civil;
use field_tables::{StationParts, parts_of};
use follow_due::{Reports, WindowReport};
use formats::{MOST_COUNT, MOST_STEP};
use signal_base::Window;
use std::alloc::Global;
use std::thread::Threads;
use symbol_cost::CostGrid;
use workers::Gate;

/// Whether the last of so many windows starts too late.
pub fn starts_too_late(first: &Window, step: u16, count: u16) -> bool
    requires start { first.now.start < START_LIMIT }
    requires step { step ≤ MOST_STEP }
    requires count { (1 ≤ count) × (count ≤ MOST_COUNT) }
    ensures late { result ≡ true → StartTooLate first.now step count }
    ensures in_time { result ≡ false → StartInTime first.now step count }
{
    window_after(first, step, count - 1).start >= signal_base::START_LIMIT
}

/// Decodes so many windows of a bank, from the first one on, each a step after the one before. The grids are made once, and
/// moved from window to window; what the stations may send is made once for all windows.
pub fn decode_windows<R: Threads + Sync, G: Gate + WindowGate + Sync>(
    rt: &R,
    alloc: Global,
    civil: &Civil,
    bank: &Bank,
    first: &Window,
    step: u16,
    count: u16,
    workers: u8,
    gate: &G,
) -> Result<Reports, Stop>
    requires bank { IsBank bank.now }
    requires window { IsWindow first.now }
    requires step { step ≤ MOST_STEP }
    requires count { count ≤ MOST_COUNT }
    requires last { StartInTime first.now step count }
    requires workers { AreWorkers workers }
    ensures told { IfOk result (AreReportsOf (bank_seen bank.now) (windows_from first.now step count)) }
    ensures can_be_written { IfOk result (All CanBeReported) }
    ensures memory { IfErr result (λ stop. stop ≡ NoMemory) }
{
    let parts = parts_of(alloc, civil, first)?;
    let mut grids = grids_of(alloc, bank, first)?;
    let mut reports = Vec::new(alloc);
    for i in 0..count {
        gate.come_to(i + 1, count);
        let window = move_to(&mut grids, bank, first, step, i);
        let told = report_of(
            rt,
            alloc,
            civil,
            bank,
            &parts,
            grids.as_slice(),
            window,
            workers,
            gate,
        )?;
        reports.push(told)?;
    }
    Ok(Reports::new(reports))
}

/// What is told of a window, whose grids these are.
pub fn report_of<R: Threads + Sync, G: Gate + Sync>(
    rt: &R,
    alloc: Global,
    civil: &Civil,
    bank: &Bank,
    parts: &[StationParts],
    grids: &[CostGrid],
    window: Window,
    workers: u8,
    gate: &G,
) -> Result<WindowReport, Stop>
    requires bank { IsBank bank.now }
    requires window { IsWindow window }
    requires parts { parts.now ≡ scopes_of window.stations window.seconds }
    requires grids { AreBankGrids bank.now window grids.now }
    requires workers { AreWorkers workers }
    ensures told { IfOk result (IsReportOf (bank_seen bank.now) window) }
    ensures can_be_written { IfOk result CanBeReported }
    ensures memory { IfErr result (λ stop. stop ≡ NoMemory) }
{
    let ceiling = bank.ceiling;
    let decoded = decode_window_by(
        rt, alloc, civil, parts, grids, window, ceiling, workers, gate,
    )?;
    Ok(WindowReport {
        window: decoded.window,
        answer: decoded.answer,
        duts: decoded.duts,
    })
}

/// Moves the grids of the window before to the window of this place, and answers that. Those of the first window stay as they
/// are.
pub fn move_to(grids: &mut Vec<CostGrid>, bank: &Bank, first: &Window, step: u16, i: u16) -> Window
    requires bank { IsBank bank.now }
    requires window { IsWindow first.now }
    requires step { step ≤ MOST_STEP }
    requires place { i ≤ MOST_COUNT }
    requires start { first.now.start + 1000 * (step * i) < START_LIMIT }
    requires grids { AreBankGrids bank.now (window_after first.now step (i - 1)) grids.old.items }
    ensures window { result ≡ window_after first.now step i }
    ensures in_range { IsWindow result }
    ensures grids { AreBankGrids bank.now result grids.new.items }
{
    let window = window_after(first, step, i);
    if i == 0 {
        return window;
    }
    let before = window_after(first, step, i - 1);
    advance_grids(grids.as_mut_slice(), bank, &before, step);
    window
}

// The window that starts so many steps after the first one.
fn window_after(first: &Window, step: u16, i: u16) -> Window
    requires start { first.now.start < START_LIMIT }
    requires step { step ≤ MOST_STEP }
    requires place { i ≤ MOST_COUNT }
    ensures { result ≡ window_after first.now step i }
{
    Window {
        stations: first.stations,
        start: first.start + 1000 * seconds_after(step, i),
        phase: first.phase,
        seconds: first.seconds,
        from: first.from,
        to: first.to,
    }
}

// How many seconds so many steps take.
fn seconds_after(step: u16, i: u16) -> u64
    requires step { step ≤ MOST_STEP }
    requires place { i ≤ MOST_COUNT }
    ensures seconds { result ≡ step * i }
    ensures bound { result ≤ MOST_STEP * MOST_COUNT }
{
    step as u64 * i as u64
}

//! The searches of a sweep, one at each phase.

ghost use Rattle.std.specs.Prelude.{◌≡◌, ◌<◌, ◌≤◌, IfErr, IfOk, List, true, ℕ};
ghost use Rattle.std.specs.Option.{ForSome};
ghost use Rattle.definitions.specs.sequences.Windows.{IsWindow};
ghost use Rattle.field_tables.specs.Scopes.{scopes_of};
ghost use Rattle.sweep_due.specs.declared.offsets.TheConstants.{OFFSETS};
ghost use Rattle.sweep_due.specs.Phases.{IsSwept, is_swept, window_at};
ghost use Rattle.sweep_due.specs.Searches.{IsSearched, IsSearchedAt};
ghost use Rattle.sweep_due.specs.Standings.{ceiling_after, window_told};
ghost use Rattle.bank.specs.declared.stop.Stop.TheVariants.{NoMemory};
ghost use Rattle.bank.specs.Hearing.{IsBank, bank_seen};
ghost use Rattle.bank.specs.Tasks.{AreWorkers};
ghost use Rattle.sweep.specs.Turns.{offset_at, offsets_of, with_offset};

use crate::phase_gate::PhaseGate;
use crate::turns::{count_swept, offset_at};
use bank::{Bank, Stop, decide_by, grids_of};
use civil::Civil;
use field_tables::{
    StationParts, agreeing_costs_cost_alike, grids_agree_with_their_costs, parts_of,
};
use sequence::cost_of;
use signal_base::Window;
use std::alloc::Global;
use std::thread::Threads;
use sweep_due::{OFFSETS, Standing, is_swept, phase_at};
use workers::Gate;

/// Searches at each offset that is swept, where the window is that of a decode. What depends on its stations and its length
/// alone is made once.
pub fn search_phases<R: Threads + Sync, G: Gate + PhaseGate + Sync>(
    rt: &R,
    alloc: Global,
    civil: &Civil,
    bank: &Bank,
    window: &Window,
    workers: u8,
    gate: &G,
) -> Result<Standing, Stop>
    requires bank { IsBank bank.now }
    requires window { IsWindow window.now }
    requires workers { AreWorkers workers }
    ensures searched { IfOk result (IsSearched window.now (bank_seen bank.now) (offsets_of window.now.phase OFFSETS)) }
    ensures memory { IfErr result (λ stop. stop ≡ NoMemory) }
{
    let Ok(parts) = parts_of(alloc, civil, window) else {
        return Err(Stop::NoMemory);
    };
    let mut standing = Standing::new();
    for turn in 0..OFFSETS {
        standing = come_to(
            rt, alloc, civil, &parts, bank, window, turn, standing, workers, gate,
        )?;
    }
    Ok(standing)
}

// Searches at the offset of a turn, if it is swept.
fn come_to<R: Threads + Sync, G: Gate + PhaseGate + Sync>(
    rt: &R,
    alloc: Global,
    civil: &Civil,
    parts: &[StationParts],
    bank: &Bank,
    window: &Window,
    turn: u8,
    before: Standing,
    workers: u8,
    gate: &G,
) -> Result<Standing, Stop>
    requires parts { parts.now ≡ scopes_of window.now.stations window.now.seconds }
    requires bank { IsBank bank.now }
    requires window { IsWindow window.now }
    requires turn { turn < OFFSETS }
    requires workers { AreWorkers workers }
    ensures searched { IfOk result (λ after. (earlier : List ℕ) → IsSearched window.now (bank_seen bank.now) earlier before
        → IsSearched window.now (bank_seen bank.now) (with_offset window.now.phase (offset_at turn) earlier) after) }
    ensures memory { IfErr result (λ stop. stop ≡ NoMemory) }
{
    let offset = offset_at(turn);
    if is_swept(window.phase, offset) {
        let number = count_swept(window.phase, turn) + 1;
        gate.come_to_phase(number, count_swept(window.phase, OFFSETS));
        return search_at(
            rt, alloc, civil, parts, bank, window, offset, before, workers, gate,
        );
    }
    Ok(before)
}

// Searches at an offset that is swept, under the ceiling that the standing leaves.
fn search_at<R: Threads + Sync, G: Gate + Sync>(
    rt: &R,
    alloc: Global,
    civil: &Civil,
    parts: &[StationParts],
    bank: &Bank,
    window: &Window,
    offset: u8,
    before: Standing,
    workers: u8,
    gate: &G,
) -> Result<Standing, Stop>
    requires parts { parts.now ≡ scopes_of window.now.stations window.now.seconds }
    requires bank { IsBank bank.now }
    requires window { IsWindow window.now }
    requires offset { offset < OFFSETS }
    requires swept { is_swept window.now.phase offset ≡ true }
    requires workers { AreWorkers workers }
    ensures searched { IfOk result (IsSearchedAt window.now (bank_seen bank.now) offset before) }
    ensures memory { IfErr result (λ stop. stop ≡ NoMemory) }
{
    agreeing_costs_cost_alike();
    grids_agree_with_their_costs();
    let moved = window_at(window, offset);
    let grids = grids_of(alloc, bank, &moved)?;
    let ceiling = ceiling_after(bank.ceiling, before);
    let found = decide_by(
        rt,
        alloc,
        civil,
        parts,
        grids.as_slice(),
        &moved,
        ceiling,
        workers,
        gate,
    )?;
    Ok(before.with_two(offset, found.first, found.second))
}

/// The window at an offset that is swept, where this is that of a decode.
pub fn window_at(window: &Window, offset: u8) -> Window
    requires window { IsWindow window.now }
    requires offset { offset < OFFSETS }
    requires swept { is_swept window.now.phase offset ≡ true }
    ensures window { result ≡ window_at window.now offset }
    ensures in_range { IsWindow result }
{
    Window {
        stations: window.stations,
        start: window.start,
        phase: phase_at(window.phase, offset),
        seconds: window.seconds,
        from: window.from,
        to: window.to,
    }
}

/// The window that is told with what stands: at the offset of the first sequence, or that of the decode where there is none.
pub fn told_window(window: &Window, standing: Standing) -> Window
    requires window { IsWindow window.now }
    requires swept { ForSome standing.first (λ p. IsSwept window.now.phase p.offset) }
    ensures window { result ≡ window_told window.now standing }
    ensures in_range { IsWindow result }
{
    match standing.first {
        Some(first) => window_at(window, first.offset),
        None => *window,
    }
}

// The ceiling of the next search: the cost of the second so far, where there is one and it is lower.
fn ceiling_after(ceiling: u32, standing: Standing) -> u32
    ensures value { result ≡ ceiling_after ceiling standing }
    ensures bound { result ≤ ceiling }
{
    match standing.second {
        Some(second) => ceiling.min(cost_of(second)),
        None => ceiling,
    }
}

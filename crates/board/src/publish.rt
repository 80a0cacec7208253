//! The tracker's part: windows that follow one another are decoded, and the entry of each decided one is published.

ghost use Rattle.std.specs.Prelude.{◌≡◌, ◌≤◌, ◌+◌, ◌++◌, ◌∷◌, [], IfErr, OnOk, length, map};
ghost use Rattle.definitions.specs.sequences.Windows.{IsWindow};
ghost use Rattle.follow_due.specs.Windows.{StartInTime};
ghost use Rattle.formats.specs.declared.words.TheConstants.{MOST_COUNT, MOST_STEP};
ghost use Rattle.board_entries.specs.Plain.{plain};
ghost use Rattle.board_due.specs.BoardAnswers.{entry_of};
ghost use Rattle.clock_board.specs.Seats.{published};
ghost use Rattle.bank.specs.declared.stop.Stop.TheVariants.{NoMemory};
ghost use Rattle.bank.specs.Hearing.{IsBank, bank_seen};
ghost use Rattle.bank.specs.Tasks.{AreWorkers};
ghost use Rattle.follow.specs.Finding.{CanBeReported};
ghost use Rattle.board.specs.Publishing.{ArePublished, listed};

use bank::{Bank, Stop, grids_of};
use board_entries::Entry;
use civil::Civil;
use clock_board::Tracker;
use definitions::Answer;
use field_tables::parts_of;
use follow::{WindowGate, move_to, report_of};
use follow_due::WindowReport;
use signal_base::Window;
use std::alloc::Global;
use std::sync::Wait;
use std::thread::Threads;
use workers::Gate;

/// Decodes so many windows of a bank, from the first one on, each a step after the one before, and publishes the entry of each that
/// is decided.
pub fn publish_windows<R: Threads + Wait + Sync, G: Gate + WindowGate + Sync>(
    rt: &R,
    alloc: Global,
    civil: &Civil,
    bank: &Bank,
    first: &Window,
    step: u16,
    count: u16,
    workers: u8,
    gate: &G,
    tracker: &mut Tracker,
    entries: &mut Vec<Entry>,
) -> Result<(), Stop>
    requires bank { IsBank bank.now }
    requires window { IsWindow first.now }
    requires step { step ≤ MOST_STEP }
    requires count { count ≤ MOST_COUNT }
    requires last { StartInTime first.now step count }
    requires workers { AreWorkers workers }
    requires begun { (published tracker.old ≡ []) × (entries.old.items ≡ []) }
    ensures published { OnOk result (ArePublished (bank_seen bank.now) first.now step count entries.new.items) }
    ensures memory { IfErr result (λ stop. stop ≡ NoMemory) }
{
    let parts = parts_of(alloc, civil, first)?;
    let mut grids = grids_of(alloc, bank, first)?;
    for i in 0..count {
        gate.come_to(i + 1, count);
        let window = move_to(&mut grids, bank, first, step, i);
        let told = report_of(
            rt,
            alloc,
            civil,
            bank,
            &parts,
            grids.as_slice(),
            window,
            workers,
            gate,
        )?;
        publish_told(rt, tracker, entries, &told)?;
    }
    Ok(())
}

// Publishes the entry of a window, where it is decided, and keeps it.
fn publish_told<R: Wait>(
    rt: &R,
    tracker: &mut Tracker,
    entries: &mut Vec<Entry>,
    told: &WindowReport,
) -> Result<(), Stop>
    requires window { IsWindow told.now.window }
    requires reported { CanBeReported told.now }
    requires same { published tracker.old ≡ entries.old.items }
    requires few { length entries.old.items ≤ MOST_COUNT }
    ensures kept { OnOk result (map plain entries.new.items ≡ map plain entries.old.items ++ entry_of told.now.window told.now.answer) }
    ensures same { OnOk result (published tracker.new ≡ entries.new.items) }
    ensures few { OnOk result (length entries.new.items ≤ length entries.old.items + 1) }
    ensures memory { IfErr result (λ stop. stop ≡ NoMemory) }
{
    match entry_of(told) {
        None => Ok(()),
        Some(entry) => publish(rt, tracker, entries, entry),
    }
}

// Publishes an entry, and keeps it.
fn publish<R: Wait>(
    rt: &R,
    tracker: &mut Tracker,
    entries: &mut Vec<Entry>,
    entry: Entry,
) -> Result<(), Stop>
    requires { length (published tracker.old) ≤ MOST_COUNT }
    ensures published { OnOk result (published tracker.new ≡ published tracker.old ++ entry ∷ []) }
    ensures kept { OnOk result (entries.new.items ≡ entries.old.items ++ entry ∷ []) }
    ensures memory { IfErr result (λ stop. stop ≡ NoMemory) }
{
    entries.push(entry)?;
    let Ok(()) = tracker.publish(rt, entry) else {
        return Err(Stop::NoMemory);
    };
    Ok(())
}

// The entry of a window, where it is decided.
fn entry_of(told: &WindowReport) -> Option<Entry>
    requires window { IsWindow told.now.window }
    requires reported { CanBeReported told.now }
    ensures { entry_of told.now.window told.now.answer ≡ listed result }
{
    let Answer::Decided { sequence, .. } = told.answer else {
        return None;
    };
    Some(Entry {
        start: told.window.start,
        phase: told.window.phase,
        seconds: told.window.seconds,
        sequence,
    })
}

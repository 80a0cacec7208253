//! Finding what is due of `sweep`. Nothing here writes to a file.

ghost use Rattle.std.specs.Prelude.{◌≡◌, ◌≢◌, Err, IfErr, IfOk, IsErrOf, List, ℕ};
ghost use Rattle.bank_files.specs.Seen.{OnlyReads, SameCounts};
ghost use Rattle.definitions.specs.sequences.Windows.{IsWindow};
ghost use Rattle.sweep_due.specs.SweepOwed.{told_alone};
ghost use Rattle.sweep_due.specs.SweepPlans.{sweep_plan};
ghost use Rattle.sweep_due.specs.SweepRules.{IsBankSwept, IsSweepReport};
ghost use Rattle.bank.specs.Ending.{IsFound, SomeReadFails, over};
ghost use Rattle.bank.specs.Finding.{CanBeWritten};
ghost use Rattle.bank.specs.Hearing.{IsBank, bank_seen};
ghost use Rattle.bank.specs.declared.stop.Stop.TheVariants as stops;
ghost use Rattle.sweep.specs.Tasks.{Asks, IsInRange, order_seen};
ghost use Rattle.sweep.specs.Turns.{IsSweptThrough};

use crate::phase_gate::PhaseGate;
use crate::phases::{search_phases, told_window};
use crate::words::SweepTask;
use bank::{Bank, Stop, Unloaded, bank_of, duts_of, grids_of, load, window_of};
use bank_files::Files;
use civil::Civil;
use due::Due;
use sequence::answer_of;
use signal_base::Window;
use std::alloc::Global;
use std::thread::Threads;
use sweep_due::{Standing, searches_decide_a_sweep};
use workers::Gate;

/// What is due for what is to be done. All files are read here, and all memory but the calendar's is taken here.
pub fn find_due<R: Threads + Sync, F: Files, G: Gate + PhaseGate + Sync>(
    rt: &R,
    alloc: Global,
    civil: &Civil,
    task: &SweepTask,
    files: &mut F,
    gate: &G,
) -> Result<Due, Stop>
    requires { IsInRange task.now }
    ensures due { IfOk result (λ due. (words : List (List ℕ)) → Asks words task.now → IsFound (over told_alone (sweep_plan words)) (F.view files.old) due) }
    ensures can_be_written { IfOk result CanBeWritten }
    ensures failed { IsErrOf result Stop.Failed → (words : List (List ℕ)) → Asks words task.now → SomeReadFails (over told_alone (sweep_plan words)) (F.view files.old) (F.view files.new) }
    ensures same_counts { result ≢ Err Stop.Failed → SameCounts (F.view files.old) (F.view files.new) }
    ensures only { OnlyReads (F.view files.old) (F.view files.new) }
{
    match load(alloc, files, task.config) {
        Ok(loaded) => {
            let bank = bank_of(alloc, loaded)?;
            let due = sweep_bank(rt, alloc, civil, &bank, task, gate)?;
            Ok(due)
        }
        Err(unloaded) => match unloaded {
            Unloaded::Refused { refusal } => Ok(Due::Refused { refusal }),
            Unloaded::Failed => Err(Stop::Failed),
            Unloaded::NoMemory => Err(Stop::NoMemory),
        },
    }
}

// What is told of a bank: the report of its swept answer.
fn sweep_bank<R: Threads + Sync, G: Gate + PhaseGate + Sync>(
    rt: &R,
    alloc: Global,
    civil: &Civil,
    bank: &Bank,
    task: &SweepTask,
    gate: &G,
) -> Result<Due, Stop>
    requires bank { IsBank bank.now }
    requires task { IsInRange task.now }
    ensures swept { IfOk result (IsBankSwept (order_seen task.now) (bank_seen bank.now)) }
    ensures can_be_written { IfOk result CanBeWritten }
    ensures memory { IfErr result (λ stop. stop ≡ stops.NoMemory) }
{
    let window = window_of(bank, &task.asked);
    let standing = search_phases(rt, alloc, civil, bank, &window, task.workers, gate)?;
    report_of(alloc, civil, bank, &window, standing)
}

/// The report of what stands after searches at all offsets that are swept.
pub fn report_of(
    alloc: Global,
    civil: &Civil,
    bank: &Bank,
    window: &Window,
    standing: Standing,
) -> Result<Due, Stop>
    requires bank { IsBank bank.now }
    requires window { IsWindow window.now }
    requires searched { IsSweptThrough window.now (bank_seen bank.now) standing }
    ensures reported { IfOk result (IsSweepReport window.now (bank_seen bank.now)) }
    ensures can_be_written { IfOk result CanBeWritten }
    ensures memory { IfErr result (λ stop. stop ≡ stops.NoMemory) }
{
    searches_decide_a_sweep();
    let answer = answer_of(standing.first_key(), standing.second);
    let told = told_window(window, standing);
    let grids = grids_of(alloc, bank, &told)?;
    let duts = duts_of(civil, grids.as_slice(), &told, &answer);
    Ok(Due::Report {
        window: told,
        answer,
        duts,
    })
}

//! Finding what is due of `check`. Nothing here writes to a file.

ghost use Rattle.std.specs.Prelude.{◌≡◌, ◌≢◌, ◌≤◌, Err, IfOk, IsErrOf, List, ℕ};
ghost use Rattle.signal_base.specs.declared.limits.TheConstants.{GREATEST_COST};
ghost use Rattle.bank_files.specs.Seen.{OnlyReads, ReadFails, SameCounts};
ghost use Rattle.bank_files.specs.Told.{output_name};
ghost use Rattle.definitions.specs.sequences.Windows.{IsWindow};
ghost use Rattle.field_tables.specs.Grids.{AreGrids, HaveCosts};
ghost use Rattle.due.specs.Banks.{Bank as PlainBank, costs_in};
ghost use Rattle.due.specs.CertificateRules.{IsChecked};
ghost use Rattle.check_due.specs.CheckPlans.{check_plan};
ghost use Rattle.check_due.specs.CheckRules.{IsBankChecked};
ghost use Rattle.bank.specs.Ending.{IsFound, SomeReadFails};
ghost use Rattle.bank.specs.Hearing.{IsBank, bank_seen};
ghost use Rattle.bank.specs.Loading.{IsReadAs};
ghost use Rattle.checks.specs.Tasks.{Asks, IsInRange, order_seen};
ghost use Rattle.checks.specs.Writable.{CanBeTold, CanBeWritten};

use crate::told::told_of;
use crate::window::judge_window;
use crate::words::CheckTask;
use bank::{Bank, Stop, Unloaded, bank_of, grids_of, load, window_of};
use bank_files::Files;
use check_due::CheckOwed;
use civil::Civil;
use due::{CheckDue, Due};
use field_tables::parts_of;
use signal_base::Window;
use std::alloc::Global;
use symbol_cost::CostGrid;

/// What is due for what is to be done. All files are read here, and all memory but the calendar's is taken here.
pub fn find_due<F: Files>(
    alloc: Global,
    civil: &Civil,
    task: &CheckTask,
    files: &mut F,
) -> Result<CheckOwed, Stop>
    requires { IsInRange task.now }
    ensures due { IfOk result (λ owed. (words : List (List ℕ)) → Asks words task.now → IsFound (check_plan words) (F.view files.old) owed) }
    ensures can_be_written { IfOk result CanBeWritten }
    ensures failed { IsErrOf result Stop.Failed → (words : List (List ℕ)) → Asks words task.now → SomeReadFails (check_plan words) (F.view files.old) (F.view files.new) }
    ensures same_counts { result ≢ Err Stop.Failed → SameCounts (F.view files.old) (F.view files.new) }
    ensures only { OnlyReads (F.view files.old) (F.view files.new) }
{
    match load(alloc, files, task.config) {
        Ok(loaded) => {
            let bank = bank_of(alloc, loaded)?;
            let due = check_bank(alloc, civil, &bank, task, files)?;
            Ok(CheckOwed::Judged { due })
        }
        Err(unloaded) => match unloaded {
            Unloaded::Refused { refusal } => Ok(CheckOwed::Told {
                due: Due::Refused { refusal },
            }),
            Unloaded::Failed => Err(Stop::Failed),
            Unloaded::NoMemory => Err(Stop::NoMemory),
        },
    }
}

// What is told of the certificate for a bank.
fn check_bank<F: Files>(
    alloc: Global,
    civil: &Civil,
    bank: &Bank,
    task: &CheckTask,
    files: &mut F,
) -> Result<CheckDue, Stop>
    requires bank { IsBank bank.now }
    requires task { IsInRange task.now }
    ensures checked { IfOk result (λ due. IsReadAs (F.view files.old) task.now.certificate.now (λ bytes. IsBankChecked (order_seen task.now) (bank_seen bank.now) bytes due)) }
    ensures can_be_told { IfOk result CanBeTold }
    ensures failed { IsErrOf result Stop.Failed → ReadFails task.now.certificate.now (F.view files.old) (F.view files.new) }
    ensures same_counts { result ≢ Err Stop.Failed → SameCounts (F.view files.old) (F.view files.new) }
    ensures only { OnlyReads (F.view files.old) (F.view files.new) }
{
    let window = window_of(bank, &task.asked);
    let grids = grids_of(alloc, bank, &window)?;
    check_window(
        alloc,
        civil,
        grids.as_slice(),
        &window,
        bank.ceiling,
        files,
        task.certificate,
    )
}

// The same by what the grids of a window's stations say.
fn check_window<F: Files>(
    alloc: Global,
    civil: &Civil,
    grids: &[CostGrid],
    window: &Window,
    ceiling: u32,
    files: &mut F,
    name: &str,
) -> Result<CheckDue, Stop>
    requires window { IsWindow window.now }
    requires grids { AreGrids window.now grids.now }
    requires ceiling { ceiling ≤ GREATEST_COST }
    requires name { name.now ≢ output_name }
    ensures checked { IfOk result (λ due. (bank : PlainBank) → ceiling ≡ bank.ceiling → HaveCosts window.now grids.now (costs_in window.now bank)
        → IsReadAs (F.view files.old) name.now (λ bytes. IsChecked window.now bank bytes due)) }
    ensures can_be_told { IfOk result CanBeTold }
    ensures failed { IsErrOf result Stop.Failed → ReadFails name.now (F.view files.old) (F.view files.new) }
    ensures same_counts { result ≢ Err Stop.Failed → SameCounts (F.view files.old) (F.view files.new) }
    ensures only { OnlyReads (F.view files.old) (F.view files.new) }
{
    let parts = parts_of(alloc, civil, window)?;
    let outcome = judge_window(alloc, civil, &parts, grids, window, ceiling, files, name)?;
    Ok(told_of(civil, grids, window, ceiling, outcome))
}

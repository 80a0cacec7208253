//! Finding what is due of `follow`. Nothing here writes to a file.

ghost use Rattle.std.specs.Prelude.{◌≡◌, ◌≢◌, Err, IfErr, IfOk, IsErrOf, List, ℕ};
ghost use Rattle.bank_files.specs.Seen.{OnlyReads, SameCounts};
ghost use Rattle.follow_due.specs.FollowPlans.{follow_plan};
ghost use Rattle.follow_due.specs.FollowRules.{IsFollowed};
ghost use Rattle.bank.specs.Ending.{IsFound, SomeReadFails};
ghost use Rattle.bank.specs.Hearing.{IsBank, bank_seen};
ghost use Rattle.bank.specs.declared.stop.Stop.TheVariants as stops;
ghost use Rattle.follow.specs.Finding.{CanBeWritten};
ghost use Rattle.follow.specs.Tasks.{Asks, IsInRange, order_seen};

use crate::window_gate::WindowGate;
use crate::windows::{decode_windows, starts_too_late};
use crate::words::FollowTask;
use bank::{Bank, Stop, Unloaded, bank_of, load, window_of};
use bank_files::Files;
use civil::Civil;
use due::Due;
use follow_due::FollowDue;
use formats::{OptionName, Refusal};
use std::alloc::Global;
use std::thread::Threads;
use workers::Gate;

/// What is due for what is to be done. All files are read here, and all memory but the calendar's is taken here.
pub fn find_due<R: Threads + Sync, F: Files, G: Gate + WindowGate + Sync>(
    rt: &R,
    alloc: Global,
    civil: &Civil,
    task: &FollowTask,
    files: &mut F,
    gate: &G,
) -> Result<FollowDue, Stop>
    requires { IsInRange task.now }
    ensures due { IfOk result (λ due. (words : List (List ℕ)) → Asks words task.now → IsFound (follow_plan words) (F.view files.old) due) }
    ensures can_be_written { IfOk result CanBeWritten }
    ensures failed { IsErrOf result Stop.Failed → (words : List (List ℕ)) → Asks words task.now → SomeReadFails (follow_plan words) (F.view files.old) (F.view files.new) }
    ensures same_counts { result ≢ Err Stop.Failed → SameCounts (F.view files.old) (F.view files.new) }
    ensures only { OnlyReads (F.view files.old) (F.view files.new) }
{
    match load(alloc, files, task.config) {
        Ok(loaded) => {
            let bank = bank_of(alloc, loaded)?;
            let due = follow_bank(rt, alloc, civil, &bank, task, gate)?;
            Ok(due)
        }
        Err(unloaded) => match unloaded {
            Unloaded::Refused { refusal } => Ok(FollowDue::Told {
                due: Due::Refused { refusal },
            }),
            Unloaded::Failed => Err(Stop::Failed),
            Unloaded::NoMemory => Err(Stop::NoMemory),
        },
    }
}

// What is told of a bank: the reports of its windows, or that there are so many that the last one starts too late.
fn follow_bank<R: Threads + Sync, G: Gate + WindowGate + Sync>(
    rt: &R,
    alloc: Global,
    civil: &Civil,
    bank: &Bank,
    task: &FollowTask,
    gate: &G,
) -> Result<FollowDue, Stop>
    requires bank { IsBank bank.now }
    requires task { IsInRange task.now }
    ensures followed { IfOk result (IsFollowed (order_seen task.now) (bank_seen bank.now)) }
    ensures can_be_written { IfOk result CanBeWritten }
    ensures memory { IfErr result (λ stop. stop ≡ stops.NoMemory) }
{
    let first = window_of(bank, &task.asked);
    if starts_too_late(&first, task.step, task.count) {
        return Ok(FollowDue::Told {
            due: Due::Refused {
                refusal: Refusal::WordsBad {
                    option: OptionName::Count,
                },
            },
        });
    }
    let reports = decode_windows(
        rt,
        alloc,
        civil,
        bank,
        &first,
        task.step,
        task.count,
        task.workers,
        gate,
    )?;
    Ok(FollowDue::Windows { reports })
}

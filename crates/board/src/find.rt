//! Finding what is due of `board`. Nothing here writes to a file.

ghost use Rattle.std.specs.Prelude.{◌≡◌, ◌≢◌, Err, IfErr, IfOk, IsErrOf, List, ℕ};
ghost use Rattle.bank_files.specs.Seen.{OnlyReads, ReadFails, SameCounts};
ghost use Rattle.board_due.specs.BoardPlans.{board_plan};
ghost use Rattle.board_due.specs.BoardRules.{IsInTime};
ghost use Rattle.bank.specs.Ending.{IsFound, SomeReadFails};
ghost use Rattle.bank.specs.Hearing.{IsBank, bank_seen};
ghost use Rattle.board.specs.Asking.{IsBoardedBy};
ghost use Rattle.board.specs.Finding.{CanBeWritten};
ghost use Rattle.board.specs.Tasks.{Asks, IsInRange, order_seen};

use crate::answers::due_of;
use crate::text::read_text;
use crate::words::BoardTask;
use bank::{Bank, Stop, Unloaded, bank_of, load, window_of};
use bank_files::Files;
use board_due::BoardDue;
use civil::Civil;
use due::Due;
use follow::{WindowGate, starts_too_late};
use formats::{OptionName, Refusal};
use std::alloc::Global;
use std::sync::Wait;
use std::thread::Threads;
use workers::Gate;

/// What is due for what is to be done. All files are read here, and all memory but the calendar's is taken here.
pub fn find_due<R: Threads + Wait + Sync, F: Files, G: Gate + WindowGate + Sync>(
    rt: &R,
    alloc: Global,
    civil: &Civil,
    task: &BoardTask<'_>,
    files: &mut F,
    gate: &G,
) -> Result<BoardDue, Stop>
    requires { IsInRange task.now }
    ensures due { IfOk result (λ due. (words : List (List ℕ)) → Asks words task.now → IsFound (board_plan words) (F.view files.old) due) }
    ensures can_be_written { IfOk result CanBeWritten }
    ensures failed { IsErrOf result Stop.Failed → (words : List (List ℕ)) → Asks words task.now → SomeReadFails (board_plan words) (F.view files.old) (F.view files.new) }
    ensures same_counts { result ≢ Err Stop.Failed → SameCounts (F.view files.old) (F.view files.new) }
    ensures only { OnlyReads (F.view files.old) (F.view files.new) }
{
    match load(alloc, files, task.config) {
        Ok(loaded) => {
            let bank = bank_of(alloc, loaded)?;
            find_of_bank(rt, alloc, civil, &bank, task, files, gate)
        }
        Err(unloaded) => match unloaded {
            Unloaded::Refused { refusal } => Ok(BoardDue::Told {
                due: Due::Refused { refusal },
            }),
            Unloaded::Failed => Err(Stop::Failed),
            Unloaded::NoMemory => Err(Stop::NoMemory),
        },
    }
}

// What is due of a bank: that there are so many windows that the last one starts too late, or what comes of the queries.
fn find_of_bank<R: Threads + Wait + Sync, F: Files, G: Gate + WindowGate + Sync>(
    rt: &R,
    alloc: Global,
    civil: &Civil,
    bank: &Bank,
    task: &BoardTask<'_>,
    files: &mut F,
    gate: &G,
) -> Result<BoardDue, Stop>
    requires bank { IsBank bank.now }
    requires task { IsInRange task.now }
    ensures boarded { IfOk result (IsBoardedBy (order_seen task.now) (bank_seen bank.now) (F.view files.old)) }
    ensures can_be_written { IfOk result CanBeWritten }
    ensures failed { IsErrOf result Stop.Failed → IsInTime (order_seen task.now).follow (bank_seen bank.now)
        × ReadFails task.now.queries.now (F.view files.old) (F.view files.new) }
    ensures same_counts { result ≢ Err Stop.Failed → SameCounts (F.view files.old) (F.view files.new) }
    ensures only { OnlyReads (F.view files.old) (F.view files.new) }
{
    let first = window_of(bank, &task.asked);
    if starts_too_late(&first, task.step, task.count) {
        return Ok(BoardDue::Told {
            due: Due::Refused {
                refusal: Refusal::WordsBad {
                    option: OptionName::Count,
                },
            },
        });
    }
    match read_text(alloc, files, task.queries) {
        Err(stop) => Err(stop),
        Ok(text) => due_of(rt, alloc, civil, bank, &first, task, text, gate),
    }
}

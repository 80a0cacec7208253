//! Finding what is due of `judge`. Nothing here writes to a file.

ghost use Rattle.std.specs.Prelude.{◌≢◌, Err, IfOk, IsErrOf, List, ℕ};
ghost use Rattle.bank_files.specs.Seen.{OnlyReads, SameCounts};
ghost use Rattle.bank.specs.Ending.{IsFound, SomeReadFails};
ghost use Rattle.bank.specs.Hearing.{IsBank, bank_seen};
ghost use Rattle.judges.specs.Judging.{FailsBank, IsBankFound};
ghost use Rattle.judges.specs.Seen.{CanBeWritten, kept_plan};
ghost use Rattle.judges.specs.Tasks.{Asks, IsInRange, order_seen};

use crate::offsets::{Judged, judge_offsets};
use crate::owed::JudgeOwed;
use crate::report::report_of;
use crate::words::JudgeTask;
use bank::{Bank, Stop, Unloaded, bank_of, load, window_of};
use bank_files::Files;
use civil::Civil;
use due::Due;
use std::alloc::Global;
use sweep_due::valid_certificates_decide_a_sweep;

/// What is due for what is to be done. All files are read here, and all memory but the calendar's is taken here.
pub fn find_due<F: Files>(
    alloc: Global,
    civil: &Civil,
    task: &JudgeTask,
    files: &mut F,
) -> Result<JudgeOwed, Stop>
    requires { IsInRange task.now }
    ensures due { IfOk result (λ owed. (words : List (List ℕ)) → Asks words task.now → IsFound (kept_plan words) (F.view files.old) owed) }
    ensures can_be_written { IfOk result CanBeWritten }
    ensures failed { IsErrOf result Stop.Failed → (words : List (List ℕ)) → Asks words task.now → SomeReadFails (kept_plan words) (F.view files.old) (F.view files.new) }
    ensures same_counts { result ≢ Err Stop.Failed → SameCounts (F.view files.old) (F.view files.new) }
    ensures only { OnlyReads (F.view files.old) (F.view files.new) }
{
    match load(alloc, files, task.config) {
        Ok(loaded) => {
            let bank = bank_of(alloc, loaded)?;
            let owed = judge_bank(alloc, civil, &bank, task, files)?;
            Ok(owed)
        }
        Err(unloaded) => match unloaded {
            Unloaded::Refused { refusal } => Ok(JudgeOwed::Told {
                due: Due::Refused { refusal },
            }),
            Unloaded::Failed => Err(Stop::Failed),
            Unloaded::NoMemory => Err(Stop::NoMemory),
        },
    }
}

// What is told of a bank's certificates: what is wrong with the first bad one, or the report of the swept answer.
fn judge_bank<F: Files>(
    alloc: Global,
    civil: &Civil,
    bank: &Bank,
    task: &JudgeTask,
    files: &mut F,
) -> Result<JudgeOwed, Stop>
    requires bank { IsBank bank.now }
    requires task { IsInRange task.now }
    ensures found { IfOk result (IsBankFound (F.view files.old) (order_seen task.now) (bank_seen bank.now)) }
    ensures can_be_written { IfOk result CanBeWritten }
    ensures failed { IsErrOf result Stop.Failed → FailsBank (F.view files.old) (F.view files.new) (order_seen task.now) (bank_seen bank.now) }
    ensures same_counts { result ≢ Err Stop.Failed → SameCounts (F.view files.old) (F.view files.new) }
    ensures only { OnlyReads (F.view files.old) (F.view files.new) }
{
    valid_certificates_decide_a_sweep();
    let window = window_of(bank, &task.asked);
    let judged = judge_offsets(alloc, civil, bank, &window, files, task.name)?;
    match judged {
        Judged::Good { standing } => report_of(alloc, civil, bank, &window, standing),
        Judged::Bad { offset, fault } => Ok(JudgeOwed::NotCertified { offset, fault }),
    }
}

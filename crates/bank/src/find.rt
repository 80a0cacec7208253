//! Finding what is due. Nothing here writes to a file.

ghost use Rattle.std.specs.Prelude.{◌≡◌, ◌≢◌, Err, IfErr, IfOk, IsErrOf, List, ℕ};
ghost use Rattle.bank_files.specs.Seen.{OnlyReads, SameCounts};
ghost use Rattle.due.specs.Banks.{Bank, duts_of};
ghost use Rattle.due.specs.Owed.{told_alone};
ghost use Rattle.due.specs.Plans.{run_plan};
ghost use Rattle.due.specs.Rules.{reported};
ghost use Rattle.texts.specs.Reportable.{IsReportable};
ghost use Rattle.bank.specs.Ending.{IsFound, SomeReadFails, over};
ghost use Rattle.bank.specs.Finding.{CanBeWritten};
ghost use Rattle.bank.specs.Tasks.{Asks, IsInRange, wanted_seen};

use crate::decoding::{Decoded, decode};
use crate::hearing::bank_of;
use crate::loading::{Unloaded, load};
use crate::stop::Stop;
use crate::trial::trial_due;
use crate::words::{Task, Wanted};
use bank_files::Files;
use civil::Civil;
use due::Due;
use formats::Asked;
use sequence::Answer;
use std::alloc::Global;
use std::thread::Threads;
use workers::Gate;

/// What is due for what a run is asked to do. All files are read here, and all memory but the calendar's is taken here.
pub fn find_due<R: Threads + Sync, F: Files, G: Gate + Sync>(
    rt: &R,
    alloc: Global,
    civil: &Civil,
    task: &Task,
    files: &mut F,
    gate: &G,
) -> Result<Due, Stop>
    requires { IsInRange task.now }
    ensures due { IfOk result (λ due. (words : List (List ℕ)) → Asks words task.now → IsFound (over told_alone (run_plan words)) (F.view files.old) due) }
    ensures can_be_written { IfOk result CanBeWritten }
    ensures failed { IsErrOf result Stop.Failed → (words : List (List ℕ)) → Asks words task.now → SomeReadFails (over told_alone (run_plan words)) (F.view files.old) (F.view files.new) }
    ensures same_counts { result ≢ Err Stop.Failed → SameCounts (F.view files.old) (F.view files.new) }
    ensures only { OnlyReads (F.view files.old) (F.view files.new) }
{
    match task {
        Task::List {
            station,
            minute,
            announced,
        } => Ok(Due::Listing {
            station: *station,
            minute: *minute,
            announced: *announced,
        }),
        Task::Try { number, workers } => trial_due(rt, alloc, civil, *number, *workers, gate),
        Task::Decode {
            config,
            asked,
            wanted,
            workers,
        } => match load(alloc, files, config) {
            Ok(loaded) => {
                let bank = bank_of(alloc, loaded)?;
                let decoded = decode(rt, alloc, civil, &bank, asked, *workers, gate)?;
                Ok(reported(*wanted, decoded))
            }
            Err(unloaded) => match unloaded {
                Unloaded::Refused { refusal } => Ok(Due::Refused { refusal }),
                Unloaded::Failed => Err(Stop::Failed),
                Unloaded::NoMemory => Err(Stop::NoMemory),
            },
        },
    }
}

/// How the answer for a bank is reported: by its report, or where it is decided and sentences are wanted, by these.
pub fn reported(wanted: Wanted, decoded: Decoded) -> Due
    requires { IsReportable decoded.window decoded.answer }
    ensures reported { (bank : Bank) → decoded.duts ≡ duts_of decoded.window bank decoded.answer
        → result ≡ reported (wanted_seen wanted) decoded.window bank decoded.answer }
    ensures can_be_written { CanBeWritten result }
{
    let Decoded {
        window,
        answer,
        duts,
    } = decoded;
    if wanted == Wanted::Sentences {
        if let Answer::Decided { sequence, .. } = answer {
            return Due::Feed { window, sequence };
        }
    }
    Due::Report {
        window,
        answer,
        duts,
    }
}

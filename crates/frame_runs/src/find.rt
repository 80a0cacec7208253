//! Finding what is due of a command of frames. Nothing here writes to a file.

ghost use Rattle.std.specs.Prelude.{◌≡◌, ◌≢◌, ◌<◌, Err, IfOk, IsErrOf, List, ℕ};
ghost use Rattle.bank_files.specs.Seen.{OnlyReads, SameCounts};
ghost use Rattle.due.specs.Banks.{Bank, duts_of};
ghost use Rattle.due.specs.FrameRules.{framed};
ghost use Rattle.due.specs.Plans.{frame_plan};
ghost use Rattle.texts.specs.Reportable.{IsReportable};
ghost use Rattle.bank.specs.Ending.{IsFound, SomeReadFails};
ghost use Rattle.frame_runs.specs.Finding.{CanBeWritten};
ghost use Rattle.frame_runs.specs.Tasks.{Asks, IsInRange};

use crate::text::read_text;
use crate::words::FrameTask;
use bank::{Decoded, Stop, Unloaded, bank_of, decode, load};
use bank_files::Files;
use civil::Civil;
use due::{Due, FrameDue};
use sequence::Answer;
use std::alloc::Global;
use std::thread::Threads;
use workers::Gate;

/// What is due for what is to be done. All files are read here, and all memory but the calendar's is taken here.
pub fn find_due<R: Threads + Sync, F: Files, G: Gate + Sync>(
    rt: &R,
    alloc: Global,
    civil: &Civil,
    task: &FrameTask,
    files: &mut F,
    gate: &G,
) -> Result<FrameDue, Stop>
    requires { IsInRange task.now }
    ensures due { IfOk result (λ due. (words : List (List ℕ)) → Asks words task.now → IsFound (frame_plan words) (F.view files.old) due) }
    ensures can_be_written { IfOk result CanBeWritten }
    ensures failed { IsErrOf result Stop.Failed → (words : List (List ℕ)) → Asks words task.now → SomeReadFails (frame_plan words) (F.view files.old) (F.view files.new) }
    ensures same_counts { result ≢ Err Stop.Failed → SameCounts (F.view files.old) (F.view files.new) }
    ensures only { OnlyReads (F.view files.old) (F.view files.new) }
{
    match task {
        FrameTask::Print {
            config,
            asked,
            workers,
        } => match load(alloc, files, config) {
            Ok(loaded) => {
                let bank = bank_of(alloc, loaded)?;
                let decoded = decode(rt, alloc, civil, &bank, asked, *workers, gate)?;
                Ok(framed(decoded))
            }
            Err(unloaded) => match unloaded {
                Unloaded::Refused { refusal } => Ok(FrameDue::Told {
                    due: Due::Refused { refusal },
                }),
                Unloaded::Failed => Err(Stop::Failed),
                Unloaded::NoMemory => Err(Stop::NoMemory),
            },
        },
        FrameTask::Read { file } => read_text(alloc, civil, files, file),
    }
}

// How the answer for a bank is told: by its frames where it is decided, else by its report.
fn framed(decoded: Decoded) -> FrameDue
    requires reportable { IsReportable decoded.window decoded.answer }
    requires phase { decoded.window.phase < 1000 }
    ensures framed { (bank : Bank) → decoded.duts ≡ duts_of decoded.window bank decoded.answer
        → result ≡ framed decoded.window bank decoded.answer }
    ensures can_be_written { CanBeWritten result }
{
    let Decoded {
        window,
        answer,
        duts,
    } = decoded;
    if let Answer::Decided { sequence, .. } = answer {
        return FrameDue::Frames { window, sequence };
    }
    FrameDue::Told {
        due: Due::Report {
            window,
            answer,
            duts,
        },
    }
}

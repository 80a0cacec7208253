//! What a text of frames tells. Nothing here writes to a file.

ghost use Rattle.std.specs.Prelude.{◌≡◌, ◌≢◌, ◌≤◌, Err, IfErr, IfOk, IsErrOf, length};
ghost use Rattle.bank_files.specs.Seen.{OnlyReads, ReadFails, SameCounts};
ghost use Rattle.bank_files.specs.Told.{output_name};
ghost use Rattle.formats.specs.declared.frame.TheConstants.{FRAMES_LIMIT};
ghost use Rattle.due.specs.FrameRules.{IsToldOf};
ghost use Rattle.bank.specs.Loading.{IsReadAs};
ghost use Rattle.bank.specs.declared.stop.Stop.TheVariants as stops;
ghost use Rattle.frame_runs.specs.Finding.{CanBeWritten};

use bank::Stop;
use bank_files::{Files, ReadWhole, read_whole};
use civil::Civil;
use due::{FrameDue, FrameList};
use irig_frames::{FRAMES_LIMIT, read_frames};
use std::alloc::Global;

/// What the frames in a file tell, or that they are refused.
pub fn read_text<F: Files>(
    alloc: Global,
    civil: &Civil,
    files: &mut F,
    file: &str,
) -> Result<FrameDue, Stop>
    requires { file.now ≢ output_name }
    ensures told { IfOk result (λ due. IsReadAs (F.view files.old) file.now (λ bytes. IsToldOf bytes due)) }
    ensures can_be_written { IfOk result CanBeWritten }
    ensures failed { IsErrOf result Stop.Failed → ReadFails file.now (F.view files.old) (F.view files.new) }
    ensures same_counts { result ≢ Err Stop.Failed → SameCounts (F.view files.old) (F.view files.new) }
    ensures only { OnlyReads (F.view files.old) (F.view files.new) }
{
    match read_whole(alloc, files, file, FRAMES_LIMIT) {
        Ok(bytes) => told_of(alloc, civil, bytes.as_slice()),
        Err(ReadWhole::Failed) => Err(Stop::Failed),
        Err(ReadWhole::NoMemory) => Err(Stop::NoMemory),
        Err(ReadWhole::TooLarge) => Ok(FrameDue::TooLarge),
    }
}

// What is told of these bytes.
fn told_of(alloc: Global, civil: &Civil, bytes: &[u8]) -> Result<FrameDue, Stop>
    requires { length bytes.now ≤ FRAMES_LIMIT }
    ensures told { IfOk result (IsToldOf bytes.now) }
    ensures can_be_written { IfOk result CanBeWritten }
    ensures memory { IfErr result (λ stop. stop ≡ stops.NoMemory) }
{
    match read_frames(alloc, civil, bytes) {
        Ok(frames) => Ok(FrameDue::Read {
            frames: FrameList::new(frames),
        }),
        Err(fault) => match fault.bad_line() {
            None => Err(Stop::NoMemory),
            Some((line, fault)) => Ok(FrameDue::BadLine { line, fault }),
        },
    }
}

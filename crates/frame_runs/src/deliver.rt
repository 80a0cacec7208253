//! Writing what is due of a command of frames. Nothing here reads a file or takes memory.

ghost use Rattle.std.specs.Prelude.{◌≡◌, ◌+◌, ◌*◌, ◌<◌};
ghost use Rattle.bank_files.specs.Seen.{Writes};
ghost use Rattle.bank_files.specs.Told.{output_name};
ghost use Rattle.formats.specs.Frames.{frames_text};
ghost use Rattle.formats.specs.FrameWalks.{walk_frames};
ghost use Rattle.formats.specs.Reports.{slot_begin};
ghost use Rattle.signal_base.specs.declared.limits.TheConstants.{MOST_SECONDS, START_LIMIT};
ghost use Rattle.due.specs.FrameDues.{frame_due_text, frame_outputs};
ghost use Rattle.bank.specs.Ending.{WritesAll};
ghost use Rattle.frame_runs.specs.Finding.{CanBeWritten, IsToBeFramed};

use bank::print;
use bank_files::{Failed, Files, OUTPUT};
use civil::Civil;
use due::FrameDue;
use irig_frames::{Frame, write_frame};
use sequence::{Sequence, next_place};
use signal_base::Window;
use texts::{write_bad_frame, write_frame_list, write_large_frames};

/// Writes all that a command of frames writes where this is due: its text, to standard output.
pub fn deliver<F: Files>(files: &mut F, civil: &Civil, due: &FrameDue) -> Result<(), Failed>
    requires { CanBeWritten due.now }
    ensures { WritesAll (frame_outputs due.now) (F.view files.old) (F.view files.new) result }
{
    print_due(files, civil, due)
}

// Writes the text of what is due to standard output.
fn print_due<F: Files>(files: &mut F, civil: &Civil, due: &FrameDue) -> Result<(), Failed>
    requires { CanBeWritten due.now }
    ensures { Writes output_name (F.view files.old) (F.view files.new) (frame_due_text due.now) result }
{
    match due {
        FrameDue::Told { due } => print(files, civil, due),
        FrameDue::Frames { window, sequence } => write_walk(files, civil, window, sequence),
        FrameDue::Read { frames } => write_frame_list(files, civil, frames.as_slice()),
        FrameDue::TooLarge => write_large_frames(files),
        FrameDue::BadLine { line, fault } => write_bad_frame(files, *line, *fault),
    }
}

// Writes the frames of a walk, one for each slot of its window. Each is written at once.
fn write_walk<F: Files>(
    files: &mut F,
    civil: &Civil,
    window: &Window,
    q: &Sequence,
) -> Result<(), Failed>
    requires { IsToBeFramed window.now q.now }
    ensures { Writes output_name (F.view files.old) (F.view files.new) (frames_text (walk_frames window.now q.now)) result }
{
    let mut place = (q.first, q.second);
    for slot in 0..window.seconds {
        let frame = frame_at(window, place, slot);
        write_frame(files, OUTPUT, civil, &frame)?;
        place = next_place(civil, q.announced, place);
    }
    Ok(())
}

// The frame that tells this place, and begins with this slot.
fn frame_at(window: &Window, place: (u32, u8), slot: u16) -> Frame
    requires start { window.now.start < START_LIMIT }
    requires phase { window.now.phase < 1000 }
    ensures { result ≡ record { at = slot_begin window.now slot; minute = place.0; second = place.1 } }
{
    Frame {
        at: window.start + window.phase as u64 + 1000 * slot as u64,
        minute: place.0,
        second: place.1,
    }
}

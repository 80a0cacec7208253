//! What the commands of frames owe: the text that they tell, and the status with which they end.

ghost use Rattle.std.specs.Prelude.{◌≡◌};
ghost use Rattle.due.specs.FrameDues.{frame_status};

use crate::{Due, Status};
use definitions::Sequence;
use formats::{Frame, FrameLineFault};
use signal_base::Window;
use std::marker::Model;

/// Frames that were read, in their order.
#[derive(Drop)]
pub struct FrameList {
    frames: Vec<Frame>,
}

impl Model for FrameList {
    ghost use Rattle.std.specs.Prelude.{List};
    ghost use Rattle.formats.specs.declared.frame.Frame.{Frame};

    ghost Value = { List Frame };

    ghost view = { λ list. list.frames.items };
}

impl FrameList {
    /// These frames.
    pub fn new(frames: Vec<Frame>) -> FrameList
        ensures { result ≡ frames.items }
    {
        FrameList { frames }
    }

    /// All of them.
    pub fn as_slice(&self) -> &[Frame]
        ensures { result.now ≡ self.now }
    {
        self.frames.as_slice()
    }
}

/// What a command of frames owes for its words and for the contents of the files that it reads.
#[derive(Drop)]
pub enum FrameDue {
    /// What a run owes too: the line of a refusal, or the report of an answer that isn't decided.
    Told {
        /// What it owes.
        due: Due,
    },
    /// The frames of a decided answer.
    Frames {
        /// What was decoded.
        window: Window,
        /// The sequence that was decided on.
        sequence: Sequence,
    },
    /// What the frames of a text tell.
    Read {
        /// The frames.
        frames: FrameList,
    },
    /// That a text of frames has more than 8,000,000 bytes.
    TooLarge,
    /// The first bad line of a text of frames.
    BadLine {
        /// The line's number, from 1.
        line: u32,
        /// In what way the line is bad.
        fault: FrameLineFault,
    },
}

impl FrameDue {
    /// The status with which a run ends that told this.
    pub fn status(&self) -> Status
        ensures { result ≡ frame_status self.now }
    {
        match self {
            FrameDue::Told { due } => due.status(),
            FrameDue::Frames { .. } | FrameDue::Read { .. } => Status::Done,
            FrameDue::TooLarge | FrameDue::BadLine { .. } => Status::BadFrames,
        }
    }
}

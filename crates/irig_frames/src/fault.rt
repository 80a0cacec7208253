//! Why frames aren't read.

ghost use Rattle.std.specs.Prelude.{◌≡◌};
ghost use Rattle.irig_frames.specs.declared.fault.FrameFault.TheVariants.{NoMemory};

use formats::FrameLineFault;
use std::alloc::AllocFailed;

/// Why frames aren't read. Lines are counted from 1.
#[derive(Clone, Copy, Debug, PartialEq, Eq)]
pub enum FrameFault {
    /// The line isn't that of the edge that is due, or it isn't there.
    Shape {
        /// The line.
        line: u32,
    },
    /// The line's time isn't one at which the edge may stand.
    Timing {
        /// The line.
        line: u32,
    },
    /// The line ends a frame whose elements tell no second.
    Meaning {
        /// The line.
        line: u32,
    },
    /// The line begins the 1,201st frame.
    TooManyFrames {
        /// The line.
        line: u32,
    },
    /// Memory wasn't found.
    NoMemory,
}

impl FrameFault {
    ghost use Rattle.irig_frames.specs.Reading.{bad_line_of};

    /// The bad line, counted from 1, and in what way it is bad; none for want of memory.
    pub fn bad_line(self) -> Option<(u32, FrameLineFault)>
        ensures { result ≡ bad_line_of self }
    {
        match self {
            FrameFault::Shape { line } => Some((line, FrameLineFault::Shape)),
            FrameFault::Timing { line } => Some((line, FrameLineFault::Timing)),
            FrameFault::Meaning { line } => Some((line, FrameLineFault::Meaning)),
            FrameFault::TooManyFrames { line } => Some((line, FrameLineFault::TooManyFrames)),
            FrameFault::NoMemory => None,
        }
    }
}

impl<T: Drop> From<AllocFailed<T>> for FrameFault {
    ghost from_gives = { λ _ fault. fault ≡ NoMemory };

    fn from(_failed: AllocFailed<T>) -> FrameFault {
        FrameFault::NoMemory
    }
}

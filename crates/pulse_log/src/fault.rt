//! Why a log isn't read.

ghost use Rattle.std.specs.Prelude.{◌≡◌};
ghost use Rattle.pulse_log.specs.declared.fault.LogFault.TheVariants.{NoMemory};

use formats::LineFault;
use std::alloc::AllocFailed;

/// Why a log isn't read. Lines are counted from 1.
#[derive(Clone, Copy, Debug, PartialEq, Eq)]
pub enum LogFault {
    /// The line is no record, and neither empty nor a comment.
    Shape {
        /// The line.
        line: u32,
    },
    /// The record's time isn't above that of the record before.
    NotRising {
        /// The line.
        line: u32,
    },
    /// The record is the 200,001st.
    TooManyRecords {
        /// The line.
        line: u32,
    },
    /// Memory wasn't found.
    NoMemory,
}

impl LogFault {
    ghost use Rattle.pulse_log.specs.Reading.{bad_line_of};

    /// The bad line, counted from 1, and in what way it is bad; none for want of memory.
    pub fn bad_line(self) -> Option<(u32, LineFault)>
        ensures { result ≡ bad_line_of self }
    {
        match self {
            LogFault::Shape { line } => Some((line, LineFault::Shape)),
            LogFault::NotRising { line } => Some((line, LineFault::NotRising)),
            LogFault::TooManyRecords { line } => Some((line, LineFault::TooManyRecords)),
            LogFault::NoMemory => None,
        }
    }
}

impl<T: Drop> From<AllocFailed<T>> for LogFault {
    ghost from_gives = { λ _ fault. fault ≡ NoMemory };

    fn from(_failed: AllocFailed<T>) -> LogFault {
        LogFault::NoMemory
    }
}

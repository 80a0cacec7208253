//! Why the program stops.

use civil::CivilFault;
use clock_board::BoardFault;
use std::alloc::{AllocError, AllocFailed};
use std::{fmt, io};

/// Why the program stops.
#[derive(Drop)]
pub enum Fault {
    /// The words of the command line aren't in order.
    Words,
    /// Memory wasn't found.
    NoMemory,
    /// The machine refused to print or to tell the time.
    Machine(io::Error),
    /// So many answers differ from what the entries tell.
    Difference(u64),
}

impl fmt::Display for Fault {
    fn fmt<W: fmt::Write>(&self, f: &mut fmt::Formatter<W>) -> fmt::Result {
        match self {
            Fault::Words => {
                f.write_str("usage: board_bench compare | measure ASKERS MILLISECONDS")
            }
            Fault::NoMemory => f.write_str("out of memory"),
            Fault::Machine(error) => write!(f, "{error}"),
            Fault::Difference(wrong) => write!(f, "{wrong} answers differ"),
        }
    }
}

impl From<io::Error> for Fault {
    fn from(error: io::Error) -> Fault {
        Fault::Machine(error)
    }
}

impl From<AllocError> for Fault {
    fn from(_error: AllocError) -> Fault {
        Fault::NoMemory
    }
}

impl<T: Drop> From<AllocFailed<T>> for Fault {
    fn from(_failed: AllocFailed<T>) -> Fault {
        Fault::NoMemory
    }
}

impl From<CivilFault> for Fault {
    fn from(_fault: CivilFault) -> Fault {
        Fault::NoMemory
    }
}

impl From<BoardFault> for Fault {
    fn from(_fault: BoardFault) -> Fault {
        Fault::NoMemory
    }
}

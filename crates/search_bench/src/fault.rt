//! Why the program stops.

use bank::Stop;
use bounds::ItemsFault;
use civil::CivilFault;
use definitions::{Block, Sequence};
use field_tables::TablesFault;
use pulse_log::LogFault;
use race_words::RaceFault;
use std::alloc::{AllocError, AllocFailed};
use std::{fmt, io};

/// Why the program stops.
#[derive(Drop)]
pub enum Fault {
    /// The words of the command line aren't in order.
    Words,
    /// A file is no log.
    NoLog,
    /// Memory wasn't found.
    NoMemory,
    /// The machine refused to read, to print or to tell the time.
    Machine(io::Error),
    /// The bounds of a block differ: of the block alone, of its place in a row, and the plain one.
    Bounds {
        /// The block.
        block: Block,
        /// The bound of the block alone.
        alone: Option<u32>,
        /// The bound that its parent's row gave it.
        in_row: Option<u32>,
        /// The bound by a walk through each slot of its sequences.
        plain: Option<u32>,
    },
    /// The unions of a block differ.
    Unions {
        /// The block.
        block: Block,
        /// The slot of the window.
        slot: u16,
        /// The union that the tables tell.
        quick: Option<u8>,
        /// The union by a walk to the slot of each of its sequences.
        plain: Option<u8>,
    },
    /// The floor of a day is above a legal sequence of it.
    Floors {
        /// The day.
        day: Block,
        /// The floor.
        floor: Option<u32>,
        /// What the cheapest of its legal sequences costs, by a walk for each.
        least: Option<u32>,
    },
    /// A sequence is legal by one way and not by the other, or costs another sum.
    Sequences(Sequence),
    /// Two searches of the same window found other keys.
    Searches,
}

impl fmt::Display for Fault {
    fn fmt<W: fmt::Write>(&self, f: &mut fmt::Formatter<W>) -> fmt::Result {
        match self {
            Fault::Words => f.write_str(
                "usage: search_bench compare [SEED] | floors [SEED] | measure SECONDS FROM TO STATION=LOG..",
            ),
            Fault::NoLog => f.write_str("a file is no log"),
            Fault::NoMemory => f.write_str("out of memory"),
            Fault::Machine(error) => write!(f, "{error}"),
            Fault::Bounds {
                block,
                alone,
                in_row,
                plain,
            } => write!(
                f,
                "bounds differ: {alone:?} alone, {in_row:?} in its row, {plain:?} plainly, of {block:?}"
            ),
            Fault::Unions {
                block,
                slot,
                quick,
                plain,
            } => write!(
                f,
                "unions differ in slot {slot}: {quick:?}, {plain:?} plainly, of {block:?}"
            ),
            Fault::Floors { day, floor, least } => write!(
                f,
                "a floor too high: {floor:?}, {least:?} plainly, of {day:?}"
            ),
            Fault::Sequences(sequence) => write!(f, "legality or costs differ: {sequence:?}"),
            Fault::Searches => f.write_str("searches of one window found different keys"),
        }
    }
}

impl From<io::Error> for Fault {
    fn from(error: io::Error) -> Fault {
        Fault::Machine(error)
    }
}

impl From<AllocError> for Fault {
    fn from(_error: AllocError) -> Fault {
        Fault::NoMemory
    }
}

impl<T: Drop> From<AllocFailed<T>> for Fault {
    fn from(_failed: AllocFailed<T>) -> Fault {
        Fault::NoMemory
    }
}

impl From<LogFault> for Fault {
    fn from(fault: LogFault) -> Fault {
        if fault == LogFault::NoMemory {
            Fault::NoMemory
        } else {
            Fault::NoLog
        }
    }
}

impl From<CivilFault> for Fault {
    fn from(_fault: CivilFault) -> Fault {
        Fault::NoMemory
    }
}

impl From<Stop> for Fault {
    fn from(_stop: Stop) -> Fault {
        Fault::NoMemory
    }
}

impl From<TablesFault> for Fault {
    fn from(_fault: TablesFault) -> Fault {
        Fault::NoMemory
    }
}

impl From<ItemsFault> for Fault {
    fn from(_fault: ItemsFault) -> Fault {
        Fault::NoMemory
    }
}

impl From<RaceFault> for Fault {
    fn from(_fault: RaceFault) -> Fault {
        Fault::NoMemory
    }
}

//! Why queries aren't read.

ghost use Rattle.std.specs.Prelude.{◌≡◌};
ghost use Rattle.board_queries.specs.declared.fault.QueryFault.TheVariants.{NoMemory};

use std::alloc::AllocFailed;

/// Why queries aren't read. Lines are counted from 1.
#[derive(Clone, Copy, Debug, PartialEq, Eq)]
pub enum QueryFault {
    /// The line isn't that of a query, or it is the 10,001st.
    Shape {
        /// The line.
        line: u32,
    },
    /// Memory wasn't found.
    NoMemory,
}

impl QueryFault {
    ghost use Rattle.board_queries.specs.Reading.{bad_line_of};

    /// The bad line, counted from 1; none for want of memory.
    pub fn bad_line(self) -> Option<u32>
        ensures { result ≡ bad_line_of self }
    {
        match self {
            QueryFault::Shape { line } => Some(line),
            QueryFault::NoMemory => None,
        }
    }
}

impl<T: Drop> From<AllocFailed<T>> for QueryFault {
    ghost from_gives = { λ _ fault. fault ≡ NoMemory };

    fn from(_failed: AllocFailed<T>) -> QueryFault {
        QueryFault::NoMemory
    }
}

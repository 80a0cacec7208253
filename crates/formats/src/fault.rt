//! Why a line of a log is refused.

/// Why a line of a log is refused, in the order in which one line is judged.
#[derive(Clone, Copy, Debug)]
pub enum LineFault {
    /// It is no record, and neither empty nor a comment.
    Shape,
    /// Its time isn't above that of the record before.
    NotRising,
    /// It is the 200,001st record.
    TooManyRecords,
}

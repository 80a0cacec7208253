//! How a run of the program ends.

ghost use Rattle.std.specs.Prelude.{◌≡◌};
ghost use Rattle.due.specs.Status.{code_of};

/// How a run ended. After `Failed` and `NoMemory` the text that is due wasn't told, or not all of it.
#[derive(Clone, Copy)]
pub enum Status {
    /// One sequence costs less than every other, or a minute is listed.
    Done,
    /// The two cheapest sequences cost the same.
    Undecided,
    /// No sequence is admitted.
    Nothing,
    /// The words aren't of the grammar.
    BadWords,
    /// The configuration is refused.
    BadConfiguration,
    /// A log is refused.
    BadLog,
    /// A file couldn't be read or written.
    Failed,
    /// Memory wasn't found.
    NoMemory,
    /// A certificate isn't valid.
    BadCertificate,
    /// A text of queries is refused.
    BadQueries,
    /// A text of frames is refused.
    BadFrames,
}

impl Status {
    /// The number with which the program ends.
    pub fn code(self) -> u8
        ensures { result ≡ code_of self }
    {
        match self {
            Status::Done => 0,
            Status::Undecided => 1,
            Status::Nothing => 2,
            Status::BadWords => 3,
            Status::BadConfiguration => 4,
            Status::BadLog => 5,
            Status::Failed => 6,
            Status::NoMemory => 7,
            Status::BadCertificate => 8,
            Status::BadQueries => 9,
            Status::BadFrames => 10,
        }
    }
}

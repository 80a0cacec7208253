//! What is found of a certificate that can be read.

/// What a certificate shows, judged line by line: the first thing that is wrong, or that it is valid.
#[derive(Clone, Copy, Debug, PartialEq, Eq)]
pub enum Verdict {
    /// It is valid, so its named keys are those of the first two admitted sequences.
    Certified,
    /// It is of another window, or under another ceiling.
    OtherWindow,
    /// The step's block isn't due, or the steps end before all is covered.
    Uncovered {
        /// The step's number, from 1.
        step: u32,
    },
    /// The step names another bound than its block has.
    WrongBound {
        /// The step's number, from 1.
        step: u32,
    },
    /// The step passes a block over whose key isn't above the second key and the ceiling's.
    NotAbove {
        /// The step's number, from 1.
        step: u32,
    },
    /// The named keys aren't the least two of the leaves' keys.
    WrongEnds {
        /// The true one in place of the first that is wrong, or none.
        key: Option<u64>,
    },
}

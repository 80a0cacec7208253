//! Which call runs some words.

/// Which call runs some words.
#[derive(Clone, Copy)]
pub enum Family {
    /// One that has no leave to wait for another thread's word, and so is proved to return.
    Returns(Returning),
    /// That of a board which askers ask while windows are decoded: `board`. It waits until no asker reads the copy that is
    /// changed next.
    OfBoard,
}

/// Commands that one call runs, which is proved to return.
#[derive(Clone, Copy)]
pub enum Returning {
    /// Those of a run: `decode`, `feed`, `encode` and `trial`. All words that are of no other command belong to them, and are
    /// refused.
    OfRun,
    /// Those of frames: `irig` and `irig-read`.
    OfFrames,
    /// That of windows that follow one another: `follow`.
    OfFollow,
    /// That of a decode over several phases: `sweep`.
    OfSweep,
    /// That of a certificate's check: `check`.
    OfCheck,
    /// That of the judgement of a sweep's certificates: `judge`.
    OfJudge,
}

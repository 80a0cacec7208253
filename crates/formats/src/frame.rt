//! Frames of IRIG-B, and how much a text of frames may hold.

/// The most bytes of a text of frames.
pub const FRAMES_LIMIT: u64 = 8_000_000;

/// The most frames of a text.
pub const MOST_FRAMES: usize = 1_200;

/// Frames begin below this, in milliseconds.
pub const FRAME_LIMIT: u64 = 2_000_000_000_000;

/// Times of edges are below this, in milliseconds, so that they have at most 13 digits.
pub const EDGE_LIMIT: u64 = 10_000_000_000_000;

/// How many milliseconds after a frame the next one may begin.
pub const FRAME_TIME: u64 = 1_000;

/// How many elements a frame has.
pub const ELEMENTS: usize = 100;

/// How many milliseconds an element takes.
pub const ELEMENT_TIME: u64 = 10;

/// A frame: which second it tells, and when it begins.
#[derive(Clone, Copy, PartialEq, Eq)]
pub struct Frame {
    /// The millisecond at which it begins.
    pub at: u64,
    /// The minute that it tells, counted from 2000-01-01T00:00Z.
    pub minute: u32,
    /// The second of that minute.
    pub second: u8,
}

/// Why a line of a text of frames is refused, in the order in which one line is judged.
#[derive(Clone, Copy, Debug)]
pub enum FrameLineFault {
    /// It is no edge of the kind that is due, or it isn't there.
    Shape,
    /// It begins the 1,201st frame.
    TooManyFrames,
    /// It isn't where an edge of the frame may stand, or the frame begins too late, or too early after the one before.
    Timing,
    /// It ends a frame whose elements tell no second.
    Meaning,
}

//! Frames of IRIG-B: the elements of a second, and texts of frames, which are written and read.
#![tactic(auto)]

mod edge;
mod fault;
mod read;
mod table;
mod told;
mod write;

pub use edge::time_in;
pub use fault::FrameFault;
pub use formats::{FRAMES_LIMIT, Frame, FrameLineFault, MOST_FRAMES};
pub use read::read_frames;
pub use table::elements;
pub use write::write_frame;

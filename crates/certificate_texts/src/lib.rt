//! The text of certificates: its lines written, sent to a file in pieces, and read from bytes.
#![tactic(auto)]

mod entry;
mod fields;
mod head;
mod laws;
mod lines;
mod pieces;
mod place;
mod reader;
mod step;

pub use entry::told_in;
pub use laws::whole_texts_are_certificates;
pub use lines::{HeadText, StepLine, TailText, head_text, step_line, tail_text};
pub use pieces::{HELD_ROOM, Held, flush, put};
pub use place::{HeadPart, Place, Told, first_place};
pub use reader::{BadLine, LINE_ROOM, MOST_LINES, Reader};

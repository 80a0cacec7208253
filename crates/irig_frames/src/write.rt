//! The text of a frame, which is built whole, without taking memory, and written at once.

ghost use Rattle.std.specs.Prelude.{◌≡◌, ◌+◌, ◌*◌, ◌<◌, ◌≤◌, ◌++◌};
ghost use Rattle.arrayvec.specs.ArrayString.{array_string_len};
ghost use Rattle.bank_files.specs.Seen.{Writes};
ghost use Rattle.formats.specs.Bytes.{letter_h, letter_l};
ghost use Rattle.formats.specs.declared.frame.TheConstants.{FRAME_LIMIT};
ghost use Rattle.formats.specs.Frames.{edge, frame_text, pulses, width};
ghost use Rattle.formats.specs.FrameTexts.{IsElement, IsSecond};
ghost use Rattle.irig_frames.specs.declared.write.TheConstants.{EDGE_ROOM, FRAME_ROOM};

use crate::elements;
use arrayvec::ArrayString;
use bank_files::{Failed, Files, push_number, write_all};
use civil::Civil;
use formats::{ELEMENT_TIME, ELEMENTS, Frame};

/// The most bytes of an edge's line: 20 digits, a space, a letter and the end.
pub const EDGE_ROOM: usize = 23;

/// The most bytes of a frame's text.
pub const FRAME_ROOM: usize = 2 * ELEMENTS * EDGE_ROOM;

// A frame's text, or its beginning.
type FrameText = ArrayString<FRAME_ROOM>;

/// Writes the text of a frame at the end of a file, in one append where the file takes it whole. The frame begins before
/// millisecond 2,000,000,000,000, and its second is below 60, or 60 in the last minute of a June or December. It takes no
/// memory.
pub fn write_frame<F: Files>(
    files: &mut F,
    name: &str,
    civil: &Civil,
    frame: &Frame,
) -> Result<(), Failed>
    requires start { frame.now.at < FRAME_LIMIT }
    requires second { IsSecond frame.now.minute frame.now.second }
    ensures { Writes name.now (F.view files.old) (F.view files.new) (frame_text frame.now) result }
{
    let text = text_of(civil, frame);
    write_all(files, name, text.as_str().as_bytes())
}

fn text_of(civil: &Civil, frame: &Frame) -> FrameText
    requires start { frame.now.at < FRAME_LIMIT }
    requires second { IsSecond frame.now.minute frame.now.second }
    ensures { result.bytes ≡ frame_text frame.now }
{
    let mut text = FrameText::new();
    let elements = elements(civil, frame.minute, frame.second);
    let mut ms = frame.at;
    for i in 0..ELEMENTS {
        push_edge(&mut text, ms, 'H');
        push_edge(&mut text, ms + width(elements[i]), 'L');
        ms += ELEMENT_TIME;
    }
    text
}

// For how many milliseconds an element is high.
fn width(element: u8) -> u64
    ensures value { result ≡ width element }
    ensures short { result ≤ 8 }
{
    match element {
        0 => 2,
        1 => 5,
        _ => 8,
    }
}

// Adds the line of an edge.
fn push_edge(text: &mut FrameText, ms: u64, letter: char)
    requires ascii { letter < 128 }
    requires room { array_string_len text.old + EDGE_ROOM ≤ FRAME_ROOM }
    ensures bytes { text.new.bytes ≡ text.old.bytes ++ edge letter ms }
    ensures len { array_string_len text.new ≤ array_string_len text.old + EDGE_ROOM }
{
    push_number(text, ms);
    text.push(' ');
    text.push(letter);
    text.push('\n');
}

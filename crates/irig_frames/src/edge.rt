//! The line of an edge: its millisecond, and the letter of the level that begins there.

ghost use Rattle.std.specs.Prelude.{◌≡◌, ◌≢◌, ◌==◌, ◌++◌, ◌<◌, ℕ, IfSome, IfNone, length};
ghost use Rattle.std.specs.List.{position};
ghost use Rattle.formats.specs.Bytes.{line_feed};
ghost use Rattle.formats.specs.Frames.{edge};
ghost use Rattle.formats.specs.FrameTexts.{BeginsWithEdge};
ghost use Rattle.formats.specs.declared.frame.TheConstants.{EDGE_LIMIT};
ghost use Rattle.irig_frames.specs.Edges.{SpellsEdge, SpellsTime};

// How many digits a time may have.
const MOST_DIGITS: usize = 13;

/// The millisecond of the edge with which a text begins, and the text after its line.
pub fn edge_in(text: &[u8], letter: u8) -> Option<(u64, &[u8])>
    requires { line_feed < letter }
    ensures time { IfSome result (λ found. found.0 < EDGE_LIMIT) }
    ensures edge { IfSome result (λ found. text.now ≡ edge letter found.0 ++ found.1.now) }
    ensures none { IfNone result ((ms : ℕ) → ¬ (BeginsWithEdge letter text.now ms)) }
{
    let end = line_end(text)?;
    let ms = time_on(&text[..end], letter)?;
    Some((ms, &text[end + 1..]))
}

// Where the first LF of a text stands.
fn line_end(text: &[u8]) -> Option<usize>
    ensures { result ≡ position (λ byte. byte == line_feed) text.now }
{
    text.iter().position(|byte| *byte == b'\n')
}

// The millisecond on a line without its LF.
fn time_on(line: &[u8], letter: u8) -> Option<u64>
    ensures time { IfSome result (SpellsEdge letter line.now) }
    ensures none { IfNone result ((ms : ℕ) → ¬ (SpellsEdge letter line.now ms)) }
{
    let (last, front) = line.split_last()?;
    if *last != letter {
        return None;
    }
    let (space, digits) = front.split_last()?;
    if *space != b' ' {
        return None;
    }
    time_in(digits)
}

/// The millisecond that these digits are: at most 13, and with no needless zero.
pub fn time_in(digits: &[u8]) -> Option<u64>
    ensures time { IfSome result (SpellsTime digits.now) }
    ensures none { IfNone result ((ms : ℕ) → ¬ (SpellsTime digits.now ms)) }
{
    if digits.is_empty() || digits.len() > MOST_DIGITS {
        return None;
    }
    if digits[0] == b'0' && digits.len() > 1 {
        return None;
    }
    let mut time = 0;
    for digit in digits {
        if !digit.is_ascii_digit() {
            return None;
        }
        time = time * 10 + u64::from(*digit - b'0');
    }
    Some(time)
}

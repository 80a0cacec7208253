//! The lines of a text, and what one line says.

ghost use Rattle.std.specs.Prelude.{◌≡◌, ◌≢◌, ◌==◌, ℕ, ◌<◌, ◌∷◌, length, IfSome, IfNone};
ghost use Rattle.std.specs.List.{position};
ghost use Rattle.formats.specs.Bytes.{line_feed};
ghost use Rattle.formats.specs.LogLines.{lines_of, without_cr, letter, SpellsRecord};
ghost use Rattle.pulse_log.specs.Line.{SpellsTime, Says};

use definitions::Level;

// How many digits a time may have.
const MOST_DIGITS: usize = 12;

/// What a line says.
#[derive(Clone, Copy)]
pub enum Line {
    /// Nothing: it is empty or a comment.
    Skipped,
    /// The level from this time on, in milliseconds, below 1,000,000,000,000.
    Record(u64, Level),
    /// It is of no such form.
    Malformed,
}

// Where the first LF of a text stands.
fn line_end(text: &[u8]) -> Option<usize>
    ensures { result ≡ position (λ byte. byte == line_feed) text.now }
{
    text.iter().position(|byte| *byte == b'\n')
}

/// The first line without its LF, and the text after it.
pub fn first_line(text: &[u8]) -> (&[u8], &[u8])
    requires { 0 < length text.now }
    ensures lines { lines_of text.now ≡ result.0.now ∷ lines_of result.1.now }
    ensures shorter { length result.1.now < length text.now }
{
    match line_end(text) {
        Some(end) => (&text[..end], &text[end + 1..]),
        None => (text, &text[text.len()..]),
    }
}

// The line without the CR at its end.
fn trimmed(line: &[u8]) -> &[u8]
    ensures { result.now ≡ without_cr line.now }
{
    let Some((last, front)) = line.split_last() else {
        return line;
    };
    if *last == b'\r' { front } else { line }
}

// The time that these digits are: at most 12, and with no needless zero.
fn time_in(digits: &[u8]) -> Option<u64>
    ensures time { IfSome result (SpellsTime digits.now) }
    ensures none { IfNone result ((time : ℕ) → ¬ (SpellsTime digits.now time)) }
{
    if digits.is_empty() || digits.len() > MOST_DIGITS {
        return None;
    }
    if digits[0] == b'0' && digits.len() > 1 {
        return None;
    }
    let mut time = 0;
    for digit in digits {
        if !digit.is_ascii_digit() {
            return None;
        }
        time = time * 10 + u64::from(*digit - b'0');
    }
    Some(time)
}

// The level that this letter stands for.
fn level_of(byte: u8) -> Option<Level>
    ensures level { IfSome result (λ level. byte ≡ letter level) }
    ensures none { IfNone result ((level : Level) → byte ≢ letter level) }
{
    match byte {
        b'H' => Some(Level::High),
        b'L' => Some(Level::Low),
        b'X' => Some(Level::Unknown),
        _ => None,
    }
}

// The record that these bytes are.
fn record_in(bytes: &[u8]) -> Option<(u64, Level)>
    ensures record { IfSome result (SpellsRecord bytes.now) }
    ensures none { IfNone result ((r : ℕ × Level) → ¬ (SpellsRecord bytes.now r)) }
{
    let (byte, front) = bytes.split_last()?;
    let (space, digits) = front.split_last()?;
    if *space != b' ' {
        return None;
    }
    Some((time_in(digits)?, level_of(*byte)?))
}

/// What a line says.
pub fn line_says(line: &[u8]) -> Line
    ensures { Says line.now result }
{
    let line = trimmed(line);
    if line.is_empty() || line[0] == b'#' {
        return Line::Skipped;
    }
    match record_in(line) {
        Some((time, level)) => Line::Record(time, level),
        None => Line::Malformed,
    }
}

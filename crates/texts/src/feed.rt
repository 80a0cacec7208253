//! The feed of a decided answer: a sentence ZDA of NMEA 0183 for each minute.

ghost use Rattle.std.specs.Prelude.{◌≡◌, ◌+◌, ◌<◌, ◌≤◌, ◌++◌, ◌∷◌, [], true};
ghost use Rattle.std.specs.Fmt.{digit_glyph};
ghost use Rattle.arrayvec.specs.ArrayString.{array_string_len};
ghost use Rattle.bank_files.specs.Told.{output_name};
ghost use Rattle.bank_files.specs.Seen.{Writes};
ghost use Rattle.definitions.specs.time.Calendar.{century_minutes};
ghost use Rattle.definitions.specs.sequences.Walks.{IsSequence, IsWalkable};
ghost use Rattle.formats.specs.Feed.{checksum, feed, hex_byte, zda_body, zda_sentence};

use crate::minutes::{MinuteText, push_minutes};
use crate::page::{LINE_ROOM, Line, Page};
use crate::pieces::{push_ascii, push_two_digits};
use bank_files::{Failed, Files};
use civil::{Civil, Fields};
use sequence::Sequence;
use signal_base::{MOST_SECONDS, Window};

/// Writes a sentence for each minute that begins in the window, as the sequence walks through it, to standard output.
/// The sequence is walkable in the window, whose seconds are at most 1,200.
pub fn write_feed<F: Files>(
    files: &mut F,
    civil: &Civil,
    window: &Window,
    q: &Sequence,
) -> Result<(), Failed>
    requires seconds { window.now.seconds ≤ MOST_SECONDS }
    requires sequence { IsSequence q.now }
    requires walkable { IsWalkable window.now q.now }
    ensures { Writes output_name (F.view files.old) (F.view files.new) (feed q.now window.now.seconds) result }
{
    feed_of(civil, window, q).write(files)
}

fn feed_of(civil: &Civil, window: &Window, q: &Sequence) -> Page
    requires seconds { window.now.seconds ≤ MOST_SECONDS }
    requires sequence { IsSequence q.now }
    requires walkable { IsWalkable window.now q.now }
    ensures { result.text.bytes ≡ feed q.now window.now.seconds }
{
    let mut page = Page::new();
    push_minutes(&mut page, &Sentences, civil, window, q);
    page
}

// Sentences ZDA.
#[derive(Drop)]
struct Sentences;

impl MinuteText for Sentences {
    ghost use Rattle.formats.specs.Feed.{zda_sentence};

    ghost text = { λ _ t k. zda_sentence t };

    fn line(&self, civil: &Civil, t: u32, _slot: u16) -> Line {
        sentence(civil, t)
    }
}

// The sentence of a minute: its body, and the checksum of the body.
fn sentence(civil: &Civil, t: u32) -> Line
    requires { t < century_minutes }
    ensures { result.bytes ≡ zda_sentence t }
{
    let body = zda_body(&civil.utc(t));
    let mut text = Line::new();
    text.push_str("$");
    text.push_str(body.as_str());
    text.push_str("*");
    push_hex_byte(&mut text, checksum(body.as_str().as_bytes()));
    text.push_str("\r\n");
    text
}

// What stands between `$` and `*`.
fn zda_body(fields: &Fields) -> Line
    ensures bytes { result.bytes ≡ zda_body fields.now }
    ensures len { array_string_len result ≡ 32 }
{
    let mut text = Line::new();
    text.push_str("GPZDA,");
    push_two_digits(&mut text, fields.hour as u16);
    push_two_digits(&mut text, fields.minute as u16);
    text.push_str("00.00,");
    push_two_digits(&mut text, fields.day as u16);
    text.push_str(",");
    push_two_digits(&mut text, fields.month as u16);
    text.push_str(",");
    push_two_digits(&mut text, fields.year / 100);
    push_two_digits(&mut text, fields.year);
    text.push_str(",00,00");
    text
}

// The exclusive or of all bytes.
fn checksum(bytes: &[u8]) -> u8
    ensures { result ≡ checksum bytes.now }
{
    bytes.iter().fold(0, |sum, byte| sum ^ *byte)
}

// Adds a byte as two upper-case hexadecimal digits.
fn push_hex_byte(text: &mut Line, byte: u8)
    requires { array_string_len text.old + 2 ≤ LINE_ROOM }
    ensures bytes { text.new.bytes ≡ text.old.bytes ++ hex_byte byte }
    ensures len { array_string_len text.new ≡ array_string_len text.old + 2 }
{
    push_hex_digit(text, byte / 16);
    push_hex_digit(text, byte % 16);
}

fn push_hex_digit(text: &mut Line, digit: u8)
    requires digit { digit < 16 }
    requires room { array_string_len text.old < LINE_ROOM }
    ensures bytes { text.new.bytes ≡ text.old.bytes ++ digit_glyph true digit ∷ [] }
    ensures len { array_string_len text.new ≡ array_string_len text.old + 1 }
{
    let glyph = if digit < 10 {
        b'0' + digit
    } else {
        b'A' + (digit - 10)
    };
    text.push(glyph as char);
}

fn hex_digit(digit: u8) -> u8
    requires { digit < 16 }
    ensures glyph { result ≡ digit_glyph true digit }
    ensures ascii { result < 128 }
{
    if digit < 10 {
        b'0' + digit
    } else {
        b'A' + (digit - 10)
    }
}

//! The text of a minute.

ghost use Rattle.std.specs.Prelude.{◌≡◌, ◌+◌, ◌<◌, ◌≤◌, ◌++◌, ◌∷◌, []};
ghost use Rattle.arrayvec.specs.ArrayString.{array_string_len};
ghost use Rattle.definitions.specs.time.Calendar.{century_minutes};
ghost use Rattle.definitions.specs.time.Spelling.{date_text, digit_zero, fields_text, minute_text, two_digits};
ghost use Rattle.board.specs.declared.minute.TheConstants.{TOLD_ROOM};

use arrayvec::ArrayString;
use civil::{Civil, Fields};

/// The most bytes of what is told of a millisecond.
pub const TOLD_ROOM: usize = 64;

/// What is told of a millisecond, or its beginning.
pub type ToldText = ArrayString<TOLD_ROOM>;

/// Adds a minute in UTC, as `2024-06-10T06:16Z`.
pub fn push_minute(text: &mut ToldText, civil: &Civil, t: u32)
    requires century { t < century_minutes }
    requires room { array_string_len text.old + 17 ≤ TOLD_ROOM }
    ensures bytes { text.new.bytes ≡ text.old.bytes ++ minute_text t }
    ensures len { array_string_len text.new ≡ array_string_len text.old + 17 }
{
    push_fields(text, &civil.utc(t));
}

fn push_fields(text: &mut ToldText, fields: &Fields)
    requires { array_string_len text.old + 17 ≤ TOLD_ROOM }
    ensures bytes { text.new.bytes ≡ text.old.bytes ++ fields_text fields.now }
    ensures len { array_string_len text.new ≡ array_string_len text.old + 17 }
{
    push_date(text, fields.year, fields.month, fields.day);
    text.push_str("T");
    push_two_digits(text, fields.hour as u16);
    text.push_str(":");
    push_two_digits(text, fields.minute as u16);
    text.push_str("Z");
}

// Adds a date, as `2024-06-10`.
fn push_date(text: &mut ToldText, year: u16, month: u8, day: u8)
    requires { array_string_len text.old + 10 ≤ TOLD_ROOM }
    ensures bytes { text.new.bytes ≡ text.old.bytes ++ date_text year month day }
    ensures len { array_string_len text.new ≡ array_string_len text.old + 10 }
{
    push_two_digits(text, year / 100);
    push_two_digits(text, year);
    text.push_str("-");
    push_two_digits(text, month as u16);
    text.push_str("-");
    push_two_digits(text, day as u16);
}

// Adds the last two digits of a number.
fn push_two_digits(text: &mut ToldText, n: u16)
    requires { array_string_len text.old + 2 ≤ TOLD_ROOM }
    ensures bytes { text.new.bytes ≡ text.old.bytes ++ two_digits n }
    ensures len { array_string_len text.new ≡ array_string_len text.old + 2 }
{
    push_digit(text, n / 10 % 10);
    push_digit(text, n % 10);
}

fn push_digit(text: &mut ToldText, digit: u16)
    requires digit { digit < 10 }
    requires room { array_string_len text.old < TOLD_ROOM }
    ensures bytes { text.new.bytes ≡ text.old.bytes ++ (digit_zero + digit) ∷ [] }
    ensures len { array_string_len text.new ≡ array_string_len text.old + 1 }
{
    push_ascii(text, b'0' + digit as u8);
}

// Adds an ASCII character.
fn push_ascii(text: &mut ToldText, byte: u8)
    requires ascii { byte < 128 }
    requires room { array_string_len text.old < TOLD_ROOM }
    ensures bytes { text.new.bytes ≡ text.old.bytes ++ byte ∷ [] }
    ensures len { array_string_len text.new ≡ array_string_len text.old + 1 }
{
    text.push(byte as char);
}

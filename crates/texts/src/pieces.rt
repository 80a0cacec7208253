//! Pieces of lines: dates, minutes, sequences and names of stations, and how they are written.

ghost use Rattle.std.specs.Prelude.{◌≡◌, ◌+◌, ◌<◌, ◌≤◌, ◌++◌, ◌∷◌, [], length};
ghost use Rattle.arrayvec.specs.ArrayString.{array_string_len};
ghost use Rattle.definitions.specs.time.Calendar.{century_minutes};
ghost use Rattle.definitions.specs.time.Spelling.{date_text, digit_zero, fields_text, minute_text, two_digits};
ghost use Rattle.definitions.specs.sequences.Walks.{IsSequence};
ghost use Rattle.formats.specs.Bytes.{sequence_text, station_name};

use crate::page::{LINE_ROOM, Line};
use bank_files::push_number;
use civil::{Civil, Fields};
use sequence::Sequence;
use signal_base::Station;

/// Adds the last two digits of a number.
pub fn push_two_digits(line: &mut Line, n: u16)
    requires { array_string_len line.old + 2 ≤ LINE_ROOM }
    ensures bytes { line.new.bytes ≡ line.old.bytes ++ two_digits n }
    ensures len { array_string_len line.new ≡ array_string_len line.old + 2 }
{
    push_digit(line, n / 10 % 10);
    push_digit(line, n % 10);
}

fn push_digit(line: &mut Line, digit: u16)
    requires digit { digit < 10 }
    requires room { array_string_len line.old < LINE_ROOM }
    ensures bytes { line.new.bytes ≡ line.old.bytes ++ (digit_zero + digit) ∷ [] }
    ensures len { array_string_len line.new ≡ array_string_len line.old + 1 }
{
    push_ascii(line, b'0' + digit as u8);
}

/// Adds an ASCII character.
pub fn push_ascii(line: &mut Line, byte: u8)
    requires ascii { byte < 128 }
    requires room { array_string_len line.old < LINE_ROOM }
    ensures bytes { line.new.bytes ≡ line.old.bytes ++ byte ∷ [] }
    ensures len { array_string_len line.new ≡ array_string_len line.old + 1 }
{
    line.push(byte as char);
}

/// Adds a date, as `2024-06-10`.
pub fn push_date(line: &mut Line, year: u16, month: u8, day: u8)
    requires { array_string_len line.old + 10 ≤ LINE_ROOM }
    ensures bytes { line.new.bytes ≡ line.old.bytes ++ date_text year month day }
    ensures len { array_string_len line.new ≡ array_string_len line.old + 10 }
{
    push_two_digits(line, year / 100);
    push_two_digits(line, year);
    line.push_str("-");
    push_two_digits(line, month as u16);
    line.push_str("-");
    push_two_digits(line, day as u16);
}

/// Adds a minute in UTC, as `2024-06-10T06:16Z`.
pub fn push_minute(line: &mut Line, civil: &Civil, t: u32)
    requires century { t < century_minutes }
    requires room { array_string_len line.old + 17 ≤ LINE_ROOM }
    ensures bytes { line.new.bytes ≡ line.old.bytes ++ minute_text t }
    ensures len { array_string_len line.new ≡ array_string_len line.old + 17 }
{
    push_fields(line, &civil.utc(t));
}

fn push_fields(line: &mut Line, fields: &Fields)
    requires { array_string_len line.old + 17 ≤ LINE_ROOM }
    ensures bytes { line.new.bytes ≡ line.old.bytes ++ fields_text fields.now }
    ensures len { array_string_len line.new ≡ array_string_len line.old + 17 }
{
    push_date(line, fields.year, fields.month, fields.day);
    line.push_str("T");
    push_two_digits(line, fields.hour as u16);
    line.push_str(":");
    push_two_digits(line, fields.minute as u16);
    line.push_str("Z");
}

/// Adds a sequence: its first minute, its first second, and whether a leap second is announced.
pub fn push_sequence(line: &mut Line, civil: &Civil, q: &Sequence)
    requires sequence { IsSequence q.now }
    requires room { array_string_len line.old + 42 ≤ LINE_ROOM }
    ensures bytes { line.new.bytes ≡ line.old.bytes ++ sequence_text q.now }
    ensures len { array_string_len line.new ≤ array_string_len line.old + 42 }
{
    push_minute(line, civil, q.first);
    line.push_str(" ");
    push_number(line, q.second as u64);
    line.push_str(if q.announced { " yes" } else { " no" });
}

/// A station's name.
pub fn name_of(station: Station) -> &'static str
    ensures name { result.now ≡ station_name station }
    ensures short { length result.now ≤ 5 }
{
    match station {
        Station::Dcf77 => "dcf77",
        Station::Msf => "msf",
        Station::Wwvb => "wwvb",
        Station::Jjy => "jjy",
    }
}

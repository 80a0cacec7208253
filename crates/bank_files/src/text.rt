//! A text, which is built without taking memory and written at once.
ghost use Rattle.std.specs.Prelude.{◌≡◌, ◌+◌, ◌≤◌, ◌++◌};
ghost use Rattle.std.specs.Fmt.{decimal};
ghost use Rattle.arrayvec.specs.ArrayString.{array_string_len};
ghost use Rattle.bank_files.specs.Seen.{Writes};

use crate::{Failed, Files, write_all};
use arrayvec::ArrayString;
use itoa::Buffer;

/// The most bytes of a text.
pub const TEXT_ROOM: usize = 2_048;

/// A text of at most `TEXT_ROOM` bytes, which takes no memory.
pub type Text = ArrayString<TEXT_ROOM>;

/// Adds a number in decimal digits, at most 20.
pub fn push_number<const ROOM: usize>(text: &mut ArrayString<ROOM>, n: u64)
    requires { array_string_len text.old + 20 ≤ ROOM }
    ensures bytes { text.new.bytes ≡ text.old.bytes ++ decimal n }
    ensures len { array_string_len text.new ≤ array_string_len text.old + 20 }
{
    let mut buffer = Buffer::new();
    text.push_str(buffer.format(n));
}

/// Writes a text at the end of a file, in one append where the file takes it whole.
pub fn write_text<F: Files>(files: &mut F, name: &str, text: &Text) -> Result<(), Failed>
    ensures { Writes name.now (F.view files.old) (F.view files.new) text.now.bytes result }
{
    write_all(files, name, text.as_str().as_bytes())
}

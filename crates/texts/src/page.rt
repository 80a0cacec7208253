//! A text of several lines, built whole and then written at once.

ghost use Rattle.std.specs.Prelude.{◌≡◌, ◌+◌, ◌*◌, ◌<◌, ◌≤◌, ◌++◌, []};
ghost use Rattle.arrayvec.specs.ArrayString.{array_string_len};
ghost use Rattle.bank_files.specs.Told.{output_name};
ghost use Rattle.bank_files.specs.Seen.{Writes};
ghost use Rattle.texts.specs.declared.page.TheConstants.{LINE_ROOM};

use arrayvec::ArrayString;
use bank_files::{Failed, Files, OUTPUT, Text, write_text};

/// The most bytes of a line, with its end.
pub const LINE_ROOM: usize = 64;

/// The most lines of a page.
pub const MOST_LINES: usize = 32;

/// A line, or its beginning.
pub type Line = ArrayString<LINE_ROOM>;

/// A text of at most `MOST_LINES` lines.
#[derive(Drop)]
pub struct Page {
    text: Text,
    lines: usize,
    ghost fits: { array_string_len text ≤ LINE_ROOM * lines },
}

impl Page {
    /// No line.
    pub fn new() -> Page
        ensures bytes { result.text.bytes ≡ [] }
        ensures lines { result.lines ≡ 0 }
    {
        Page {
            text: Text::new(),
            lines: 0,
        }
    }

    /// Adds a line.
    pub fn push(&mut self, line: &Line)
        requires { self.old.lines < MOST_LINES }
        ensures bytes { self.new.text.bytes ≡ self.old.text.bytes ++ line.now.bytes }
        ensures lines { self.new.lines ≡ self.old.lines + 1 }
    {
        self.text.push_str(line.as_str());
        self.lines += 1;
    }

    /// Writes all lines to standard output.
    pub fn write<F: Files>(&self, files: &mut F) -> Result<(), Failed>
        ensures { Writes output_name (F.view files.old) (F.view files.new) self.now.text.bytes result }
    {
        write_text(files, OUTPUT, &self.text)
    }
}

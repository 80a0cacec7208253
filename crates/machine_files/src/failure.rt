//! The machine's error on a file, and which file it was.
ghost use Rattle.std.specs.Prelude.{◌≡◌, IfSome, string_bytes};

use bank_files::OUTPUT;
use std::alloc::Global;
use std::{fmt, io};

/// A file or standard output, and the machine's error on it.
#[derive(Drop)]
pub struct Failure {
    name: String,
    error: io::Error,
}

impl Failure {
    /// The error on the file of this name. Without memory for the name there is none.
    pub fn new(alloc: Global, name: &str, error: io::Error) -> Option<Failure>
        ensures name { IfSome result (λ failure. string_bytes failure.name ≡ name.now) }
        ensures error { IfSome result (λ failure. failure.error ≡ error) }
    {
        let name = String::from_str(alloc, name).ok()?;
        Some(Failure { name, error })
    }
}

impl fmt::Display for Failure {
    fn fmt<W: fmt::Write>(&self, f: &mut fmt::Formatter<W>) -> fmt::Result {
        write_name(f, self.name.as_str())?;
        let error = self.error;
        write!(f, ": {error}")
    }
}

// Writes the name of a file, or what standard output is called.
fn write_name<W: fmt::Write>(f: &mut fmt::Formatter<W>, name: &str) -> fmt::Result {
    if name == OUTPUT {
        return f.write_str("standard output");
    }
    write_visibly(f, name)
}

// Writes a text with its control characters escaped, as `\n` and `\u{1b}`. On a terminal they would do what they stand for.
fn write_visibly<W: fmt::Write>(f: &mut fmt::Formatter<W>, text: &str) -> fmt::Result {
    for c in text.chars() {
        write_char_visibly(f, c)?;
    }
    Ok(())
}

// The same of one character.
fn write_char_visibly<W: fmt::Write>(f: &mut fmt::Formatter<W>, c: char) -> fmt::Result {
    if c.is_control() {
        return write!(f, "{}", c.escape_default());
    }
    f.write_char(c)
}

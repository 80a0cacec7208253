//! The words of the command line, without the program's name.
ghost use Rattle.std.specs.Prelude.{◌≡◌, ◌≤◌, ◌<◌, None, false, true, length, map, take, string_bytes, vec_len, IfOk, IfSome, IsErrOf, IsSome, IsNone, OnOk};
ghost use Rattle.std.specs.Str.{IsUtf8};
ghost use Rattle.program.specs.CommandLine.{Given, IsWord, IsLonger, EndsBefore, AreWords, AreFirstWords, IsNoText, SomeIsNoText};

use due::Status;
use std::alloc::{AllocError, Global};
use std::env::FillError;
use std::rt::Env;

// How many bytes are tried first for a word.
const FIRST_ROOM: usize = 256;

/// Why the words can't be had.
#[derive(Clone, Copy, Debug, PartialEq, Eq)]
pub enum NoWords {
    /// One of them isn't UTF-8.
    NotText,
    /// There is no memory for them.
    NoMemory,
}

impl NoWords {
    ghost use Rattle.program.specs.CommandLine.{status_without_words};

    /// The status of the run.
    pub fn status(self) -> Status
        ensures { result ≡ status_without_words self }
    {
        match self {
            NoWords::NotText => Status::BadWords,
            NoWords::NoMemory => Status::NoMemory,
        }
    }
}

impl From<AllocError> for NoWords {
    ghost use Rattle.std.specs.Prelude.{◌≡◌};
    ghost use Rattle.program.specs.declared.command_line.NoWords.TheVariants.{NoMemory};

    ghost from_gives = { λ _ why. why ≡ NoMemory };

    fn from(_: AllocError) -> NoWords {
        NoWords::NoMemory
    }
}

/// A command line: the program's name, which has the number 0, and the words after it, each some bytes. It tells all of
/// them or nothing.
pub trait CommandLine {
    /// What is told of it.
    ghost given: { Self → Given };

    /// Copies the word of that number to the front of `into`, and answers its length.
    fn copy_word(&self, number: usize, into: &mut [u8]) -> Result<usize, FillError>
        ensures length { IfOk result (λ n. n ≤ length into.new) }
        ensures word { IfOk result (λ n. IsWord (given self.now) number (take n into.new)) }
        ensures end { IsErrOf result FillError.NotPresent → EndsBefore (given self.now) number }
        ensures too_long { IsErrOf result FillError.TooLong → IsLonger (given self.now) number (length into.new) };
}

/// The command line that the operating system gives. Nothing is told of it. It is trusted: it asks the operating system,
/// and hands on what that answers.
#[derive(Drop)]
pub struct HostLine<'a, R: Env>(pub &'a R);

impl<R: Env> CommandLine for HostLine<'_, R> {
    ghost given = { λ _. None };

    fn copy_word(&self, number: usize, into: &mut [u8]) -> Result<usize, FillError> {
        self.0.arg(number, into)
    }
}

/// Copies the words after the program's name, which need not be text.
pub fn words<C: CommandLine>(alloc: Global, line: &C) -> Result<Vec<String>, NoWords>
    ensures words { IfOk result (λ words. AreWords (C.given line.now) (map string_bytes words.items)) }
    ensures not_text { IsErrOf result NoWords.NotText → SomeIsNoText (C.given line.now) }
{
    let mut words = Vec::new(alloc);
    for _turn in 0..usize::MAX {
        if !add_word(alloc, line, &mut words)? {
            return Ok(words);
        }
    }
    Err(NoWords::NoMemory)
}

// Adds the next word, and tells whether there was one.
fn add_word<C: CommandLine>(
    alloc: Global,
    line: &C,
    words: &mut Vec<String>,
) -> Result<bool, NoWords>
    requires { AreFirstWords (C.given line.now) (map string_bytes words.old.items) }
    ensures more { OnOk result (AreFirstWords (C.given line.now) (map string_bytes words.new.items)) }
    ensures end { IfOk result (λ more. more ≡ false
        → AreWords (C.given line.now) (map string_bytes words.new.items)) }
    ensures not_text { IsErrOf result NoWords.NotText → SomeIsNoText (C.given line.now) }
{
    match word(alloc, line, words.len() + 1)? {
        Some(word) => {
            words.push(word).map_err(|_| NoWords::NoMemory)?;
            Ok(true)
        }
        None => Ok(false),
    }
}

// The word of that number, where there are so many.
fn word<C: CommandLine>(alloc: Global, line: &C, number: usize) -> Result<Option<String>, NoWords>
    ensures word { IfOk result (λ word. IfSome word (λ text. IsWord (C.given line.now) number (string_bytes text))) }
    ensures end { IfOk result (λ word. word ≡ None → EndsBefore (C.given line.now) number) }
    ensures not_text { IsErrOf result NoWords.NotText → IsNoText (C.given line.now) number }
{
    let mut size = FIRST_ROOM;
    for _turn in 0..usize::BITS {
        let mut room = room_for(alloc, size)?;
        match line.copy_word(number, &mut room) {
            Ok(length) => return Ok(Some(front_as_text(room, length)?)),
            Err(FillError::NotPresent) => return Ok(None),
            Err(FillError::TooLong) => size = size.saturating_mul(2),
        }
    }
    Err(NoWords::NoMemory)
}

// That many bytes, to copy a word into.
fn room_for(alloc: Global, count: usize) -> Result<Vec<u8>, AllocError> {
    vec![in alloc; 0u8; count]
}

// That many of these bytes, as text.
fn front_as_text(room: Vec<u8>, length: usize) -> Result<String, NoWords>
    ensures text { IfOk result (λ text. string_bytes text ≡ take length room.items) }
    ensures not_text { IsErrOf result NoWords.NotText → ¬ (IsUtf8 (take length room.items)) }
{
    let mut bytes = room;
    bytes.truncate(length);
    String::from_utf8(bytes).map_err(|_| NoWords::NotText)
}

#[cfg(test)]
mod tests {
    use super::*;
    use std::test::Fail;

    // A command line of these words, the program's name first.
    #[derive(Drop)]
    struct Line<'a>(&'a [&'a [u8]]);

    impl Env for Line<'_> {
        fn arg(&self, i: usize, buf: &mut [u8]) -> Result<usize, FillError> {
            let word = *self.0.get(i).ok_or(FillError::NotPresent)?;
            if word.len() > buf.len() {
                return Err(FillError::TooLong);
            }
            buf[..word.len()].copy_from_slice(word);
            Ok(word.len())
        }

        fn var(&self, _name: &str, _buf: &mut [u8]) -> Result<usize, FillError> {
            Err(FillError::NotPresent)
        }

        fn var_at(&self, _i: usize, _buf: &mut [u8]) -> Result<usize, FillError> {
            Err(FillError::NotPresent)
        }
    }

    #[test]
    fn leaves_out_the_name(rt: HostRuntime) -> Result<(), Fail> {
        let line = Line(&[b"\xff", b"decode", b"", b"a.log"]);
        let found = words(rt.alloc(), &HostLine(&line))?;
        assert_eq!(rt; found.len(), 3);
        assert_eq!(rt; found[0].as_str(), "decode");
        assert_eq!(rt; found[1].as_str(), "");
        assert_eq!(rt; found[2].as_str(), "a.log");
        let none = words(rt.alloc(), &HostLine(&Line(&[b"tsbank"])))?;
        assert!(rt; none.is_empty());
        Ok(())
    }

    // 256 bytes fill the first room, and 513 are too many for the second.
    #[test]
    fn takes_long_words(rt: HostRuntime) -> Result<(), Fail> {
        let long = [b'7'; 513];
        for length in [255, 256, 257, 512, 513] {
            let line = [b"tsbank".as_slice(), &long[..length], b"8".as_slice()];
            let found = words(rt.alloc(), &HostLine(&Line(&line)))?;
            assert_eq!(rt; found.len(), 2, "{length}");
            assert_eq!(rt; found[0].len(), length);
            assert_eq!(rt; found[1].as_str(), "8", "{length}");
        }
        Ok(())
    }

    #[test]
    fn refuses_what_is_no_text(rt: HostRuntime) {
        let line = Line(&[b"tsbank", b"decode", b"\xff"]);
        assert_eq!(rt;
            words(rt.alloc(), &HostLine(&line)).err(),
            Some(NoWords::NotText)
        );
    }
}

//! Lines that several texts have: words, a number or a sequence behind a word.

ghost use Rattle.std.specs.Prelude.{◌≡◌, ◌<◌, ◌≤◌, ◌++◌, length};
ghost use Rattle.std.specs.Fmt.{decimal};
ghost use Rattle.definitions.specs.sequences.Walks.{IsSequence};
ghost use Rattle.formats.specs.Bytes.{line, sequence_text};

use crate::page::{LINE_ROOM, Line};
use crate::pieces::push_sequence;
use bank_files::push_number;
use civil::Civil;
use sequence::Sequence;

/// A line of these words.
pub fn words_line(words: &str) -> Line
    requires { length words.now < LINE_ROOM }
    ensures { result.bytes ≡ line words.now }
{
    let mut text = Line::new();
    text.push_str(words);
    text.push_str("\n");
    text
}

/// A line of a word, with the space after it, and a number.
pub fn number_line(word: &str, n: u32) -> Line
    requires { length word.now ≤ 10 }
    ensures { result.bytes ≡ line (word.now ++ decimal n) }
{
    let mut text = Line::new();
    text.push_str(word);
    push_number(&mut text, n as u64);
    text.push_str("\n");
    text
}

/// A line of a word, with the space after it, and a sequence.
pub fn sequence_line(word: &str, civil: &Civil, q: &Sequence) -> Line
    requires word { length word.now ≤ 10 }
    requires sequence { IsSequence q.now }
    ensures { result.bytes ≡ line (word.now ++ sequence_text q.now) }
{
    let mut text = Line::new();
    text.push_str(word);
    push_sequence(&mut text, civil, q);
    text.push_str("\n");
    text
}

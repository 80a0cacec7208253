//! What stands where in words that follow the grammar.

ghost use Rattle.std.specs.Prelude.{◌≡◌, ◌&&◌, bytes_eq, is_none, option_map, string_bytes};
ghost use Rattle.std.specs.List.{list_all, list_any};
ghost use Rattle.formats.specs.Words.{are_pairs, form_of, is_value, line_behind, line_of, value_behind};
ghost use Rattle.bank_words.specs.Own.{behind_word, behind_words};
ghost use Rattle.bank_words.specs.Seen.{parts_seen, texts_of};

use crate::line::Line;
use crate::table::{places_of, takes, words_of};
use formats::Command;

// Whether a word may stand at a place or behind an option: it isn't empty and doesn't begin with `-`.
fn is_value(word: &str) -> bool
    ensures { result ≡ is_value word.now }
{
    match word.as_bytes().first() {
        None => false,
        Some(first) => *first != b'-',
    }
}

/// The value of an option, if it stands among the pairs.
pub fn value_behind<'a>(option: &str, pairs: &'a [String]) -> Option<&'a str>
    ensures { option_map (λ value. value.now) result ≡ value_behind option.now (texts_of pairs.now) }
{
    let mut left = pairs;
    while let [word, value, rest @ ..] = left {
        if word.as_str() == option {
            return Some(value.as_str());
        }
        left = rest;
    }
    None
}

// Whether a pair is one of an option that the command takes and a value, and the option doesn't stand among the pairs
// behind it.
fn is_pair(command: Command, option: &str, value: &str, behind: &[String]) -> bool
    ensures { result ≡ (list_any (bytes_eq option.now) (form_of command).options && is_value value.now && is_none (value_behind option.now (texts_of behind.now))) }
{
    takes(command, option) && is_value(value) && value_behind(option, behind).is_none()
}

// Whether the words are pairs of an option that the command takes and a value, each option at most once.
fn are_pairs(command: Command, pairs: &[String]) -> bool
    ensures { result ≡ are_pairs (form_of command).options (texts_of pairs.now) }
{
    let mut left = pairs;
    while let [option, value, rest @ ..] = left {
        if !is_pair(command, option.as_str(), value.as_str(), rest) {
            return false;
        }
        left = rest;
    }
    left.is_empty()
}

// The words behind the first, if that is this word.
fn behind_word<'a>(own: &str, words: &'a [String]) -> Option<&'a [String]>
    ensures { option_map (λ rest. texts_of rest.now) result ≡ behind_word own.now (texts_of words.now) }
{
    match words {
        [] => None,
        [word, rest @ ..] => if own == word.as_str() {
            Some(rest)
        } else {
            None
        },
    }
}

// The words behind those of the command, if they begin with these.
fn behind<'a>(command: Command, words: &'a [String]) -> Option<&'a [String]>
    ensures { option_map (λ rest. texts_of rest.now) result ≡ behind_words (form_of command).words (texts_of words.now) }
{
    let (first, second) = words_of(command);
    let rest = behind_word(first, words)?;
    match second {
        None => Some(rest),
        Some(second) => behind_word(second, rest),
    }
}

// Whether a value stands at each of these places.
fn are_values(places: &[String]) -> bool
    ensures { result ≡ list_all (λ word. is_value (string_bytes word)) places.now }
{
    places.iter().all(|word| is_value(word.as_str()))
}

// The line of a command with these words behind its own, if they follow the grammar.
fn line_behind<'a>(command: Command, behind: &'a [String]) -> Option<Line<'a>>
    ensures { option_map parts_seen result ≡ line_behind command (texts_of behind.now) }
{
    let count = places_of(command);
    if behind.len() < count {
        return None;
    }
    let (places, pairs) = behind.split_at(count);
    if !are_values(places) || !are_pairs(command, pairs) {
        return None;
    }
    Some(Line {
        command,
        places,
        pairs,
    })
}

/// The line of the one of these commands with which the words begin, if they follow the grammar.
pub fn line_in<'a>(commands: &[Command], words: &'a [String]) -> Option<Line<'a>>
    ensures { option_map parts_seen result ≡ line_of commands.now (texts_of words.now) }
{
    for command in commands {
        if let Some(behind) = behind(*command, words) {
            return line_behind(*command, behind);
        }
    }
    None
}

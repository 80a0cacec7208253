//! What the words of the command line ask for: those of a decode, without two of its options.

ghost use Rattle.std.specs.Prelude.{◌≡◌, Err, IfOk, MatchResult, bytes_eq};
ghost use Rattle.std.specs.List.{list_any};
ghost use Rattle.formats.specs.OrderRanges.{IsAsked, IsFile};
ghost use Rattle.bank_words.specs.Seen.{texts_of};
ghost use Rattle.due.specs.HeardRuns.{AsksHeard, decode_words, heard_order, left_out, names_left_out};
ghost use Rattle.bank.specs.Tasks.{AreWorkers};
ghost use Rattle.heard.specs.Asking.{asked_seen};

use crate::ask::Ask;
use bank_words::{Order, read_words};
use formats::WordFault;
use std::alloc::{AllocError, Global};

/// The words of the decode that is looked at.
pub fn decode_words(alloc: Global, words: &[String]) -> Result<Vec<String>, AllocError>
    ensures { IfOk result (λ all. texts_of all.items ≡ decode_words (texts_of words.now)) }
{
    let mut all = Vec::new(alloc);
    all.push("decode".to_string(alloc)?)?;
    for i in 0..words.len() {
        all.push(words[i].as_str().to_string(alloc)?)?;
    }
    Ok(all)
}

/// What the words ask for, of which `all` are those of the decode.
pub fn asked_by<'a>(words: &[String], all: &'a [String]) -> Result<Ask<'a>, WordFault>
    requires { texts_of all.now ≡ decode_words (texts_of words.now) }
    ensures asks { MatchResult result (λ ask. AsksHeard (texts_of words.now) (asked_seen ask)) (λ fault. heard_order (texts_of words.now) ≡ Err fault) }
    ensures file { IfOk result (λ ask. IsFile ask.config.now) }
    ensures asked { IfOk result (λ ask. IsAsked ask.asked) }
    ensures workers { IfOk result (λ ask. AreWorkers ask.workers) }
{
    if names_left_out(words) {
        return Err(WordFault::Usage);
    }
    let order = read_words(all)?;
    match order {
        Order::Decode {
            config,
            asked,
            workers,
            certificate,
        } => match certificate {
            Some(_) => Err(WordFault::Usage),
            None => Ok(Ask {
                config,
                asked,
                workers,
            }),
        },
        _ => Err(WordFault::Usage),
    }
}

// Whether some word is an option of a decode that is none here.
fn names_left_out(words: &[String]) -> bool
    ensures { result ≡ names_left_out (texts_of words.now) }
{
    for i in 0..words.len() {
        if is_left_out(words[i].as_str()) {
            return true;
        }
    }
    false
}

fn is_left_out(word: &str) -> bool
    ensures { result ≡ list_any (bytes_eq word.now) left_out }
{
    word == "--workers" || word == "--certificate"
}

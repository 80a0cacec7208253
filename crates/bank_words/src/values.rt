//! The values that words give, checked in their order.

ghost use Rattle.std.specs.Prelude.{◌≡◌, ◌<◌, ◌^◌, IfOk, IfSome, option_map, slice_get};
ghost use Rattle.formats.specs.OrderRanges.{IsIn, IsOfKind};
ghost use Rattle.formats.specs.Orders.{bad, given, is_placed, said_by, text_in, valued, values_of};
ghost use Rattle.formats.specs.WordValues.{kind_of, read_as, suits};
ghost use Rattle.bank_words.specs.Gives.{Gives};
ghost use Rattle.bank_words.specs.Rest.{behind_range};
ghost use Rattle.bank_words.specs.Seen.{parts_seen, texts_of};

use crate::grammar::value_behind;
use crate::line::Line;
use crate::numbers::{minute_in, number_in};
use crate::table::{kind_of, last_minute};
use definitions::CENTURY_MINUTES;
use formats::{
    Asked, Command, DEFAULT_COUNT, DEFAULT_READERS, DEFAULT_SECONDS, DEFAULT_STEP, DEFAULT_WORKERS,
    OptionName, ValueKind, Values, WordFault,
};

// The first of some words.
fn first_of<'a>(words: &'a [String]) -> Option<&'a str>
    ensures { option_map (λ text. text.now) result ≡ slice_get (texts_of words.now) 0 }
{
    match words {
        [] => None,
        [word, ..] => Some(word.as_str()),
    }
}

// Whether the value stands at a place.
fn is_placed(command: Command, name: OptionName) -> bool
    ensures { result ≡ is_placed command name }
{
    match command {
        Command::Trial => match name {
            OptionName::Number => true,
            _ => false,
        },
        Command::Encode { .. } => match name {
            OptionName::Minute => true,
            _ => false,
        },
        _ => false,
    }
}

// The text of a value, if it is given.
fn text_in<'a>(line: &Line<'a>, name: OptionName) -> Option<&'a str>
    ensures { option_map (λ text. text.now) result ≡ text_in name (parts_seen line.now) }
{
    if is_placed(line.command, name) {
        first_of(line.places)
    } else {
        value_behind(name.as_str(), line.pairs)
    }
}

// The value that a text says.
fn read_as(kind: ValueKind, text: &str) -> Option<u64>
    ensures value { result ≡ read_as kind text.now }
    ensures range { IfSome result (IsOfKind kind) }
{
    match kind {
        ValueKind::Number { least, most } => number_in(text, least, most),
        ValueKind::Minute => match minute_in(text) {
            Some(minute) => Some(minute as u64),
            None => None,
        },
    }
}

// Whether the value suits the command: a minute must be one that its station can send.
fn suits(command: Command, name: OptionName, value: u64) -> bool
    requires { IsIn name value }
    ensures { result ≡ suits command name value }
{
    match (command, name) {
        (Command::Encode { station }, OptionName::Minute) => value <= last_minute(station) as u64,
        _ => true,
    }
}

// The value that a text says, if it suits the command.
fn said_by(command: Command, name: OptionName, text: &str) -> Option<u64>
    ensures value { result ≡ said_by command name text.now }
    ensures range { IfSome result (IsIn name) }
{
    let value = read_as(kind_of(name), text)?;
    if suits(command, name, value) {
        Some(value)
    } else {
        None
    }
}

// The fault of a bad value.
fn bad(name: OptionName) -> WordFault
    ensures { result ≡ bad (kind_of name) name }
{
    match kind_of(name) {
        ValueKind::Number { .. } => WordFault::BadNumber { option: name },
        ValueKind::Minute => WordFault::BadMinute { option: name },
    }
}

// The value, if it is given.
fn given(line: &Line, name: OptionName) -> Result<Option<u64>, WordFault>
    ensures value { Gives (λ n. n) result (given name (parts_seen line.now)) }
    ensures range { IfOk result (λ n. IfSome n (IsIn name)) }
{
    let Some(text) = text_in(line, name) else {
        return Ok(None);
    };
    match said_by(line.command, name, text) {
        Some(value) => Ok(Some(value)),
        None => Err(bad(name)),
    }
}

// The value, or this one where none is given.
fn valued(line: &Line, name: OptionName, default: u64) -> Result<u64, WordFault>
    requires { IsIn name default }
    ensures value { Gives (λ n. n) result (valued name default (parts_seen line.now)) }
    ensures range { IfOk result (IsIn name) }
{
    match given(line, name)? {
        Some(value) => Ok(value),
        None => Ok(default),
    }
}

// A value below 2^32 that may be given, as a number of 32 bits.
fn narrow(value: Option<u64>) -> Option<u32>
    requires { IfSome value (λ n. n < 2 ^ 32) }
    ensures { result ≡ value }
{
    match value {
        Some(value) => Some(value as u32),
        None => None,
    }
}

// All values of a line, of which those up to the range are known: the others are checked in the order in which they stand
// here, and an empty range comes last.
fn behind_range(
    line: &Line,
    number: Option<u32>,
    minute: Option<u32>,
    asked: Asked,
) -> Result<Values, WordFault>
    ensures { Gives (λ v. v) result (behind_range number minute asked (parts_seen line.now)) }
{
    let workers = valued(line, OptionName::Workers, DEFAULT_WORKERS as u64)?;
    let leap = valued(line, OptionName::Leap, 0)?;
    let step = valued(line, OptionName::Step, DEFAULT_STEP as u64)?;
    let count = valued(line, OptionName::Count, DEFAULT_COUNT as u64)?;
    let readers = valued(line, OptionName::Readers, DEFAULT_READERS as u64)?;
    if asked.to <= asked.from {
        return Err(WordFault::EmptyRange);
    }
    Ok(Values {
        number,
        minute,
        asked,
        workers: workers as u8,
        leap: leap == 1,
        step: step as u16,
        count: count as u16,
        readers: readers as u8,
    })
}

/// All values of a line, checked in the order in which they stand here. An empty range comes last.
pub fn values_of(line: &Line) -> Result<Values, WordFault>
    ensures { Gives (λ v. v) result (values_of (parts_seen line.now)) }
{
    let number = given(line, OptionName::Number)?;
    let minute = given(line, OptionName::Minute)?;
    let start = given(line, OptionName::Start)?;
    let seconds = valued(line, OptionName::Seconds, DEFAULT_SECONDS as u64)?;
    let from = valued(line, OptionName::From, 0)?;
    let to = valued(line, OptionName::To, CENTURY_MINUTES as u64 - 1)?;
    let asked = Asked {
        start,
        seconds: seconds as u16,
        from: from as u32,
        to: to as u32 + 1,
    };
    behind_range(line, narrow(number), narrow(minute), asked)
}

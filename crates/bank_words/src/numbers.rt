//! Numbers and minutes, read from their texts.

ghost use Rattle.std.specs.Prelude.{◌≡◌, ◌≢◌, ◌<◌, ◌^◌, ℕ, IfNone, IfSome, Some};
ghost use Rattle.definitions.specs.time.Calendar.{century_minutes};
ghost use Rattle.formats.specs.declared.words.ValueKind.TheVariants.{Number};
ghost use Rattle.formats.specs.WordValues.{minute_of, number_of, read_as};
ghost use Rattle.bank_words.specs.Plain.{is_plain};

use civil::parse_minute;
use formats::minutes_have_one_text;

// Whether a text begins as a number does: with a digit that is no zero, or it is a digit alone.
fn is_plain(text: &[u8]) -> bool
    ensures { result ≡ is_plain text.now }
{
    match text {
        [] => false,
        [only] => b'0' <= *only && *only <= b'9',
        [first, ..] => b'1' <= *first && *first <= b'9',
    }
}

// The number of 64 bits whose decimal text this is.
fn number_of(text: &str) -> Option<u64>
    ensures found { IfSome result (λ n. number_of text.now ≡ Some n) }
    ensures none { IfNone result ((n : ℕ) → n < 2 ^ 64 → number_of text.now ≢ Some n) }
{
    if !is_plain(text.as_bytes()) {
        return None;
    }
    match text.parse::<u64>() {
        Ok(number) => Some(number),
        Err(_) => None,
    }
}

/// The number whose decimal text this is, if it is one from the least to the most.
pub fn number_in(text: &str, least: u64, most: u64) -> Option<u64>
    ensures { result ≡ read_as (Number least most) text.now }
{
    let number = number_of(text)?;
    if least <= number && number <= most {
        Some(number)
    } else {
        None
    }
}

/// The minute of the years 2000 to 2099 whose text this is, counted from 2000-01-01T00:00Z.
pub fn minute_in(text: &str) -> Option<u32>
    ensures value { result ≡ minute_of text.now }
    ensures range { IfSome result (λ minute. minute < century_minutes) }
{
    minutes_have_one_text();
    match parse_minute(text) {
        Some(minute) => Some(minute),
        None => None,
    }
}

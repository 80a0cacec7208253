//! Fields of a line, read from its bytes: numbers, and what stands before a space.

ghost use Rattle.std.specs.Prelude.{ℕ, ◌≡◌, ◌≢◌, ◌==◌, ◌<◌, ◌≤◌, ◌^◌, ◌++◌, ◌∷◌, IfNone, IfSome, List};
ghost use Rattle.std.specs.Fmt.{decimal};
ghost use Rattle.std.specs.List.{position};
ghost use Rattle.formats.specs.Bytes.{space};
ghost use Rattle.certificate_texts.specs.Fields.{HasNo};

// How many digits a number of 64 bits may have.
const MOST_DIGITS: usize = 20;

/// The number of 64 bits whose decimal text this is.
pub fn number_of(digits: &[u8]) -> Option<u64>
    ensures small { IfSome result (λ n. n < 2 ^ 64) }
    ensures some { IfSome result (λ n. decimal n ≡ digits.now) }
    ensures none { IfNone result ((n : ℕ) → n < 2 ^ 64 → decimal n ≢ digits.now) }
{
    if digits.is_empty() || digits.len() > MOST_DIGITS {
        return None;
    }
    if digits[0] == b'0' && digits.len() > 1 {
        return None;
    }
    let mut number: u128 = 0;
    for digit in digits {
        if !digit.is_ascii_digit() {
            return None;
        }
        number = number * 10 + u128::from(*digit - b'0');
    }
    if number > u64::MAX as u128 {
        return None;
    }
    Some(number as u64)
}

/// The same of a number in a range.
pub fn number_in(digits: &[u8], least: u64, most: u64) -> Option<u64>
    ensures some { IfSome result (λ n. (least ≤ n) × (n ≤ most) × (decimal n ≡ digits.now)) }
    ensures none { IfNone result ((n : ℕ) → least ≤ n → n ≤ most → decimal n ≢ digits.now) }
{
    let number = number_of(digits)?;
    if number < least {
        return None;
    }
    if number > most {
        return None;
    }
    Some(number)
}

/// What stands before a space, and what behind it.
#[derive(Drop)]
pub struct Field<'a> {
    /// Before it.
    pub front: &'a [u8],
    /// Behind it.
    pub rest: &'a [u8],
}

/// What stands before the first space, and what behind it.
pub fn field_in(text: &[u8]) -> Option<Field<'_>>
    ensures first { IfSome result (λ found. HasNo space found.front.now) }
    ensures parts { IfSome result (λ found. text.now ≡ found.front.now ++ space ∷ found.rest.now) }
    ensures none { IfNone result (HasNo space text.now) }
{
    let end = first_space(text)?;
    Some(Field {
        front: &text[..end],
        rest: &text[end + 1..],
    })
}

fn first_space(text: &[u8]) -> Option<usize>
    ensures { result ≡ position (λ byte. byte == space) text.now }
{
    text.iter().position(|byte| *byte == b' ')
}

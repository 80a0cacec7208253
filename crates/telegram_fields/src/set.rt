//! Sets of symbols, as masks in which bit `x` stands for symbol `x`.

ghost use Rattle.std.specs.Prelude.{◌≡◌, ◌<◌, if◌then◌else◌};
ghost use Rattle.definitions.specs.codes.Vocabulary.{only};

/// The set of the symbols 0 and 1.
pub const FREE: u8 = 3;

/// What a second carries that the minute doesn't have.
pub const NO_SECOND: u8 = 0;

/// The set of one symbol, which is below 8.
pub fn only(symbol: u8) -> u8
    requires { symbol < 8 }
    ensures { result ≡ only symbol }
{
    1 << symbol
}

/// How many seconds a minute has, where `long` says whether a leap second is inserted in it.
pub fn seconds_of(long: bool) -> u8
    ensures { result ≡ (if long then 61 else 60) }
{
    if long { 61 } else { 60 }
}

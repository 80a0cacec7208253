//! The telegram of MSF: the set of symbols that each second of a minute may carry (NPL's MSF 60 kHz time and date code).
#![tactic(auto)]

ghost use Rattle.std.specs.Prelude.{◌≡◌, ◌<◌, false, map, replicate, set};
ghost use Rattle.std.specs.List.{range_with_len};
ghost use Rattle.definitions.specs.codes.Vocabulary.{free, no_second};
ghost use Rattle.definitions.specs.codes.Msf.{AreInRange, bit_a, bit_b, code_second, msf_fields, msf_second, odd_parity};
ghost use Rattle.telegram_fields.specs.Laying.{with_sets};
ghost use Rattle.msf_code.specs.Laying.{no_field};

pub use definitions::MsfFacts;
use std::array;
use telegram_fields::{FREE, Field, NO_SECOND, carried_bit, only, seconds_of};

// The seconds of the fields, each with its weight.
const YEAR: [(u8, u8); 8] = [
    (17, 80),
    (18, 40),
    (19, 20),
    (20, 10),
    (21, 8),
    (22, 4),
    (23, 2),
    (24, 1),
];

const MONTH: [(u8, u8); 5] = [(25, 10), (26, 8), (27, 4), (28, 2), (29, 1)];

const DAY: [(u8, u8); 6] = [(30, 20), (31, 10), (32, 8), (33, 4), (34, 2), (35, 1)];

const WEEKDAY: [(u8, u8); 3] = [(36, 4), (37, 2), (38, 1)];

const HOUR: [(u8, u8); 6] = [(39, 20), (40, 10), (41, 8), (42, 4), (43, 2), (44, 1)];

const MINUTE: [(u8, u8); 7] = [
    (45, 40),
    (46, 20),
    (47, 10),
    (48, 8),
    (49, 4),
    (50, 2),
    (51, 1),
];

// The symbol of a one in bit A alone.
const ONE: u8 = 2;

// The symbol that marks second 0.
const MINUTE_MARKER: u8 = 4;

/// The sets of symbols that the seconds of a minute may carry, as masks. The last is empty unless the minute has
/// 61 seconds.
pub fn telegram(facts: &MsfFacts) -> [u8; 61]
    requires { AreInRange facts.now }
    ensures { result ≡ map (msf_second facts.now) (range_with_len 0 61) }
{
    if facts.long {
        return array::from_fn(|second| set_of(facts, second as u8));
    }
    short_telegram(facts)
}

// That of a minute of 60 seconds.
fn short_telegram(facts: &MsfFacts) -> [u8; 61]
    requires range { AreInRange facts.now }
    requires short { facts.now.long ≡ false }
    ensures { result ≡ map (msf_second facts.now) (range_with_len 0 61) }
{
    let mut sets = sets_of_no_field(facts);
    let [year, month, day, weekday, hour, minute] = &fields(facts);
    year.lay(&mut sets, ONE);
    month.lay(&mut sets, ONE);
    day.lay(&mut sets, ONE);
    weekday.lay(&mut sets, ONE);
    hour.lay(&mut sets, ONE);
    minute.lay(&mut sets, ONE);
    sets
}

// The sets of the seconds of the code that no field has.
fn sets_of_no_field(facts: &MsfFacts) -> [u8; 61]
    ensures { result ≡ with_sets (code_second facts.now) no_field (set (replicate 61 free) 60 no_second) }
{
    let mut sets = [FREE; 61];
    sets[60] = NO_SECOND;
    sets[0] = code_second(facts, 0);
    sets[52] = code_second(facts, 52);
    sets[53] = code_second(facts, 53);
    sets[54] = code_second(facts, 54);
    sets[55] = code_second(facts, 55);
    sets[56] = code_second(facts, 56);
    sets[57] = code_second(facts, 57);
    sets[58] = code_second(facts, 58);
    sets[59] = code_second(facts, 59);
    sets
}

/// The set of symbols that a second may carry, empty from the end of the minute on.
///
/// A minute of 61 seconds has one more after second 16, with both bits 0; its later seconds carry what comes a second
/// earlier in the code.
pub fn set_of(facts: &MsfFacts, second: u8) -> u8
    requires { AreInRange facts.now }
    ensures { result ≡ msf_second facts.now second }
{
    if second >= seconds_of(facts.long) {
        return NO_SECOND;
    }
    if facts.long && second == 17 {
        return only(0);
    }
    if facts.long && 17 < second {
        return code_second(facts, second - 1);
    }
    code_second(facts, second)
}

// The set of a second of the code. Of a second that is given as a number, what it carries is looked up as the program is
// built.
#[inline(always)]
fn code_second(facts: &MsfFacts, second: u8) -> u8
    ensures { result ≡ code_second facts.now second }
{
    if second == 0 {
        return only(MINUTE_MARKER);
    }
    if second <= 16 {
        return FREE;
    }
    only(2 * bit_a(facts, second) + bit_b(facts, second))
}

fn bit_a(facts: &MsfFacts, second: u8) -> u8
    ensures value { result ≡ bit_a facts.now second }
    ensures bound { result < 2 }
{
    match second {
        53..=58 => 1,
        _ => carried_bit(&fields(facts), second),
    }
}

fn bit_b(facts: &MsfFacts, second: u8) -> u8
    ensures value { result ≡ bit_b facts.now second }
    ensures bound { result < 2 }
{
    let [year, month, day, weekday, hour, minute] = &fields(facts);
    match second {
        53 => facts.change as u8,
        54 => odd_parity(year.ones()),
        55 => odd_parity(month.ones() + day.ones()),
        56 => odd_parity(weekday.ones()),
        57 => odd_parity(hour.ones() + minute.ones()),
        58 => facts.summer as u8,
        _ => 0,
    }
}

// The bit that makes the number of ones odd.
fn odd_parity(ones: u8) -> u8
    requires { ones < 255 }
    ensures value { result ≡ odd_parity ones }
    ensures bound { result < 2 }
{
    (ones + 1) % 2
}

fn fields(facts: &MsfFacts) -> [Field<'static>; 6]
    ensures { result ≡ msf_fields facts.now }
{
    [
        Field::new(&YEAR, facts.year as u16),
        Field::new(&MONTH, facts.month as u16),
        Field::new(&DAY, facts.day as u16),
        Field::new(&WEEKDAY, facts.weekday as u16),
        Field::new(&HOUR, facts.hour as u16),
        Field::new(&MINUTE, facts.minute as u16),
    ]
}

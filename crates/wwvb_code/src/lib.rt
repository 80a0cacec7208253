//! The telegram of WWVB's amplitude code: the set of symbols that each second of a minute may carry (NIST Special
//! Publication 432).
#![tactic(auto)]

ghost use Rattle.std.specs.Prelude.{◌≡◌, ◌<◌, ◌||◌, map, replicate};
ghost use Rattle.std.specs.List.{range_with_len};
ghost use Rattle.definitions.specs.codes.Vocabulary.{is_within, only};
ghost use Rattle.definitions.specs.codes.Wwvb.{AreInRange, is_marked, wwvb_bit, wwvb_fields, wwvb_second};
ghost use Rattle.telegram_fields.specs.Laying.{with_sets};
ghost use Rattle.wwvb_code.specs.Laying.{no_field};

pub use definitions::WwvbFacts;
use telegram_fields::marked::{MARKER, day_of_year_field, hour_field, minute_field};
use telegram_fields::{FREE, Field, NO_SECOND, carried_bit, only, seconds_of};

// The seconds of the year's last two digits, each with its weight.
const YEAR: [(u8, u8); 8] = [
    (45, 80),
    (46, 40),
    (47, 20),
    (48, 10),
    (50, 8),
    (51, 4),
    (52, 2),
    (53, 1),
];

// The symbol of a one.
const ONE: u8 = 1;

/// The sets of symbols that the seconds of a minute may carry, as masks. The last is empty unless the minute has
/// 61 seconds.
pub fn telegram(facts: &WwvbFacts) -> [u8; 61]
    requires { AreInRange facts.now }
    ensures { result ≡ map (wwvb_second facts.now) (range_with_len 0 61) }
{
    let mut sets = sets_of_no_field(facts);
    let [minute, hour, day, year] = &fields(facts);
    minute.lay(&mut sets, ONE);
    hour.lay(&mut sets, ONE);
    day.lay(&mut sets, ONE);
    year.lay(&mut sets, ONE);
    sets
}

// The sets of the seconds that no field has: most of them carry 0.
fn sets_of_no_field(facts: &WwvbFacts) -> [u8; 61]
    requires { AreInRange facts.now }
    ensures { result ≡ with_sets (wwvb_second facts.now) no_field (replicate 61 (only 0)) }
{
    let mut sets = [only(0); 61];
    sets[0] = set_of(facts, 0);
    sets[9] = set_of(facts, 9);
    sets[19] = set_of(facts, 19);
    sets[29] = set_of(facts, 29);
    sets[36] = set_of(facts, 36);
    sets[37] = set_of(facts, 37);
    sets[38] = set_of(facts, 38);
    sets[39] = set_of(facts, 39);
    sets[40] = set_of(facts, 40);
    sets[41] = set_of(facts, 41);
    sets[42] = set_of(facts, 42);
    sets[43] = set_of(facts, 43);
    sets[49] = set_of(facts, 49);
    sets[55] = set_of(facts, 55);
    sets[56] = set_of(facts, 56);
    sets[57] = set_of(facts, 57);
    sets[58] = set_of(facts, 58);
    sets[59] = set_of(facts, 59);
    sets[60] = set_of(facts, 60);
    sets
}

/// The set of symbols that a second may carry, empty from the end of the minute on.
// Of a second that is given as a number, what it carries is looked up as the program is built.
#[inline(always)]
pub fn set_of(facts: &WwvbFacts, second: u8) -> u8
    requires { AreInRange facts.now }
    ensures { result ≡ wwvb_second facts.now second }
{
    if second >= seconds_of(facts.long) {
        return NO_SECOND;
    }
    if is_marked(second) {
        return only(MARKER);
    }
    if tells_dut1(second) {
        return FREE;
    }
    only(bit_of(facts, second))
}

fn is_marked(second: u8) -> bool
    ensures { result ≡ is_marked second }
{
    matches!(second, 0 | 9 | 19 | 29 | 39 | 49 | 59 | 60)
}

// The seconds with the sign and the tenths of DUT1.
fn tells_dut1(second: u8) -> bool
    ensures { result ≡ (is_within 36 38 second || is_within 40 43 second) }
{
    matches!(second, 36..=38 | 40..=43)
}

fn bit_of(facts: &WwvbFacts, second: u8) -> u8
    requires { facts.now.us_code < 4 }
    ensures value { result ≡ wwvb_bit facts.now second }
    ensures bound { result < 2 }
{
    match second {
        55 => (facts.year % 4 == 0) as u8,
        56 => facts.leap as u8,
        57 => facts.us_code / 2,
        58 => facts.us_code % 2,
        _ => carried_bit(&fields(facts), second),
    }
}

fn fields(facts: &WwvbFacts) -> [Field<'static>; 4]
    ensures { result ≡ wwvb_fields facts.now }
{
    [
        minute_field(facts.minute),
        hour_field(facts.hour),
        day_of_year_field(facts.day_of_year),
        Field::new(&YEAR, facts.year as u16),
    ]
}

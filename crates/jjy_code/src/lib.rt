//! The telegram of JJY: the set of symbols that each second of a minute may carry (NICT's description of the
//! standard time code).
#![tactic(auto)]

ghost use Rattle.std.specs.Prelude.{◌≡◌, ◌%◌, ◌<◌, false, map, replicate};
ghost use Rattle.std.specs.List.{range_with_len};
ghost use Rattle.definitions.specs.codes.Jjy.{AreInRange, is_call_minute, is_marked, jjy_bit, jjy_fields, jjy_second};
ghost use Rattle.definitions.specs.codes.Vocabulary.{only};
ghost use Rattle.telegram_fields.specs.Laying.{with_sets};
ghost use Rattle.jjy_code.specs.Laying.{no_field};

pub use definitions::JjyFacts;
use signal_base::UNSCORED;
use std::array;
use telegram_fields::marked::{MARKER, day_of_year_field, hour_field, minute_field};
use telegram_fields::{FREE, Field, NO_SECOND, carried_bit, only, seconds_of};

// The seconds of the year's last two digits, each with its weight.
const YEAR: [(u8, u8); 8] = [
    (41, 80),
    (42, 40),
    (43, 20),
    (44, 10),
    (45, 8),
    (46, 4),
    (47, 2),
    (48, 1),
];

const WEEKDAY: [(u8, u8); 3] = [(50, 4), (51, 2), (52, 1)];

// The symbol of a one.
const ONE: u8 = 1;

/// The sets of symbols that the seconds of a minute may carry, as masks. The last is empty unless the minute has
/// 61 seconds.
pub fn telegram(facts: &JjyFacts) -> [u8; 61]
    requires { AreInRange facts.now }
    ensures { result ≡ map (jjy_second facts.now) (range_with_len 0 61) }
{
    if is_call_minute(facts) {
        return array::from_fn(|second| set_of(facts, second as u8));
    }
    coded_telegram(facts)
}

// That of a minute in which no call sign is sent.
fn coded_telegram(facts: &JjyFacts) -> [u8; 61]
    requires range { AreInRange facts.now }
    requires coded { is_call_minute facts.now ≡ false }
    ensures { result ≡ map (jjy_second facts.now) (range_with_len 0 61) }
{
    let mut sets = sets_of_no_field(facts);
    let [minute, hour, day, year, weekday] = &fields(facts);
    minute.lay(&mut sets, ONE);
    hour.lay(&mut sets, ONE);
    day.lay(&mut sets, ONE);
    year.lay(&mut sets, ONE);
    weekday.lay(&mut sets, ONE);
    sets
}

// The sets of the seconds that no field has: most of them carry 0.
fn sets_of_no_field(facts: &JjyFacts) -> [u8; 61]
    requires { AreInRange facts.now }
    ensures { result ≡ with_sets (jjy_second facts.now) no_field (replicate 61 (only 0)) }
{
    let mut sets = [only(0); 61];
    sets[0] = set_of(facts, 0);
    sets[9] = set_of(facts, 9);
    sets[19] = set_of(facts, 19);
    sets[29] = set_of(facts, 29);
    sets[36] = set_of(facts, 36);
    sets[37] = set_of(facts, 37);
    sets[39] = set_of(facts, 39);
    sets[49] = set_of(facts, 49);
    sets[53] = set_of(facts, 53);
    sets[54] = set_of(facts, 54);
    sets[59] = set_of(facts, 59);
    sets[60] = set_of(facts, 60);
    sets
}

/// The set of symbols that a second may carry, empty from the end of the minute on.
// Of a second that is given as a number, what it carries is looked up as the program is built.
#[inline(always)]
pub fn set_of(facts: &JjyFacts, second: u8) -> u8
    requires { AreInRange facts.now }
    ensures { result ≡ jjy_second facts.now second }
{
    if second >= seconds_of(facts.long) {
        return NO_SECOND;
    }
    if is_marked(facts, second) {
        return only(MARKER);
    }
    let is_call_minute = is_call_minute(facts);
    if is_call_minute && 40 <= second && second <= 48 {
        return UNSCORED;
    }
    if is_call_minute && 50 <= second && second <= 55 {
        return FREE;
    }
    only(bit_of(facts, second))
}

fn is_marked(facts: &JjyFacts, second: u8) -> bool
    ensures { result ≡ is_marked facts.now second }
{
    match second {
        0 | 9 | 19 | 29 | 39 | 49 => true,
        59 => !facts.long,
        60 => facts.long,
        _ => false,
    }
}

// In the minutes 15 and 45 the call sign is sent.
fn is_call_minute(facts: &JjyFacts) -> bool
    ensures { result ≡ is_call_minute facts.now }
{
    facts.minute == 15 || facts.minute == 45
}

fn bit_of(facts: &JjyFacts, second: u8) -> u8
    ensures value { result ≡ jjy_bit facts.now second }
    ensures bound { result < 2 }
{
    let fields = fields(facts);
    let [minute, hour, _, _, _] = &fields;
    match second {
        36 => hour.ones() % 2,
        37 => minute.ones() % 2,
        53 | 54 => facts.leap as u8,
        _ => carried_bit(&fields, second),
    }
}

fn fields(facts: &JjyFacts) -> [Field<'static>; 5]
    ensures { result ≡ jjy_fields facts.now }
{
    [
        minute_field(facts.minute),
        hour_field(facts.hour),
        day_of_year_field(facts.day_of_year),
        Field::new(&YEAR, facts.year as u16),
        Field::new(&WEEKDAY, facts.weekday as u16),
    ]
}

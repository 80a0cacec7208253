//! The telegram of DCF77: the set of symbols that each second of a minute may carry (PTB's description of the time
//! code).
#![tactic(auto)]

ghost use Rattle.std.specs.Prelude.{◌≡◌, ◌+◌, ◌%◌, ◌<◌, ◌≤◌, ◌==◌, if◌then◌else◌, map, replicate};
ghost use Rattle.std.specs.List.{range_with_len};
ghost use Rattle.definitions.specs.codes.Dcf77.{AreInRange, dcf_bit, dcf_fields, dcf_second, weekday_from_monday};
ghost use Rattle.definitions.specs.codes.Vocabulary.{free};
ghost use Rattle.telegram_fields.specs.Laying.{with_sets};
ghost use Rattle.dcf_code.specs.Laying.{no_field};

pub use definitions::DcfFacts;
use telegram_fields::{FREE, Field, NO_SECOND, carried_bit, only, seconds_of};

// Seconds and their weights.
const MINUTE: [(u8, u8); 7] = [
    (21, 1),
    (22, 2),
    (23, 4),
    (24, 8),
    (25, 10),
    (26, 20),
    (27, 40),
];

const HOUR: [(u8, u8); 6] = [(29, 1), (30, 2), (31, 4), (32, 8), (33, 10), (34, 20)];

const DAY: [(u8, u8); 6] = [(36, 1), (37, 2), (38, 4), (39, 8), (40, 10), (41, 20)];

const WEEKDAY: [(u8, u8); 3] = [(42, 1), (43, 2), (44, 4)];

const MONTH: [(u8, u8); 5] = [(45, 1), (46, 2), (47, 4), (48, 8), (49, 10)];

const YEAR: [(u8, u8); 8] = [
    (50, 1),
    (51, 2),
    (52, 4),
    (53, 8),
    (54, 10),
    (55, 20),
    (56, 40),
    (57, 80),
];

// The symbol of a one.
const ONE: u8 = 1;

// The symbol of a second without a reduction of the carrier.
const NO_REDUCTION: u8 = 2;

/// The sets of symbols that the seconds of a minute may carry, as masks. The last is empty unless the minute has
/// 61 seconds.
pub fn telegram(facts: &DcfFacts) -> [u8; 61]
    requires { AreInRange facts.now }
    ensures { result ≡ map (dcf_second facts.now) (range_with_len 0 61) }
{
    let mut sets = sets_of_no_field(facts);
    let [minute, hour, day, weekday, month, year] = &fields(facts);
    minute.lay(&mut sets, ONE);
    hour.lay(&mut sets, ONE);
    day.lay(&mut sets, ONE);
    weekday.lay(&mut sets, ONE);
    month.lay(&mut sets, ONE);
    year.lay(&mut sets, ONE);
    sets
}

// The sets of the seconds that no field has.
fn sets_of_no_field(facts: &DcfFacts) -> [u8; 61]
    requires { AreInRange facts.now }
    ensures { result ≡ with_sets (dcf_second facts.now) no_field (replicate 61 free) }
{
    let mut sets = [FREE; 61];
    sets[0] = set_of(facts, 0);
    sets[16] = set_of(facts, 16);
    sets[17] = set_of(facts, 17);
    sets[18] = set_of(facts, 18);
    sets[19] = set_of(facts, 19);
    sets[20] = set_of(facts, 20);
    sets[28] = set_of(facts, 28);
    sets[35] = set_of(facts, 35);
    sets[58] = set_of(facts, 58);
    sets[59] = set_of(facts, 59);
    sets[60] = set_of(facts, 60);
    sets
}

/// The set of symbols that a second may carry, empty from the end of the minute on.
// Of a second that is given as a number, what it carries is looked up as the program is built.
#[inline(always)]
pub fn set_of(facts: &DcfFacts, second: u8) -> u8
    requires { AreInRange facts.now }
    ensures { result ≡ dcf_second facts.now second }
{
    if second >= seconds_of(facts.long) {
        return NO_SECOND;
    }
    if is_last(facts, second) {
        return only(NO_REDUCTION);
    }
    if 1 <= second && second <= 15 {
        return FREE;
    }
    only(bit_of(facts, second))
}

// The last second of the minute has no reduction of the carrier.
fn is_last(facts: &DcfFacts, second: u8) -> bool
    ensures { result ≡ (second == (if facts.now.long then 60 else 59)) }
{
    second == if facts.long { 60 } else { 59 }
}

// PTB calls second 16 A1, seconds 17 and 18 Z1 and Z2, and second 19 A2.
fn bit_of(facts: &DcfFacts, second: u8) -> u8
    ensures value { result ≡ dcf_bit facts.now second }
    ensures bound { result < 2 }
{
    let fields = fields(facts);
    let [minute, hour, day, weekday, month, year] = &fields;
    match second {
        16 => facts.change as u8,
        17 => facts.summer as u8,
        18 => !facts.summer as u8,
        19 => facts.leap as u8,
        20 => 1,
        28 => minute.ones() % 2,
        35 => hour.ones() % 2,
        58 => (day.ones() + weekday.ones() + month.ones() + year.ones()) % 2,
        _ => carried_bit(&fields, second),
    }
}

fn fields(facts: &DcfFacts) -> [Field<'static>; 6]
    ensures { result ≡ dcf_fields facts.now }
{
    [
        Field::new(&MINUTE, facts.minute as u16),
        Field::new(&HOUR, facts.hour as u16),
        Field::new(&DAY, facts.day as u16),
        Field::new(&WEEKDAY, weekday_from_monday(facts.weekday) as u16),
        Field::new(&MONTH, facts.month as u16),
        Field::new(&YEAR, facts.year as u16),
    ]
}

// The weekday from 1 for Monday to 7 for Sunday.
fn weekday_from_monday(weekday: u8) -> u8
    ensures { result ≡ weekday_from_monday weekday }
{
    if weekday == 0 { 7 } else { weekday }
}

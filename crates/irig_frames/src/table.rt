//! The elements of a second: which of them has which weight of which number (IRIG Standard 200, format B).

ghost use Rattle.std.specs.Prelude.{◌≡◌, ◌<◌, IfSome, IsTrue, nat_lt};
ghost use Rattle.std.specs.List.{list_all};
ghost use Rattle.definitions.specs.codes.Vocabulary.{is_one_of, weight_of};
ghost use Rattle.formats.specs.Frames.{binary_weights, decimal_fields, element, elements, elements_on, markers, seconds_before};
ghost use Rattle.formats.specs.FrameTexts.{IsSecond};

use civil::{Civil, Fields};
use formats::ELEMENTS;
use std::array;
use telegram_fields::{Field, carried_bit};

// The element that marks the parts of a frame.
const MARKER: u8 = 2;

/// The elements that carry the digits of the second, each with its weight.
pub const SECOND: [(u8, u8); 7] = [(1, 1), (2, 2), (3, 4), (4, 8), (6, 10), (7, 20), (8, 40)];

/// Those of the minute.
pub const MINUTE: [(u8, u8); 7] = [
    (10, 1),
    (11, 2),
    (12, 4),
    (13, 8),
    (15, 10),
    (16, 20),
    (17, 40),
];

/// Those of the hour.
pub const HOUR: [(u8, u8); 6] = [(20, 1), (21, 2), (22, 4), (23, 8), (25, 10), (26, 20)];

/// Those of the day of the year.
pub const DAY_OF_YEAR: [(u8, u8); 10] = [
    (30, 1),
    (31, 2),
    (32, 4),
    (33, 8),
    (35, 10),
    (36, 20),
    (37, 40),
    (38, 80),
    (40, 100),
    (41, 200),
];

/// Those of the year's last two digits.
pub const YEAR: [(u8, u8); 8] = [
    (50, 1),
    (51, 2),
    (52, 4),
    (53, 8),
    (55, 10),
    (56, 20),
    (57, 40),
    (58, 80),
];

// Those of the straight binary seconds of the day.
const BINARY: [(u8, u32); 17] = [
    (80, 1),
    (81, 2),
    (82, 4),
    (83, 8),
    (84, 16),
    (85, 32),
    (86, 64),
    (87, 128),
    (88, 256),
    (90, 512),
    (91, 1_024),
    (92, 2_048),
    (93, 4_096),
    (94, 8_192),
    (95, 16_384),
    (96, 32_768),
    (97, 65_536),
];

/// The elements of a second of a minute, which is below 60, or 60 in the last minute of a June or December: each is 0, 1,
/// or 2 for a marker.
pub fn elements(civil: &Civil, minute: u32, second: u8) -> [u8; ELEMENTS]
    requires { IsSecond minute second }
    ensures { result ≡ elements minute second }
{
    elements_on(&civil.utc(minute), second)
}

fn elements_on(fields: &Fields, second: u8) -> [u8; ELEMENTS]
    ensures { result ≡ elements_on fields.now second }
{
    array::from_fn(|i| element(fields, second, i as u8))
}

fn element(fields: &Fields, second: u8, i: u8) -> u8
    ensures { result ≡ element fields.now second i }
{
    if is_marker(i) {
        return MARKER;
    }
    if let Some(weight) = binary_weight(i) {
        return (seconds_before(fields, second) / weight % 2) as u8;
    }
    carried_bit(&decimal_fields(fields, second), i)
}

fn is_marker(i: u8) -> bool
    ensures { result ≡ is_one_of markers i }
{
    matches!(i, 0 | 9 | 19 | 29 | 39 | 49 | 59 | 69 | 79 | 89 | 99)
}

// The weight of an element in the straight binary seconds.
fn binary_weight(i: u8) -> Option<u32>
    ensures value { result ≡ weight_of binary_weights i }
    ensures positive { IfSome result (λ weight. 0 < weight) }
{
    weight_in(&BINARY, i)
}

// The weight of an element, where the table has it.
fn weight_in(weights: &[(u8, u32)], i: u8) -> Option<u32>
    requires { IsTrue (list_all (λ w. nat_lt 0 w.1) weights.now) }
    ensures value { result ≡ weight_of weights.now i }
    ensures positive { IfSome result (λ weight. 0 < weight) }
{
    for weight in weights {
        if weight.0 == i {
            return Some(weight.1);
        }
    }
    None
}

// The seconds of the day before this one.
fn seconds_before(fields: &Fields, second: u8) -> u32
    ensures { result ≡ seconds_before fields.now second }
{
    3600 * fields.hour as u32 + 60 * fields.minute as u32 + second as u32
}

fn decimal_fields(fields: &Fields, second: u8) -> [Field<'static>; 5]
    ensures { result ≡ decimal_fields fields.now second }
{
    [
        Field::new(&SECOND, second as u16),
        Field::new(&MINUTE, fields.minute as u16),
        Field::new(&HOUR, fields.hour as u16),
        Field::new(&DAY_OF_YEAR, fields.day_of_year),
        Field::new(&YEAR, fields.year % 100),
    ]
}

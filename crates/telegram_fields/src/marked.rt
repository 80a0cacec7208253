//! What WWVB and JJY lay alike: their marker, and the fields of the minute, the hour and the day of the year.

ghost use Rattle.std.specs.Prelude.{◌≡◌};
ghost use Rattle.definitions.specs.codes.MarkedCode.{day_weights, hour_weights, minute_weights};

use crate::Field;

/// The symbol that marks seconds.
pub const MARKER: u8 = 2;

// Seconds and their weights.
const MINUTE: [(u8, u8); 7] = [(1, 40), (2, 20), (3, 10), (5, 8), (6, 4), (7, 2), (8, 1)];

const HOUR: [(u8, u8); 6] = [(12, 20), (13, 10), (15, 8), (16, 4), (17, 2), (18, 1)];

const DAY_OF_YEAR: [(u8, u8); 10] = [
    (22, 200),
    (23, 100),
    (25, 80),
    (26, 40),
    (27, 20),
    (28, 10),
    (30, 8),
    (31, 4),
    (32, 2),
    (33, 1),
];

/// The field of the minute.
pub fn minute_field(minute: u8) -> Field<'static>
    ensures { result ≡ (minute_weights, minute) }
{
    Field::new(&MINUTE, minute as u16)
}

/// The field of the hour.
pub fn hour_field(hour: u8) -> Field<'static>
    ensures { result ≡ (hour_weights, hour) }
{
    Field::new(&HOUR, hour as u16)
}

/// The field of the day of the year, which is counted from 1.
pub fn day_of_year_field(day_of_year: u16) -> Field<'static>
    ensures { result ≡ (day_weights, day_of_year) }
{
    Field::new(&DAY_OF_YEAR, day_of_year)
}

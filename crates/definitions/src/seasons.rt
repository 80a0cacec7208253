//! What follows from the definition of summer time by days.

ghost use Rattle.std.specs.Prelude.{ℕ, ◌<◌, ◌≤◌};
ghost use Rattle.definitions.specs.time.Seasons.{HasAmericanSummer, HasSummer};

/// In each year of the century one day is the last Sunday of March and one the last of October, and the minutes of
/// European summer time are those from 01:00 UTC of the one up to, and without, 01:00 UTC of the other.
pub fn european_summer_lies_between_its_changes()
    ensures { (year : ℕ) → 2000 ≤ year → year < 2100 → (march : ℕ) × (october : ℕ) × HasSummer year march october }
{}

/// In each year of the century summer time of the United States begins on one day and ends on a later one, and WWVB's two
/// bits are 2 on the one, 1 on the other, 3 between them, and 0 on the year's other days.
pub fn american_summer_lies_between_its_changes()
    ensures { (year : ℕ) → 2000 ≤ year → year < 2100 → (first : ℕ) × (last : ℕ) × HasAmericanSummer year first last }
{}

//! The laws on races and on keys, as plain data.
ghost use Rattle.std.specs.Prelude.{ℕ};
ghost use Rattle.race_words.specs.Law.{StaysSound, LeastTwoLaw};

/// Whatever happens in a race, in whatever order and through however many seats, leads to a sound race.
pub fn races_stay_sound()
    ensures { (workers : ℕ) → StaysSound workers }
{}

/// What the least and the second-least of a list of keys are, and which lists have the same.
pub fn two_least_are_told_by_counts()
    ensures { LeastTwoLaw }
{}

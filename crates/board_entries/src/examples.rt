//! Worked examples of what a board tells.
#![tactic(auto, unfolding(definitions::specs::time::Calendar::day_at, definitions::specs::sequences::Walks::place_at))]

ghost use Rattle.std.specs.Prelude.{◌≡◌, [], ◌∷◌};
ghost use Rattle.definitions.specs.examples.Dates.{at, on};
ghost use Rattle.board_entries.specs.declared.told.Told.TheVariants.{At, Unknown};
ghost use Rattle.board_entries.specs.Board.{told_of};
ghost use Rattle.board_entries.specs.Examples.{in_june, leaping, phased, two_opinions, two_windows, with_later};

/// Two windows of one log, the second a minute after the first, and a millisecond behind both.
pub fn two_windows_of_a_log()
    ensures first { told_of two_windows 0 ≡ At (in_june 6 16) 0 }
    ensures both { told_of two_windows 60_000 ≡ At (in_june 6 17) 0 }
    ensures second { told_of two_windows 179_999 ≡ At (in_june 6 18) 59 }
    ensures behind { told_of two_windows 180_000 ≡ Unknown }
    ensures nothing { told_of [] 0 ≡ Unknown }
{}

/// Where two windows have the millisecond the later entry tells, also where the two differ.
pub fn the_last_entry_tells()
    ensures before { told_of two_opinions 59_999 ≡ At (in_june 6 16) 59 }
    ensures both { told_of two_opinions 60_000 ≡ At (in_june 9 5) 30 }
    ensures last { told_of two_opinions 119_999 ≡ At (in_june 9 6) 29 }
{}

/// An entry is asked as long as no more than 63 follow it.
pub fn sixty_four_entries_are_asked()
    ensures asked { told_of (with_later 63) 1000 ≡ At (in_june 6 16) 8 }
    ensures gone { told_of (with_later 64) 1000 ≡ Unknown }
    ensures last { told_of (with_later 64) 500_000 ≡ At (in_june 7 0) 0 }
{}

/// A window begins with its first second, behind its start by the phase, and ends with its last. A leap second is told as 60.
pub fn edges_of_a_window()
    ensures start { told_of (phased ∷ []) 1249 ≡ Unknown }
    ensures begin { told_of (phased ∷ []) 1250 ≡ At (in_june 6 16) 0 }
    ensures second { told_of (phased ∷ []) 2250 ≡ At (in_june 6 16) 1 }
    ensures last { told_of (phased ∷ []) 61_249 ≡ At (in_june 6 16) 59 }
    ensures end { told_of (phased ∷ []) 61_250 ≡ Unknown }
    ensures leap { told_of (leaping ∷ []) 60_999 ≡ At (at (on 2000 6 30) 23 59) 60 }
    ensures july { told_of (leaping ∷ []) 61_000 ≡ At (at (on 2000 7 1) 0 0) 0 }
{}

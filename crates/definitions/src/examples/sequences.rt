//! Worked examples of sequences.

ghost use Rattle.std.specs.Prelude.{◌≡◌, ◌+◌, ◌*◌, ◌-◌, ◌∷◌, [], true};
ghost use Rattle.definitions.specs.time.Calendar.{century_minutes};
ghost use Rattle.definitions.specs.sequences.Keys.{key_of};
ghost use Rattle.definitions.specs.sequences.Walks.{IsLegal, IsWalkable, unannounced};
ghost use Rattle.definitions.specs.examples.Dates.{at, on};
ghost use Rattle.definitions.specs.examples.Sequences.{from_place, june_announced, june_warned, leap_second_of_june, leap_walk, window_of};

/// The seconds 50, 59 and 60 of a minute with a leap second, and the first of the next two.
pub fn walk_through_a_leap_second()
    ensures { leap_walk ≡ (at (on 2000 6 30) 23 59, 50) ∷ (at (on 2000 6 30) 23 59, 59) ∷ (at (on 2000 6 30) 23 59, 60) ∷ (at (on 2000 7 1) 0 0, 0) ∷ (at (on 2000 7 1) 0 1, 0) ∷ [] }
{}

/// A leap second at the end of June 2000, announced in the month's first minute: WWVB tells it there, and DCF77 not yet,
/// so it is a hypothesis of WWVB alone, and of both together.
pub fn announcement_in_june()
    ensures told { IsLegal (window_of 4 0 century_minutes) june_announced }
    ensures not_told { ¬ (IsLegal (window_of 1 0 century_minutes) june_announced) }
    ensures told_by_one { IsLegal (window_of 5 0 century_minutes) june_announced }
{}

/// DCF77 warns of a leap second in the hour before it, by second 19 of each minute: 60 seconds from 22:59:19 of 30 June 2000
/// on end just before the first of these seconds, and 60 seconds from 22:59:20 on end with it.
pub fn announcement_at_the_end_of_a_window()
    ensures not_told { ¬ (IsLegal (window_of 1 0 century_minutes) (june_warned 19)) }
    ensures told { IsLegal (window_of 1 0 century_minutes) (june_warned 20) }
{}

/// The last minute that DCF77 can send in the century: a walk of 60 seconds from its first on is walkable, and one from its
/// second on isn't.
pub fn last_walk_of_dcf77()
    ensures first { IsWalkable (window_of 1 (at (on 2099 12 31) 22 58) (at (on 2099 12 31) 22 59)) (from_place (at (on 2099 12 31) 22 58) 0) }
    ensures second { ¬ (IsWalkable (window_of 1 (at (on 2099 12 31) 22 58) (at (on 2099 12 31) 22 59)) (from_place (at (on 2099 12 31) 22 58) 1)) }
    ensures range { ¬ (IsWalkable (window_of 1 (at (on 2099 12 31) 22 57) (at (on 2099 12 31) 22 58)) (from_place (at (on 2099 12 31) 22 58) 0)) }
{}

/// Each station of a window has to encode the year: in the last nine hours of UTC's century WWVB can, and JJY can't.
pub fn last_hours_of_a_bank()
    ensures wwvb { IsWalkable (window_of 4 0 century_minutes) (from_place (century_minutes - 540) 0) }
    ensures wwvb_and_jjy { ¬ (IsWalkable (window_of 12 0 century_minutes) (from_place (century_minutes - 540) 0)) }
    ensures before { IsWalkable (window_of 12 0 century_minutes) (from_place (century_minutes - 541) 0) }
{}

/// A sequence begins in a second that its minute has: in second 60 of the last minute of June 2000 where a leap second is
/// announced there, and in no second 60 where none is.
pub fn beginning_with_a_leap_second()
    ensures announced { IsLegal (window_of 8 0 century_minutes) leap_second_of_june }
    ensures not_announced { ¬ (IsWalkable (window_of 8 0 century_minutes) (unannounced leap_second_of_june)) }
    ensures elsewhere { ¬ (IsWalkable (window_of 8 0 century_minutes) (record { first = 720; second = 60; announced = true })) }
{}

/// Keys: by cost, then those that aren't announced, then by the first second, then by the first minute.
pub fn keys_of_sequences()
    ensures minute { key_of 0 (from_place 5 0) ≡ 5 }
    ensures second { key_of 0 (from_place 5 1) ≡ 52_596_005 }
    ensures announced { key_of 0 (record { first = 7; second = 2; announced = true }) ≡ 3_313_548_007 }
    ensures cost { key_of 1 (record { first = 7; second = 2; announced = true }) ≡ 11_903_482_599 }
{}

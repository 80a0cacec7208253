//! Worked examples of blocks, and of their unions, bounds and keys. Where costs are given, a 0 costs 1, a 1 costs 3 and
//! another symbol 7 in every slot; what they come to was worked out from the stations' tables by a program of its own.

ghost use Rattle.std.specs.Prelude.{◌≡◌, ◌+◌, ◌*◌, ◌^◌, ◌∷◌, [], ◌++◌, false, length, map, Some, None};
ghost use Rattle.std.specs.List.{range_with_len};
ghost use Rattle.signal_base.specs.declared.station.Station.TheVariants.{Wwvb, Jjy};
ghost use Rattle.definitions.specs.declared.block.Span.TheVariants.{Year, Day, Hour, Minute};
ghost use Rattle.definitions.specs.time.Calendar.{century_minutes};
ghost use Rattle.definitions.specs.sequences.Keys.{index_of};
ghost use Rattle.definitions.specs.answers.Blocks.{IsBlock, IsBound, IsUnion, block_key, children, first_of, items};
ghost use Rattle.definitions.specs.heard.Costs.{sequence_cost};
ghost use Rattle.definitions.specs.examples.Dates.{at, on};
ghost use Rattle.definitions.specs.examples.Sequences.{announced_block_of, block_of, costs_by_symbol, from_place, window_of};

/// The hours of the minutes 700 to 799 are three blocks. Another beginning or end makes none, and a second 60 only where a
/// leap second is announced.
pub fn blocks_of_a_range()
    ensures first { IsBlock (window_of 4 700 800) (block_of Hour 700 720) }
    ensures middle { IsBlock (window_of 4 700 800) (block_of Hour 720 780) }
    ensures last { IsBlock (window_of 4 700 800) (block_of Hour 780 800) }
    ensures late { ¬ (IsBlock (window_of 4 700 800) (block_of Hour 721 780)) }
    ensures short { ¬ (IsBlock (window_of 4 700 800) (block_of Hour 720 770)) }
    ensures long { ¬ (IsBlock (window_of 4 700 800) (block_of Hour 720 800)) }
    ensures outside { ¬ (IsBlock (window_of 4 700 800) (block_of Hour 660 720)) }
    ensures second { ¬ (IsBlock (window_of 4 700 800) (record { announced = false; second = 60; span = Hour; lo = 720; hi = 780 })) }
{}

/// Within one year the items are one for each index of a first sequence: 60 that aren't announced, and 61 that are. A window
/// that reaches into a second year has twice as many.
pub fn items_of_a_window()
    ensures one_year { map (λ b. index_of (first_of b)) (items (window_of 4 700 702)) ≡ map (λ i. i * century_minutes + 700) (range_with_len 0 60 ++ range_with_len 61 61) }
    ensures two_years { length (items (window_of 8 (at (on 2000 12 31) 23 0) (at (on 2001 1 1) 1 0))) ≡ 242 }
{}

/// Children begin and end where their block does, and a minute has none.
pub fn children_of_blocks()
    ensures year { children (block_of Year 700 2_000) ≡ block_of Day 700 1_440 ∷ block_of Day 1_440 2_000 ∷ [] }
    ensures day { children (block_of Day 700 730) ≡ block_of Hour 700 720 ∷ block_of Hour 720 730 ∷ [] }
    ensures hour { children (block_of Hour 700 702) ≡ block_of Minute 700 701 ∷ block_of Minute 701 702 ∷ [] }
    ensures last_day { children (block_of Year (at (on 2099 12 31) 22 58) century_minutes) ≡ block_of Day (at (on 2099 12 31) 22 58) century_minutes ∷ [] }
    ensures last_hours { children (block_of Day (at (on 2099 12 31) 22 58) century_minutes)
        ≡ block_of Hour (at (on 2099 12 31) 22 58) (at (on 2099 12 31) 23 0) ∷ block_of Hour (at (on 2099 12 31) 23 0) century_minutes ∷ [] }
    ensures last_minutes { children (block_of Hour (at (on 2099 12 31) 22 58) (at (on 2099 12 31) 23 0))
        ≡ block_of Minute (at (on 2099 12 31) 22 58) (at (on 2099 12 31) 22 59) ∷ block_of Minute (at (on 2099 12 31) 22 59) (at (on 2099 12 31) 23 0) ∷ [] }
    ensures minute { children (block_of Minute (at (on 2099 12 31) 22 58) (at (on 2099 12 31) 22 59)) ≡ [] }
{}

/// WWVB's minutes 11:40 and 11:41 of the first day differ in second 8 alone: there the union has both symbols. Of JJY's
/// minutes 20:14 and 20:15 local time the second leaves second 40 unscored, and so does the union.
pub fn union_of_two_minutes()
    ensures alike { IsUnion (window_of 4 700 702) (block_of Hour 700 702) Wwvb 1 2 }
    ensures differ { IsUnion (window_of 4 700 702) (block_of Hour 700 702) Wwvb 8 3 }
    ensures unscored { IsUnion (window_of 8 674 676) (block_of Hour 674 676) Jjy 40 255 }
{}

/// Each minute ties the seconds that tell DUT1 to one value, and the union of the two doesn't. Of several stations the
/// costs are added.
pub fn bound_of_two_minutes()
    ensures first { sequence_cost costs_by_symbol (window_of 4 700 702) (from_place 700 0) ≡ 116 }
    ensures second { sequence_cost costs_by_symbol (window_of 4 700 702) (from_place 701 0) ≡ 118 }
    ensures minute { IsBound costs_by_symbol (window_of 4 700 702) (block_of Minute 701 702) (Some 118) }
    ensures hour { IsBound costs_by_symbol (window_of 4 700 702) (block_of Hour 700 702) (Some 112) }
    ensures two_stations { IsBound costs_by_symbol (window_of 12 700 702) (block_of Hour 700 702) (Some (112 + 114)) }
{}

/// In January nothing tells of a leap second in June. Its announcement can be walked, so an hour with it has unions and a
/// bound, and it isn't legal, so a minute has none.
pub fn bound_of_an_announcement()
    ensures union { IsUnion (window_of 4 700 702) (announced_block_of Hour 700 702) Wwvb 8 3 }
    ensures hour { IsBound costs_by_symbol (window_of 4 700 702) (announced_block_of Hour 700 702) (Some 112) }
    ensures minute { IsBound costs_by_symbol (window_of 4 700 702) (announced_block_of Minute 700 701) None }
{}

/// The last minute of the century isn't sent by DCF77, which would encode the year 2100.
pub fn no_bound_beyond_the_century()
    ensures hour { IsBound costs_by_symbol (window_of 1 52_595_939 52_595_940) (block_of Hour 52_595_939 52_595_940) None }
    ensures minute { IsBound costs_by_symbol (window_of 1 52_595_939 52_595_940) (block_of Minute 52_595_939 52_595_940) None }
{}

/// The key of a block has its bound above the index of its first sequence.
pub fn keys_of_blocks()
    ensures index { block_key 0 (block_of Year 52_595_938 52_596_000) ≡ 52_595_938 }
    ensures bound { block_key 112 (block_of Hour 700 702) ≡ 112 * 2 ^ 33 + 700 }
{}

//! Walks of an hour of two minutes, and what is found of them. Where costs are given, a 0 costs 1, a 1 costs 3 and another symbol
//! 7 in every slot, so the hour's bound is 112, and its minutes cost 116 and 118.

ghost use Rattle.std.specs.Prelude.{◌≡◌, ◌≢◌, ◌+◌, ◌-◌, ◌*◌, ◌^◌, ◌∷◌, [], ℕ, Some, None};
ghost use Rattle.definitions.specs.declared.block.Span.TheVariants.{Hour, Minute};
ghost use Rattle.definitions.specs.answers.Blocks.{items};
ghost use Rattle.definitions.specs.examples.Sequences.{block_of, costs_by_symbol, window_of};
ghost use Rattle.race_words.specs.Keys.{no_key};
ghost use Rattle.certificates.specs.declared.certificate.Kind.TheVariants.{Opened, Pruned, Empty, Leaf};
ghost use Rattle.certificates.specs.declared.verdict.Verdict.{Verdict};
ghost use Rattle.certificates.specs.declared.verdict.Verdict.TheVariants.{Certified, NotAbove, Uncovered, WrongBound, WrongEnds};
ghost use Rattle.certificates.specs.Validity.{AreWalks, leaf_ends, limit_named};
ghost use Rattle.certificates.specs.Verdicts.{IsFound, IsOfEnds};
ghost use Rattle.certificates.specs.Examples.{hour, line_of, opened_hour, two_minutes, year};

use definitions::bound_is_one;
use definitions::examples::blocks::{bound_of_two_minutes, no_bound_beyond_the_century};

/// An hour may be opened or pruned: opened under any limit, pruned only where its key is above the limit, so at the limit itself
/// it must be opened. No child is left out. An hour of which no sequence can be walked is empty.
pub fn walks_of_an_hour()
    ensures opened { (limit : ℕ) → AreWalks costs_by_symbol two_minutes limit (hour ∷ []) opened_hour }
    ensures pruned { AreWalks costs_by_symbol two_minutes (112 * 2 ^ 33 + 699) (hour ∷ []) (line_of Pruned hour (Some 112) ∷ []) }
    ensures at_the_limit { ¬ (AreWalks costs_by_symbol two_minutes (112 * 2 ^ 33 + 700) (hour ∷ []) (line_of Pruned hour (Some 112) ∷ [])) }
    ensures child_left_out { (limit : ℕ) → ¬ (AreWalks costs_by_symbol two_minutes limit (hour ∷ [])
        (line_of Opened hour (Some 112) ∷ line_of Leaf (block_of Minute 700 701) (Some 116) ∷ [])) }
    ensures other_bound { (limit : ℕ) → ¬ (AreWalks costs_by_symbol two_minutes limit (hour ∷ []) (line_of Pruned hour (Some 113) ∷ [])) }
    ensures empty { (limit : ℕ) → AreWalks costs_by_symbol (window_of 1 52_595_939 52_595_940) limit (block_of Hour 52_595_939 52_595_940 ∷ [])
        (line_of Empty (block_of Hour 52_595_939 52_595_940) None ∷ []) }
{
    bound_of_two_minutes();
    no_bound_beyond_the_century();
    bound_is_one();
}

/// Which key is the limit: the named second one, but none above the ceiling's; and which keys the leaves tell under a ceiling. The least of the true keys that isn't named is told.
pub fn limits_that_keys_name()
    ensures second { limit_named 1_000 (Some (118 * 2 ^ 33 + 701)) ≡ 118 * 2 ^ 33 + 701 }
    ensures none { limit_named 1_000 None ≡ 1_000 * 2 ^ 33 + (2 ^ 33 - 1) }
    ensures above_the_ceiling { limit_named 117 (Some (118 * 2 ^ 33 + 701)) ≡ 117 * 2 ^ 33 + (2 ^ 33 - 1) }
    ensures two { leaf_ends 118 opened_hour ≡ record { least = 116 * 2 ^ 33 + 700; second = 118 * 2 ^ 33 + 701 } }
    ensures under_the_ceiling { leaf_ends 117 opened_hour ≡ record { least = 116 * 2 ^ 33 + 700; second = no_key } }
    ensures first_wrong { IsOfEnds None (Some 7) (Some 7) None (WrongEnds (Some 7)) }
    ensures second_wrong { IsOfEnds (Some 7) (Some 8) (Some 7) None (WrongEnds None) }
{}

/// What is found where the hour is due and all items were begun: nothing wrong; the hour pruned at the limit; another bound, which
/// is told before that; a child left out; lines that end too early; and an item that is begun again.
pub fn verdicts_on_an_hour()
    ensures good { (limit : ℕ) → IsFound costs_by_symbol two_minutes limit (λ v. v ≡ Certified) 7 (hour ∷ []) (items two_minutes) opened_hour Certified }
    ensures not_above { IsFound costs_by_symbol two_minutes (112 * 2 ^ 33 + 700) (λ v. v ≡ Certified) 7 (hour ∷ []) (items two_minutes)
        (line_of Pruned hour (Some 112) ∷ []) (NotAbove 7) }
    ensures wrong_bound { (limit : ℕ) → IsFound costs_by_symbol two_minutes limit (λ v. v ≡ Certified) 7 (hour ∷ []) (items two_minutes)
        (line_of Pruned hour (Some 111) ∷ []) (WrongBound 7) }
    ensures child_left_out { (limit : ℕ) → IsFound costs_by_symbol two_minutes limit (λ v. v ≡ Certified) 7 (hour ∷ []) (items two_minutes)
        (line_of Opened hour (Some 112) ∷ line_of Leaf (block_of Minute 701 702) (Some 118) ∷ []) (Uncovered 8) }
    ensures too_early { (limit : ℕ) → IsFound costs_by_symbol two_minutes limit (λ v. v ≡ Certified) 7 (hour ∷ []) (items two_minutes)
        (line_of Opened hour (Some 112) ∷ line_of Leaf (block_of Minute 700 701) (Some 116) ∷ []) (Uncovered 9) }
    ensures begun_again { (limit : ℕ) → IsFound costs_by_symbol two_minutes limit (λ v. v ≡ Certified) 7 [] (items two_minutes)
        (line_of Pruned year (Some 112) ∷ []) (Uncovered 7) }
{
    bound_of_two_minutes();
    bound_is_one();
}

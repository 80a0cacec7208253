//! The laws on visits and searches, as plain data.

ghost use Rattle.std.specs.Prelude.{ℕ, ◌≡◌, ◌<◌, ◌≤◌, IsTrue, List, Option, length, IsPermutation};
ghost use Rattle.signal_base.specs.declared.window.Window.{Window};
ghost use Rattle.signal_base.specs.declared.limits.TheConstants.{GREATEST_COST};
ghost use Rattle.definitions.specs.declared.block.Block.{Block};
ghost use Rattle.definitions.specs.time.Calendar.{century_minutes};
ghost use Rattle.definitions.specs.heard.Costs.{Costs};
ghost use Rattle.definitions.specs.answers.Blocks.{items, IsBlock};
ghost use Rattle.definitions.specs.answers.FirstTwo.{AreLeastTwo, IsWindowKey};
ghost use Rattle.field_tables.specs.Floors.{IsFloor};
ghost use Rattle.race_words.specs.declared.view.View.{View};
ghost use Rattle.race_words.specs.Keys.{two_least};
ghost use Rattle.race_words.specs.Sound.{times, HasEachOnce};
ghost use Rattle.block_visits.specs.Apart.{key_if_any};
ghost use Rattle.block_visits.specs.Visits.{limit_at};
ghost use Rattle.workers.specs.Steps.{Step};
ghost use Rattle.workers.specs.Passing.{ArePassing, is_above};
ghost use Rattle.workers.specs.Searches.{HasSearched};

use block_visits::blocks_share_the_sequences;

/// Where a block's floor is above what is read, a visit of the block by reads that are all the same offers nothing.
pub fn floors_pass_over()
    ensures { (costs : Costs) (window : Window) (ceiling : ℕ) (b : Block) (floor : Option ℕ) (seen : ℕ)
        → window.to ≤ century_minutes → IsBlock window b → IsFloor costs window b floor → IsTrue (is_above (limit_at ceiling seen) b floor)
        → (steps : List Step) × ArePassing costs window ceiling b seen steps }
{
    blocks_share_the_sequences();
}

/// Where each number was drawn once, each item was, and the two least of all keys that a search offered are the keys of the
/// first two admitted sequences.
pub fn first_two_are_found()
    ensures drawn { (costs : Costs) (window : Window) (ceiling : ℕ) (list : List Block) (v : View)
        → window.to ≤ century_minutes → HasSearched costs window ceiling list v → HasEachOnce v.drawn
        → (number : ℕ) → number < length list → times number v.drawn ≡ 1 }
    ensures found { (costs : Costs) (window : Window) (ceiling : ℕ) (list : List Block) (v : View)
        → window.to ≤ century_minutes → HasSearched costs window ceiling list v → HasEachOnce v.drawn
        → ceiling ≤ GREATEST_COST → IsPermutation (items window) list → (two_least v.offered).second ≤ v.floor
        → AreLeastTwo (IsWindowKey window costs ceiling) (key_if_any (two_least v.offered).least) (key_if_any (two_least v.offered).second) }
{
    blocks_share_the_sequences();
}

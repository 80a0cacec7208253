//! The laws on visits, as plain data.

ghost use Rattle.std.specs.Prelude.{ℕ, ◌≡◌, ◌≤◌, List, All};
ghost use Rattle.signal_base.specs.declared.window.Window.{Window};
ghost use Rattle.definitions.specs.declared.block.Block.{Block};
ghost use Rattle.definitions.specs.time.Calendar.{century_minutes};
ghost use Rattle.definitions.specs.heard.Costs.{Costs};
ghost use Rattle.definitions.specs.answers.Blocks.{IsBlock};
ghost use Rattle.block_visits.specs.Apart.{AreApart};
ghost use Rattle.block_visits.specs.Facts.{Facts};
ghost use Rattle.block_visits.specs.Visits.{AreVisits, IsBlockKey, IsCovered, IsVisit};

use definitions::{
    bound_is_not_above, bound_is_one, children_share_the_sequences, items_share_the_sequences,
    keys_differ,
};

/// Visits by the same reads offer the same keys.
pub fn visit_is_one()
    ensures { (costs : Costs) (window : Window) (ceiling : ℕ) (bs : List Block) (reads keys others : List ℕ)
        → AreVisits costs window ceiling bs reads keys → AreVisits costs window ceiling bs reads others → keys ≡ others }
{
    bound_is_one();
}

/// What the laws of the definitions say of the blocks and keys of a window, in one record.
pub fn blocks_share_the_sequences()
    ensures { (costs : Costs) (window : Window) (ceiling : ℕ) → window.to ≤ century_minutes → Facts costs window ceiling }
{
    bound_is_not_above();
    children_share_the_sequences();
    items_share_the_sequences();
    keys_differ();
}

/// A visit covers its block, by the keys that it offers and any floor that none of its reads is below. It offers keys of
/// admitted sequences of the block, each once.
pub fn visits_cover_their_blocks()
    ensures covered { (costs : Costs) (window : Window) (ceiling : ℕ) (b : Block) (reads keys : List ℕ) (floor : ℕ)
        → window.to ≤ century_minutes → IsBlock window b → IsVisit costs window ceiling b reads keys → All (λ seen. floor ≤ seen) reads
        → IsCovered costs window ceiling b keys floor }
    ensures admitted { (costs : Costs) (window : Window) (ceiling : ℕ) (b : Block) (reads keys : List ℕ)
        → window.to ≤ century_minutes → IsBlock window b → IsVisit costs window ceiling b reads keys
        → All (IsBlockKey costs window ceiling b) keys }
    ensures once { (costs : Costs) (window : Window) (ceiling : ℕ) (b : Block) (reads keys : List ℕ)
        → window.to ≤ century_minutes → IsBlock window b → IsVisit costs window ceiling b reads keys → AreApart keys }
{
    blocks_share_the_sequences();
}

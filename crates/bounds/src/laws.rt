//! What follows from the definition of ranked blocks.

ghost use Rattle.std.specs.Prelude.{◌≡◌, List};
ghost use Rattle.std.specs.List.{AllByRecursion};
ghost use Rattle.std.specs.List.Sorted.{IsPermutation};
ghost use Rattle.signal_base.specs.declared.window.Window.{Window};
ghost use Rattle.definitions.specs.declared.block.Block.{Block};
ghost use Rattle.definitions.specs.answers.Blocks.{IsBlock};
ghost use Rattle.definitions.specs.heard.Costs.{Costs};
ghost use Rattle.definitions.specs.sequences.Windows.{IsWindow};
ghost use Rattle.bounds.specs.Ranking.{HaveOwnFirsts, IsRanked};

/// Blocks of a window, no two of which have the same first sequence, are ranked in one order only.
pub fn ranking_is_one()
    ensures { (costs : Costs) (window : Window) (items xs ys : List Block) → IsWindow window → AllByRecursion (IsBlock window) items
        → HaveOwnFirsts items → IsPermutation items xs → IsPermutation items ys → IsRanked costs window xs → IsRanked costs window ys
        → xs ≡ ys }
{}

//! The bound of a block: the least that a sequence of it can cost.

ghost use Rattle.std.specs.Prelude.{◌≤◌, IfSome};
ghost use Rattle.definitions.specs.answers.Blocks.{IsBlock, IsBound};
ghost use Rattle.definitions.specs.sequences.Windows.{IsWindow};
ghost use Rattle.field_tables.specs.Scored.{costs_of};
ghost use Rattle.signal_base.specs.declared.limits.TheConstants.{GREATEST_COST};

use definitions::{Block, Span};
use field_tables::Tables;

/// The bound of a block of the window, at most 1,920,000,000: no legal sequence of the block costs less. Of a minute it is
/// what its sequence costs, and None exactly where that isn't legal. Of a longer block it is what the unions of the sets
/// cost that its walkable sequences allow, and None exactly where it has no such sequence.
pub fn bound(tables: &Tables, block: &Block) -> Option<u32>
    requires { IsBlock tables.now.window block.now }
    ensures bound { IsBound (costs_of tables.now) tables.now.window block.now result }
    ensures small { IfSome result (λ n. n ≤ GREATEST_COST) }
{
    match block.span {
        Span::Minute => tables.minute_bound(block),
        _ => tables.union_bound(block),
    }
}

// The numbers of the tables' window are in their ranges: this says so, and does nothing.
pub(crate) fn know_the_window(tables: &Tables)
    ensures { IsWindow tables.now.window }
{
    let _ = tables.window();
}

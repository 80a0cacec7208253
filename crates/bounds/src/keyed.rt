//! The key of a block with a bound: its place in the order of the search.

ghost use Rattle.std.specs.Prelude.{◌≡◌, ◌≤◌};
ghost use Rattle.definitions.specs.answers.Blocks.{block_key, first_of};
ghost use Rattle.definitions.specs.sequences.Walks.{IsSequence};
ghost use Rattle.signal_base.specs.declared.limits.TheConstants.{GREATEST_COST};

use definitions::Block;
use sequence::{Sequence, key};

/// The key of a block with this bound, which is at most 1,920,000,000: that of the block's first sequence, if it cost as
/// much as the bound. No legal sequence of the block has a lesser key.
pub fn block_key(bound: u32, block: &Block) -> u64
    requires bound { bound ≤ GREATEST_COST }
    requires sequence { IsSequence (first_of block.now) }
    ensures { result ≡ block_key bound block.now }
{
    key(bound, &first_of(block))
}

// The first sequence of a block.
pub(crate) fn first_of(block: &Block) -> Sequence
    ensures { result ≡ first_of block.now }
{
    Sequence {
        first: block.lo,
        second: block.second,
        announced: block.announced,
    }
}

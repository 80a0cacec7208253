//! Bounds and least costs of blocks as their definitions say them: by a walk through each slot of each sequence.

ghost use Rattle.std.specs.Prelude.{◌≡◌};
ghost use Rattle.definitions.specs.answers.Blocks.{IsBlock, IsBound, IsMinuteBound, first_of};
ghost use Rattle.definitions.specs.sequences.Walks.{IsSequence};
ghost use Rattle.plain_costs.specs.Unions.{sequence_from};
ghost use Rattle.field_tables.specs.Grids.{grid_costs};
ghost use Rattle.plain_bounds.specs.Floors.{IsLeast, IsLegalCost, lesser};

use crate::case::Case;
use definitions::{Block, Sequence, Span};
use plain_costs::{plain_cost, union_bound};
use sequence::legal;

/// The bound of a block, by walks.
pub fn plain_bound(case: &Case, block: &Block) -> Option<u32>
    requires { IsBlock case.now.window block.now }
    ensures { IsBound (grid_costs case.now.grids.now) case.now.window block.now result }
{
    match block.span {
        Span::Minute => minute_bound(case, block),
        _ => union_bound(case.grids, case.civil, &case.window, block),
    }
}

// The same of a minute.
fn minute_bound(case: &Case, block: &Block) -> Option<u32>
    requires { IsBlock case.now.window block.now }
    ensures { IsMinuteBound (grid_costs case.now.grids.now) case.now.window block.now result }
{
    legal_cost(case, &first_of(block))
}

/// The least that a legal sequence of a block costs, by walks. None where none is legal.
pub fn least_cost(case: &Case, block: &Block) -> Option<u32>
    requires { IsBlock case.now.window block.now }
    ensures { IsLeast (grid_costs case.now.grids.now) case.now.window block.now result }
{
    let mut least = None;
    for first in block.lo..block.hi {
        let q = sequence_from(block, first);
        least = lesser(least, legal_cost(case, &q));
    }
    least
}

// What a sequence costs, where it is legal.
fn legal_cost(case: &Case, q: &Sequence) -> Option<u32>
    requires { IsSequence q.now }
    ensures { IsLegalCost (grid_costs case.now.grids.now) case.now.window q.now result }
{
    if !legal(case.civil, &case.window, q) {
        return None;
    }
    Some(plain_cost(case.grids, case.civil, &case.window, q))
}

// The lesser of two costs, as far as there are any.
fn lesser(one: Option<u32>, other: Option<u32>) -> Option<u32>
    ensures { result ≡ lesser one other }
{
    let Some(m) = one else {
        return other;
    };
    let Some(n) = other else {
        return one;
    };
    Some(m.min(n))
}

/// The block's sequence from minute `first` on.
pub fn sequence_from(block: &Block, first: u32) -> Sequence
    ensures { result ≡ sequence_from block.now first }
{
    Sequence {
        first,
        second: block.second,
        announced: block.announced,
    }
}

/// The first sequence of a block.
pub fn first_of(block: &Block) -> Sequence
    ensures { result ≡ first_of block.now }
{
    Sequence {
        first: block.lo,
        second: block.second,
        announced: block.announced,
    }
}

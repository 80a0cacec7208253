//! The children of a block with their bounds, which are found one after the other.

ghost use Rattle.std.specs.Prelude.{◌≡◌, ◌≤◌, IfNone, IfSome, [], ◌∷◌};
ghost use Rattle.definitions.specs.answers.Blocks.{IsBlock, IsBound, children, first_of};
ghost use Rattle.definitions.specs.sequences.Walks.{IsSequence};
ghost use Rattle.field_tables.specs.Scored.{costs_of};
ghost use Rattle.signal_base.specs.declared.limits.TheConstants.{GREATEST_COST};

use crate::least::know_the_window;
use crate::{ChildBlocks, bound, children};
use definitions::Block;
use field_tables::Tables;
use std::marker::Model;

/// A block and its bound.
#[derive(Clone, Copy)]
pub struct Bounded {
    /// The block.
    pub block: Block,
    /// Its bound, at most 1,920,000,000, or none.
    pub bound: Option<u32>,
}

/// The children of a block that are left, in order, which are given with their bounds. Contracts see what they see of the
/// tables that bound them, and the list of them.
#[derive(Drop)]
pub struct BoundedChildren<'a> {
    tables: &'a Tables<'a>,
    children: ChildBlocks,
}

impl<'a> Model for BoundedChildren<'a> {
    ghost use Rattle.std.specs.List.{AllByRecursion};
    ghost use Rattle.definitions.specs.answers.Blocks.{IsBlock};
    ghost use Rattle.bounds.specs.Rows.{Row};

    ghost Value = { Row };

    ghost view = { λ r. record { tables = r.tables.now; left = r.children } };

    ghost invariant = { λ r. AllByRecursion (IsBlock r.tables.now.window) r.children };
}

/// The children of a block of the window, which are given with their bounds.
pub fn bounded_children<'a>(tables: &'a Tables<'a>, block: &Block) -> BoundedChildren<'a>
    requires { IsBlock tables.now.window block.now }
    ensures tables { result.tables ≡ tables.now }
    ensures left { result.left ≡ children block.now }
{
    know_the_window(tables);
    BoundedChildren {
        tables,
        children: children(block),
    }
}

impl<'a> BoundedChildren<'a> {
    /// The next child alone, whose bound isn't asked for, or None where no child is left.
    pub fn next_block(&mut self) -> Option<Block>
        ensures end { IfNone result ((self.old.left ≡ []) × (self.new.left ≡ [])) }
        ensures child { IfSome result (λ child. self.old.left ≡ child ∷ self.new.left) }

        // It is a block of the window.
        ensures block { IfSome result (λ child. IsBlock self.old.tables.window child) }
        ensures first { IfSome result (λ child. IsSequence (first_of child)) }

        ensures tables { self.new.tables ≡ self.old.tables }
    {
        know_the_window(self.tables);
        let block = self.children.next()?;
        Some(block)
    }

    /// The next child and its bound, or None where no child is left.
    pub fn next(&mut self) -> Option<Bounded>
        ensures end { IfNone result ((self.old.left ≡ []) × (self.new.left ≡ [])) }
        ensures child { IfSome result (λ child. self.old.left ≡ child.block ∷ self.new.left) }

        // It is a block of the window, with its bound.
        ensures block { IfSome result (λ child. IsBlock self.old.tables.window child.block) }
        ensures first { IfSome result (λ child. IsSequence (first_of child.block)) }
        ensures bound { IfSome result (λ child. IsBound (costs_of self.old.tables) self.old.tables.window child.block child.bound) }
        ensures small { IfSome result (λ child. IfSome child.bound (λ n. n ≤ GREATEST_COST)) }

        ensures tables { self.new.tables ≡ self.old.tables }
    {
        let block = self.next_block()?;
        let bound = bound(self.tables, &block);
        Some(Bounded { block, bound })
    }
}

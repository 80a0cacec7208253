//! The blocks that wait for their lines: at most the minutes of one hour, the hours of one day and the days of one year.

ghost use Rattle.std.specs.Prelude.{◌≡◌, ◌≤◌, ◌<◌, ◌+◌, ◌++◌, ◌∷◌, [], IfNone, IfSome};
ghost use Rattle.signal_base.specs.declared.limits.TheConstants.{GREATEST_COST};
ghost use Rattle.definitions.specs.declared.block.Span.{Span};
ghost use Rattle.definitions.specs.answers.Blocks.{IsBlock, IsBound, children};
ghost use Rattle.field_tables.specs.Scored.{costs_of};
ghost use Rattle.certificate_walks.specs.Waiting.{CanOpen, left_most, left_of, most_lines};

use bounds::{Bounded, ChildBlocks, bound, children};
use definitions::{Block, Span, children_share_the_sequences};
use field_tables::Tables;
use std::marker::Model;

/// The blocks that wait for their lines, in order. It takes no memory. Contracts see the tables that bound them, and the blocks
/// by their spans.
#[derive(Drop)]
pub struct Pending<'a> {
    tables: &'a Tables<'a>,
    minutes: ChildBlocks,
    hours: ChildBlocks,
    days: ChildBlocks,
}

impl<'a> Model for Pending<'a> {
    ghost use Rattle.certificate_walks.specs.Spans.{AreOf};
    ghost use Rattle.certificate_walks.specs.Waiting.{Waiting};
    ghost use Rattle.definitions.specs.declared.block.Span.TheVariants.{Day, Hour, Minute};

    ghost Value = { Waiting };

    ghost view = { λ p. record { tables = p.tables.now; minutes = p.minutes; hours = p.hours; days = p.days } };

    ghost invariant = { λ p.
        AreOf p.tables.now.window Minute p.minutes × AreOf p.tables.now.window Hour p.hours × AreOf p.tables.now.window Day p.days };
}

// A minute, which has no children.
const A_MINUTE: Block = Block {
    announced: false,
    second: 0,
    span: Span::Minute,
    lo: 0,
    hi: 1,
};

// No block.
fn none() -> ChildBlocks
    ensures { result ≡ [] }
{
    children(&A_MINUTE)
}

impl<'a> Pending<'a> {
    /// No block waits, so any can be opened.
    pub fn new(tables: &'a Tables<'a>) -> Pending<'a>
        ensures tables { result.tables ≡ tables.now }
        ensures left { left_of result ≡ [] }
        ensures can_open { (span : Span) → CanOpen span result }
    {
        Pending {
            tables,
            minutes: none(),
            hours: none(),
            days: none(),
        }
    }

    /// The next block and its bound, or None where no block waits. The block can be opened.
    pub fn next(&mut self) -> Option<Bounded>
        ensures end { IfNone result ((left_of self.old ≡ []) × (left_of self.new ≡ [])) }
        ensures all_open { IfNone result ((span : Span) → CanOpen span self.new) }
        ensures next { IfSome result (λ found. left_of self.old ≡ found.block ∷ left_of self.new) }

        // It is a block of the window, with its bound.
        ensures block { IfSome result (λ found. IsBlock self.old.tables.window found.block) }
        ensures bound { IfSome result (λ found. IsBound (costs_of self.old.tables) self.old.tables.window found.block found.bound) }
        ensures small { IfSome result (λ found. IfSome found.bound (λ n. n ≤ GREATEST_COST)) }

        ensures can_open { IfSome result (λ found. CanOpen found.block.span self.new) }
        ensures lines { IfSome result (λ found. left_most self.old ≡ most_lines found.block.span + left_most self.new) }
        ensures tables { self.new.tables ≡ self.old.tables }
    {
        let block = self.next_block()?;
        let bound = bound(self.tables, &block);
        Some(Bounded { block, bound })
    }

    // The next block.
    fn next_block(&mut self) -> Option<Block>
        ensures end { IfNone result ((left_of self.old ≡ []) × (left_of self.new ≡ [])) }
        ensures all_open { IfNone result ((span : Span) → CanOpen span self.new) }
        ensures next { IfSome result (λ block. left_of self.old ≡ block ∷ left_of self.new) }
        ensures block { IfSome result (λ block. IsBlock self.old.tables.window block) }
        ensures can_open { IfSome result (λ block. CanOpen block.span self.new) }
        ensures lines { IfSome result (λ block. left_most self.old ≡ most_lines block.span + left_most self.new) }
        ensures tables { self.new.tables ≡ self.old.tables }
    {
        if let Some(minute) = self.minutes.next() {
            return Some(minute);
        }
        if let Some(hour) = self.hours.next() {
            return Some(hour);
        }
        let day = self.days.next()?;
        Some(day)
    }

    /// Puts the children of a block in front of those that wait.
    pub fn open(&mut self, block: &Block)
        requires block { IsBlock self.old.tables.window block.now }
        requires can_open { CanOpen block.now.span self.old }
        ensures left { left_of self.new ≡ children block.now ++ left_of self.old }
        ensures lines { left_most self.new < most_lines block.now.span + left_most self.old }
        ensures tables { self.new.tables ≡ self.old.tables }
    {
        children_share_the_sequences();
        let _ = self.tables.window();
        match block.span {
            Span::Year => {
                self.days = children(block);
                return;
            }
            Span::Day => {
                self.hours = children(block);
                return;
            }
            Span::Hour => {
                self.minutes = children(block);
                return;
            }
            Span::Minute => {
                return;
            }
        }
    }
}

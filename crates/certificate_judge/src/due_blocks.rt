//! The blocks that are due.

ghost use Rattle.std.specs.Prelude.{ℕ, ◌≡◌, ◌≤◌, ◌↔◌, ◌∷◌, ◌++◌, [], IfNone, IfSome, IsTrue, List, drop, length};
ghost use Rattle.signal_base.specs.declared.limits.TheConstants.{GREATEST_COST};
ghost use Rattle.definitions.specs.declared.block.Block.{Block};
ghost use Rattle.definitions.specs.answers.Blocks.{IsBlock, IsBound, items};
ghost use Rattle.field_tables.specs.Scored.{costs_of};
ghost use Rattle.certificates.specs.Validity.{IsOneOf, opened_by};
ghost use Rattle.certificates.specs.Verdicts.{AreOver, IsDue, begun_with};
ghost use Rattle.certificate_walks.specs.Waiting.{CanOpen, left_of};
ghost use Rattle.certificate_judge.specs.Marks.{AreMarked};

use crate::Begun;
use bounds::{Bounded, bound};
use certificate_walks::Pending;
use certificates::{Kind, Line, good_lines_are_walks};
use definitions::{Block, items_share_the_sequences};
use field_tables::Tables;

/// The blocks that are due: those that wait within an item, and then any item that wasn't begun. It takes no memory.
#[derive(Drop)]
pub struct DueBlocks<'a> {
    /// By which the blocks are bounded.
    pub tables: &'a Tables<'a>,
    /// Which items were begun.
    pub begun: Begun<'a>,
    /// The blocks that wait within an item.
    pub pending: Pending<'a>,
    pub ghost items_are: { begun.items.now ≡ items tables.now.window },
    pub ghost pending_is: { pending.tables ≡ tables.now },
}

impl<'a> DueBlocks<'a> {
    /// The items of the tables' window, in their own order, of which none was begun.
    pub fn new(tables: &'a Tables<'a>, list: &'a [Block]) -> DueBlocks<'a>
        requires { list.now ≡ items tables.now.window }
        ensures tables { result.tables.now ≡ tables.now }
        ensures none { AreMarked (items tables.now.window) result.begun.marks [] }
        ensures left { left_of result.pending ≡ [] }
    {
        good_lines_are_walks();
        let _ = tables.window();
        DueBlocks {
            tables,
            begun: Begun::new(list),
            pending: Pending::new(tables),
        }
    }

    /// The block's bound, where it is due; it isn't any more.
    pub fn take(&mut self, block: &Block) -> Option<Bounded>
        ensures due { (begun : List Block) → AreMarked (items self.old.tables.now.window) self.old.begun.marks begun
            → IfSome result (λ found. IsDue self.old.tables.now.window (left_of self.old.pending) begun block.now) }
        ensures not_due { (begun : List Block) → AreMarked (items self.old.tables.now.window) self.old.begun.marks begun
            → IfNone result (¬ (IsDue self.old.tables.now.window (left_of self.old.pending) begun block.now)) }
        ensures marks { (begun : List Block) → AreMarked (items self.old.tables.now.window) self.old.begun.marks begun
            → IfSome result (λ found. AreMarked (items self.old.tables.now.window) self.new.begun.marks (begun_with (left_of self.old.pending) begun block.now)) }
        ensures left { IfSome result (λ found. left_of self.new.pending ≡ drop 1 (left_of self.old.pending)) }

        // It is a block of the window, with its bound, and can be opened.
        ensures block { IfSome result (λ found. IsBlock self.old.tables.now.window block.now) }
        ensures bound { IfSome result (λ found. IsBound (costs_of self.old.tables.now) self.old.tables.now.window block.now found.bound) }
        ensures small { IfSome result (λ found. IfSome found.bound (λ n. n ≤ GREATEST_COST)) }
        ensures can_open { IfSome result (λ found. CanOpen block.now.span self.new.pending) }

        ensures tables { self.new.tables.now ≡ self.old.tables.now }
    {
        let next = self.pending.next();
        match next {
            Some(found) => {
                if is_same(&found.block, block) {
                    return Some(found);
                }
                None
            }
            None => self.begin(block),
        }
    }

    // Begins an item, where no block waits.
    fn begin(&mut self, block: &Block) -> Option<Bounded>
        ensures begun { (begun : List Block) → AreMarked (items self.old.tables.now.window) self.old.begun.marks begun
            → IfSome result (λ found. IsOneOf (items self.old.tables.now.window) block.now × ¬ (IsOneOf begun block.now)) }
        ensures not_begun { (begun : List Block) → AreMarked (items self.old.tables.now.window) self.old.begun.marks begun
            → IfNone result (¬ (IsOneOf (items self.old.tables.now.window) block.now × ¬ (IsOneOf begun block.now))) }
        ensures marks { (begun : List Block) → AreMarked (items self.old.tables.now.window) self.old.begun.marks begun
            → IfSome result (λ found. AreMarked (items self.old.tables.now.window) self.new.begun.marks (block.now ∷ begun)) }
        ensures block { IfSome result (λ found. IsBlock self.old.tables.now.window block.now) }
        ensures bound { IfSome result (λ found. IsBound (costs_of self.old.tables.now) self.old.tables.now.window block.now found.bound) }
        ensures small { IfSome result (λ found. IfSome found.bound (λ n. n ≤ GREATEST_COST)) }
        ensures pending { self.new.pending ≡ self.old.pending }
        ensures tables { self.new.tables.now ≡ self.old.tables.now }
    {
        items_share_the_sequences();
        let _ = self.tables.window();
        if !self.begun.begin(block) {
            return None;
        }
        Some(Bounded {
            block: *block,
            bound: bound(self.tables, block),
        })
    }

    /// Lets the children wait of a block that a line opens.
    pub fn open(&mut self, line: &Line)
        requires block { IsBlock self.old.tables.now.window line.now.block }
        requires can_open { CanOpen line.now.block.span self.old.pending }
        ensures left { left_of self.new.pending ≡ opened_by line.now ++ left_of self.old.pending }
        ensures marks { self.new.begun.marks ≡ self.old.begun.marks }
        ensures tables { self.new.tables.now ≡ self.old.tables.now }
    {
        match line.kind {
            Kind::Opened => self.pending.open(&line.block),
            Kind::Pruned | Kind::Empty | Kind::Leaf => {}
        }
    }

    /// Whether no block is due.
    pub fn is_over(&mut self) -> bool
        ensures { (begun : List Block) → AreMarked (items self.old.tables.now.window) self.old.begun.marks begun
            → IsTrue result ↔ AreOver self.old.tables.now.window (left_of self.old.pending) begun }
    {
        if let Some(waiting) = self.pending.next() {
            let _ = waiting;
            return false;
        }
        self.begun.all()
    }
}

fn is_same(a: &Block, b: &Block) -> bool
    ensures { IsTrue result ↔ (a.now ≡ b.now) }
{
    *a == *b
}

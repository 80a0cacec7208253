//! Blocks and sequences of a window by chance.

ghost use Rattle.std.specs.Prelude.{◌≡◌, ◌<◌, ◌≤◌, IfSome, length};
ghost use Rattle.std.specs.List.{AllByRecursion};
ghost use Rattle.definitions.specs.answers.Blocks.{IsBlock};
ghost use Rattle.definitions.specs.declared.block.Span.TheVariants.{Day};
ghost use Rattle.definitions.specs.sequences.Walks.{IsSequence};
ghost use Rattle.definitions.specs.sequences.Windows.{IsWindow};

use crate::chance::Chance;
use bounds::{Bounded, bound, bounded_children, children};
use definitions::{Block, CENTURY_MINUTES, Sequence, Span};
use field_tables::Tables;
use signal_base::Window;

// From a year it is so many steps to a minute.
const DEPTH: u32 = 3;

// Sequences begin in the window's range, or so many minutes before or after it.
const BESIDE: u32 = 3;

// The seconds that a minute can have.
const SECONDS: u32 = 61;

/// A block of the window by chance: one of the items, or one of its parts. Its bound is the one that its parent's row gives.
pub fn draw_block(tables: &Tables, items: &[Block], chance: &mut Chance) -> Option<Bounded>
    requires { AllByRecursion (IsBlock tables.now.window) items.now }
    ensures { IfSome result (λ found. IsBlock tables.now.window found.block) }
{
    let item = &items[draw_number(items, chance)?];
    let depth = chance.below(DEPTH + 1);
    Some(descendant(tables, item, depth, chance))
}

/// One of the items by chance, with its bound.
pub fn draw_item(tables: &Tables, items: &[Block], chance: &mut Chance) -> Option<Bounded>
    requires { AllByRecursion (IsBlock tables.now.window) items.now }
    ensures { IfSome result (λ found. IsBlock tables.now.window found.block) }
{
    let item = &items[draw_number(items, chance)?];
    Some(descendant(tables, item, 0, chance))
}

/// A day of one of the items by chance.
pub fn draw_day(tables: &Tables, items: &[Block], chance: &mut Chance) -> Option<Block>
    requires { AllByRecursion (IsBlock tables.now.window) items.now }
    ensures block { IfSome result (λ day. IsBlock tables.now.window day) }
    ensures day { IfSome result (λ day. day.span ≡ Day) }
{
    let item = &items[draw_number(items, chance)?];
    let day = draw_child(tables, item, chance)?.block;
    if day.span == Span::Day {
        Some(day)
    } else {
        None
    }
}

// The number of one of the blocks, if there are some.
fn draw_number(blocks: &[Block], chance: &mut Chance) -> Option<usize>
    ensures { IfSome result (λ i. i < length blocks.now) }
{
    let count = blocks.len().min(u32::MAX as usize) as u32;
    if count == 0 {
        return None;
    }
    Some(chance.below(count) as usize)
}

// A part of the item that is so many steps below it.
fn descendant(tables: &Tables, item: &Block, depth: u32, chance: &mut Chance) -> Bounded
    requires { IsBlock tables.now.window item.now }
    ensures { IsBlock tables.now.window result.block }
{
    let mut found = Bounded {
        block: *item,
        bound: bound(tables, item),
    };
    for _ in 0..depth {
        match draw_child(tables, &found.block, chance) {
            Some(child) => found = child,
            None => return found,
        }
    }
    found
}

// A child of the block.
fn draw_child(tables: &Tables, block: &Block, chance: &mut Chance) -> Option<Bounded>
    requires { IsBlock tables.now.window block.now }
    ensures { IfSome result (λ child. IsBlock tables.now.window child.block) }
{
    let count = count_children(block);
    if count == 0 {
        return None;
    }
    nth_child(tables, block, chance.below(count))
}

fn count_children(block: &Block) -> u32 {
    let mut count = 0u32;
    for _child in children(block) {
        count = count.saturating_add(1);
    }
    count
}

// The child of that number, counted from 0.
fn nth_child(tables: &Tables, block: &Block, number: u32) -> Option<Bounded>
    requires { IsBlock tables.now.window block.now }
    ensures { IfSome result (λ child. IsBlock tables.now.window child.block) }
{
    let mut row = bounded_children(tables, block);
    for _ in 0..number {
        let _passed = row.next()?;
    }
    row.next()
}

/// A slot of the window by chance.
pub fn draw_slot(window: &Window, chance: &mut Chance) -> u16
    requires { IsWindow window.now }
    ensures { result < window.now.seconds }
{
    chance.below(window.seconds as u32) as u16
}

/// A sequence by chance that begins in the window's range or beside it.
pub fn draw_sequence(window: &Window, chance: &mut Chance) -> Sequence
    requires { IsWindow window.now }
    ensures { IsSequence result }
{
    let lo = window.from.saturating_sub(BESIDE);
    let hi = (window.to + BESIDE).min(CENTURY_MINUTES);
    Sequence {
        first: lo + chance.below(hi - lo),
        second: chance.below(SECONDS) as u8,
        announced: chance.flip(),
    }
}

//! Some blocks of a window, on which bounds are timed.

ghost use Rattle.std.specs.Prelude.{◌≡◌, ◌<◌, IfOk, OnOk};
ghost use Rattle.std.specs.List.{AllByRecursion};
ghost use Rattle.definitions.specs.answers.Blocks.{IsBlock};

use bounds::bounded_children;
use definitions::Block;
use field_tables::Tables;
use std::alloc::{AllocError, Global};

/// The children of every so-manieth of the blocks, of so many blocks at most.
pub fn parts(
    alloc: Global,
    tables: &Tables,
    blocks: &[Block],
    every: usize,
    most: usize,
) -> Result<Vec<Block>, AllocError>
    requires every { 0 < every }
    requires blocks { AllByRecursion (IsBlock tables.now.window) blocks.now }
    ensures { IfOk result (λ list. AllByRecursion (IsBlock tables.now.window) list.items) }
{
    let mut list = Vec::new(alloc);
    let mut number = 0usize;
    for block in blocks {
        if number % every == 0 && number / every < most {
            push_children(&mut list, tables, block)?;
        }
        number = number.saturating_add(1);
    }
    Ok(list)
}

// Adds the children of a block.
fn push_children(list: &mut Vec<Block>, tables: &Tables, block: &Block) -> Result<(), AllocError>
    requires list { AllByRecursion (IsBlock tables.now.window) list.old.items }
    requires block { IsBlock tables.now.window block.now }
    ensures { OnOk result (AllByRecursion (IsBlock tables.now.window) list.new.items) }
{
    let mut children = bounded_children(tables, block);
    while let Some(child) = children.next() {
        list.push(child.block)?;
    }
    Ok(())
}

//! The order in which the items are searched.

ghost use Rattle.std.specs.Prelude.{◌≡◌, ◌++◌, ◌≤◌, IfOk, IfSome, filter, map, not};
ghost use Rattle.std.specs.List.{AllByRecursion};
ghost use Rattle.std.specs.List.Sorted.{IsPermutation};
ghost use Rattle.definitions.specs.answers.Blocks.{IsBlock, first_of};
ghost use Rattle.definitions.specs.sequences.Walks.{IsSequence};
ghost use Rattle.field_tables.specs.Scored.{costs_of};
ghost use Rattle.signal_base.specs.declared.limits.TheConstants.{GREATEST_COST};
ghost use Rattle.bounds.specs.Ranking.{AreEntries, IsEntry, IsParted, IsRanked, rank_of};

use crate::keyed::first_of;
use crate::least::know_the_window;
use crate::{ItemsFault, block_key, bound};
use definitions::Block;
use field_tables::Tables;
use sequence::{ceiling_key, index};
use signal_base::GREATEST_COST;
use std::alloc::{AllocError, Global};

/// Blocks of the window in the order of their keys: those with a bound in rising order of their key, then those without,
/// in the order of their first sequence.
pub fn ranked(alloc: Global, tables: &Tables, items: &[Block]) -> Result<Vec<Block>, ItemsFault>
    requires { AllByRecursion (IsBlock tables.now.window) items.now }
    ensures same { IfOk result (λ list. IsPermutation items.now list.items) }
    ensures in_order { IfOk result (λ list. IsRanked (costs_of tables.now) tables.now.window list.items) }
{
    let mut entries = entries(alloc, tables, items)?;
    entries.sort_unstable_by_key(|entry| entry.rank);
    let list = blocks_of(alloc, &entries)?;
    Ok(list)
}

// A block and its place in the order.
#[derive(Clone, Copy)]
struct Entry {
    rank: u64,
    block: Block,
}

// Each block with its place.
fn entries(alloc: Global, tables: &Tables, blocks: &[Block]) -> Result<Vec<Entry>, AllocError>
    requires { AllByRecursion (IsBlock tables.now.window) blocks.now }
    ensures { IfOk result (λ list. AreEntries (costs_of tables.now) tables.now.window blocks.now list.items) }
{
    let mut list = Vec::with_capacity(alloc, blocks.len())?;
    for block in blocks {
        list.push(entry_of(tables, block))?;
    }
    Ok(list)
}

// The blocks of the entries.
fn blocks_of(alloc: Global, entries: &[Entry]) -> Result<Vec<Block>, AllocError>
    ensures { IfOk result (λ list. list.items ≡ map (λ e. e.block) entries.now) }
{
    entries.iter().map(|entry| entry.block).collect(alloc)
}

fn entry_of(tables: &Tables, block: &Block) -> Entry
    requires { IsBlock tables.now.window block.now }
    ensures block { result.block ≡ block.now }
    ensures entry { IsEntry (costs_of tables.now) tables.now.window result }
{
    know_the_window(tables);
    Entry {
        rank: rank(bound(tables, block), block),
        block: *block,
    }
}

// The place of a block: its key, and above all keys where it has no bound.
fn rank(bound: Option<u32>, block: &Block) -> u64
    requires bound { IfSome bound (λ n. n ≤ GREATEST_COST) }
    requires sequence { IsSequence (first_of block.now) }
    ensures { result ≡ rank_of bound block.now }
{
    match bound {
        Some(bound) => block_key(bound, block),
        None => ceiling_key(GREATEST_COST) + 1 + index(&first_of(block)),
    }
}

/// The same blocks: those that aren't announced in the order of their keys, and behind them those that are, as they stand.
/// Announced years have the least bounds, as near a leap second their unions are wide, and yet hardly a legal sequence: a search
/// that begins with them goes through all their minutes before it finds a key to prune by. Their bounds take most of the time
/// that those of all years take, and a search asks for them as it comes to them, so none is asked for here.
pub fn announced_last(
    alloc: Global,
    tables: &Tables,
    blocks: &[Block],
) -> Result<Vec<Block>, ItemsFault>
    requires { AllByRecursion (IsBlock tables.now.window) blocks.now }
    ensures same { IfOk result (λ list. IsPermutation blocks.now list.items) }
    ensures parted { IfOk result (λ list. IsParted (costs_of tables.now) tables.now.window blocks.now list.items) }
{
    let others = unannounced(alloc, blocks)?;
    let front = ranked(alloc, tables, &others)?;
    let list = followed(alloc, &front, blocks)?;
    Ok(list)
}

// Those that aren't announced.
fn unannounced(alloc: Global, blocks: &[Block]) -> Result<Vec<Block>, AllocError>
    ensures { IfOk result (λ list. list.items ≡ filter (λ b. not b.announced) blocks.now) }
{
    let others = blocks.iter().filter(|block| !block.announced);
    others.copied().collect(alloc)
}

// Some blocks, and behind them those of others that are announced.
fn followed(alloc: Global, front: &[Block], blocks: &[Block]) -> Result<Vec<Block>, AllocError>
    ensures { IfOk result (λ list. list.items ≡ front.now ++ filter (λ b. b.announced) blocks.now) }
{
    let announced = blocks.iter().filter(|block| block.announced);
    front.iter().chain(announced).copied().collect(alloc)
}

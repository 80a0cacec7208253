//! The order in which a window's items are searched, as a run of the decoder has it.

ghost use Rattle.std.specs.Prelude.{◌≡◌, IfOk};
ghost use Rattle.std.specs.List.{AllByRecursion};
ghost use Rattle.definitions.specs.answers.Blocks.{IsBlock};
ghost use Rattle.definitions.specs.sequences.Windows.{IsWindow};
ghost use Rattle.workers.specs.Searches.{AreItemsOf};

use bounds::{ItemsFault, announced_last, items};
use civil::Civil;
use definitions::Block;
use field_tables::Tables;
use signal_base::Window;
use std::alloc::Global;

/// The items of the window, the least bounds first, and those that announce a leap second after all others, as they are listed.
pub fn search_order(
    alloc: Global,
    civil: &Civil,
    tables: &Tables,
    window: &Window,
) -> Result<Vec<Block>, ItemsFault>
    requires window { IsWindow window.now }
    requires same { tables.now.window ≡ window.now }
    ensures items { IfOk result (λ list. AreItemsOf tables.now.window list.items) }
    ensures blocks { IfOk result (λ list. AllByRecursion (IsBlock tables.now.window) list.items) }
{
    let items = items(alloc, civil, window)?;
    announced_last(alloc, tables, &items)
}

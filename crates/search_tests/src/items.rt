//! The items of a window.

ghost use Rattle.std.specs.Prelude.{◌≡◌, IfSome};
ghost use Rattle.definitions.specs.answers.Blocks.{IsBlock, items};

use definitions::{Block, items_share_the_sequences};
use field_tables::Tables;

// An item of the tables' window, if there are so many. It is a block of it.
pub(crate) fn item(tables: &Tables, list: &[Block], number: usize) -> Option<Block>
    requires { list.now ≡ items tables.now.window }
    ensures { IfSome result (λ item. IsBlock tables.now.window item) }
{
    items_share_the_sequences();
    let _window = tables.window();
    let item = list.get(number)?;
    Some(*item)
}

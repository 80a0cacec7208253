//! The end of a search.

ghost use Rattle.std.specs.Prelude.{ℕ, ◌≡◌, ◌<◌, ◌≤◌, length};
ghost use Rattle.definitions.specs.answers.FirstTwo.{AreLeastTwo, IsWindowKey};
ghost use Rattle.field_tables.specs.Scored.{costs_of};
ghost use Rattle.signal_base.specs.declared.limits.TheConstants.{GREATEST_COST};
ghost use Rattle.race_words.specs.Sound.{times};
ghost use Rattle.workers.specs.Searches.{AreItemsOf, AreNotBelow, HasSearched};
ghost use Rattle.block_visits.specs.Apart.{key_if_any};

use crate::laws::first_two_are_found;
use definitions::Block;
use field_tables::Tables;
use race_words::{Race, Seat};

/// The keys of the first two admitted sequences, as far as there are any.
#[derive(Clone, Copy, PartialEq, Eq)]
pub struct Found {
    /// The least key.
    pub first: Option<u64>,
    /// The least of the others.
    pub second: Option<u64>,
}

/// Ends the race of a search, and tells the keys of the first two sequences that the window admits under the ceiling. The
/// tables, items and ceiling are those of the search, whose seat has the whole share.
///
/// Each item was drawn once, and no read was below the second key.
pub fn finish(race: Race, seat: Seat, tables: &Tables, items: &[Block], ceiling: u32) -> Found
    requires race { seat.race ≡ race.id }
    requires whole { seat.view.share ≡ race.workers }
    requires items { AreItemsOf tables.now.window items.now }
    requires ceiling { ceiling ≤ GREATEST_COST }
    requires searched { HasSearched (costs_of tables.now) tables.now.window ceiling items.now seat.view }
    ensures found { AreLeastTwo (IsWindowKey tables.now.window (costs_of tables.now) ceiling) result.first result.second }
    ensures reads { AreNotBelow result.second seat.view.reads }
    ensures drawn { (number : ℕ) → number < length items.now → times number seat.view.drawn ≡ 1 }
{
    first_two_are_found();
    let _window = tables.window();
    let ends = race.close(seat);
    Found {
        first: known(ends.least),
        second: known(ends.second),
    }
}

// A key of a race, where the greatest `u64` stands for none.
fn known(key: u64) -> Option<u64>
    ensures { result ≡ key_if_any key }
{
    if key == u64::MAX { None } else { Some(key) }
}

//! What the walkable sequences of a block allow together.

ghost use Rattle.std.specs.Prelude.{◌≡◌, ◌<◌, ◌↔◌, ℕ, IsTrue, bit_or, slice_index, true};
ghost use Rattle.definitions.specs.codes.Allowed.{has_station};
ghost use Rattle.definitions.specs.sequences.Walks.{IsSequence, IsWalkable, set_at};
ghost use Rattle.definitions.specs.sequences.Windows.{IsWindow};
ghost use Rattle.definitions.specs.answers.Blocks.{HasWalk, IsBlock, IsUnion};
ghost use Rattle.plain_costs.specs.Unions.{sequence_from};

use civil::Civil;
use definitions::{Block, Sequence};
use sequence::{next_place, set_in, walkable};
use signal_base::{MOST_SECONDS, Station, Window};

/// A set for each slot that a window can have.
pub type Sets = [u8; MOST_SECONDS as usize];

/// Whether some sequence of the block is walkable.
pub fn has_walk(civil: &Civil, window: &Window, block: &Block) -> bool
    requires window { IsWindow window.now }
    requires block { IsBlock window.now block.now }
    ensures { IsTrue result ↔ HasWalk window.now block.now }
{
    for first in block.lo..block.hi {
        if walkable(civil, window, &sequence_from(block, first)) {
            return true;
        }
    }
    false
}

/// In each slot the union of the sets that the block's walkable sequences allow the station. Where one of them isn't
/// scored the union isn't either, since that set has all bits.
pub fn unions_of(civil: &Civil, station: Station, window: &Window, block: &Block) -> Sets
    requires window { IsWindow window.now }
    requires block { IsBlock window.now block.now }
    requires heard { has_station window.now.stations station ≡ true }
    ensures { (k : ℕ) → k < window.now.seconds → IsUnion window.now block.now station k (slice_index result k) }
{
    let mut sets = no_sets();
    for first in block.lo..block.hi {
        let q = sequence_from(block, first);
        if walkable(civil, window, &q) {
            add_walk(&mut sets, civil, station, window, &q);
        }
    }
    sets
}

// A set of nothing in each slot.
fn no_sets() -> Sets
    ensures { (k : ℕ) → slice_index result k ≡ 0 }
{
    [0; MOST_SECONDS as usize]
}

// The block's sequence from minute `first` on.
fn sequence_from(block: &Block, first: u32) -> Sequence
    ensures { result ≡ sequence_from block.now first }
{
    Sequence {
        first,
        second: block.second,
        announced: block.announced,
    }
}

// Adds what the walk of a sequence allows the station.
fn add_walk(sets: &mut Sets, civil: &Civil, station: Station, window: &Window, q: &Sequence)
    requires window { IsWindow window.now }
    requires sequence { IsSequence q.now }
    requires walkable { IsWalkable window.now q.now }
    requires heard { has_station window.now.stations station ≡ true }
    ensures { (k : ℕ) → k < window.now.seconds → slice_index sets.new k ≡ bit_or (slice_index sets.old k) (set_at station q.now k) }
{
    let mut place = (q.first, q.second);
    for slot in 0..window.seconds {
        sets[slot as usize] |= set_in(civil, station, q.announced, place);
        place = next_place(civil, q.announced, place);
    }
}

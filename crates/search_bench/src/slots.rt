//! The slots of the sequences of a block: how many there are, and what is allowed in one of them.

ghost use Rattle.std.specs.Prelude.{◌≡◌, ◌<◌, true};
ghost use Rattle.definitions.specs.answers.Blocks.{IsBlock};
ghost use Rattle.definitions.specs.codes.Allowed.{has_station};

use definitions::Block;
use plain_bounds::{Case, sequence_from};
use sequence::{allowed, walkable};
use signal_base::Station;

/// How many slots the sequences of a block have together, over the stations.
pub fn slots_of(case: &Case, block: &Block) -> u64 {
    let minutes = block.hi.saturating_sub(block.lo) as u64;
    let stations = case.grids.len() as u64;
    minutes
        .saturating_mul(case.window.seconds as u64)
        .saturating_mul(stations)
}

/// The union of the sets that the block's walkable sequences allow the station in a slot of the window, by walks. None where
/// none of them is walkable.
pub fn plain_union(case: &Case, station: Station, block: &Block, slot: u16) -> Option<u8>
    requires block { IsBlock case.now.window block.now }
    requires station { has_station case.now.window.stations station ≡ true }
    requires slot { slot < case.now.window.seconds }
{
    let mut union = None;
    for first in block.lo..block.hi {
        let q = sequence_from(block, first);
        if walkable(case.civil, &case.window, &q) {
            let set = allowed(case.civil, station, &q, slot);
            union = Some(union.unwrap_or(0) | set);
        }
    }
    union
}

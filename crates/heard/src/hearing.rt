//! What is kept of a decided window to show what was heard of it.

ghost use Rattle.heard.specs.Kept.{IsKept};

use crate::told::Told;
use bank::Bank;
use sequence::Sequence;
use signal_base::Window;
use symbol_cost::CostGrid;

/// A decided window. All that is told of it follows from this, without taking memory.
#[derive(Drop)]
pub struct Hearing {
    /// Its bank, whose receivers stand in the order of their stations.
    pub bank: Bank,
    /// The place in the bank of each receiver, in the order of the configuration.
    pub places: Vec<u8>,
    /// What symbols cost each station of the window.
    pub grids: Vec<CostGrid>,
    /// Which values of DUT1 are told.
    pub told: Told,
    /// The window.
    pub window: Window,
    /// The sequence that was decided.
    pub sequence: Sequence,
    /// What the next sequence costs, if there is one.
    pub next: Option<u32>,
    ghost kept: { IsKept bank places.items grids.items told window sequence },
}

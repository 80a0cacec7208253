//! A step that is kept.

use bounds::ItemsFault;
use definitions::Block;
use field_tables::TablesFault;
use race_words::RaceFault;
use std::alloc::AllocError;
use std::marker::Model;

/// A step of a visit: the block that it came to, and what decided what becomes of it. A block is passed over where it has no
/// bound, or where its key by the bound is above the lesser of what was read and the ceiling's key. Else it is opened, or, if it
/// is a minute, its key is offered.
#[derive(Clone, Copy)]
pub struct Step {
    /// The block.
    pub block: Block,
    /// The least that a sequence of the block can cost, at most 1,920,000,000, or none where none is legal.
    pub bound: Option<u32>,
    /// The key that was read as the race's limit, or the greatest `u64` where there was none.
    pub seen: u64,
}

impl Model for Step {
    ghost use Rattle.workers.specs.Steps.{Step};

    ghost Value = { Step };

    ghost view = { λ s. record { block = s.block; bound = s.bound; seen = s.seen } };

    ghost inverse = { λ v. record { block = v.block; bound = v.bound; seen = v.seen } };
}

/// Why steps can't be kept.
#[derive(Clone, Copy, Debug)]
pub enum StepsFault {
    /// Memory wasn't found.
    NoMemory,
}

impl From<AllocError> for StepsFault {
    fn from(_fault: AllocError) -> StepsFault {
        StepsFault::NoMemory
    }
}

impl From<TablesFault> for StepsFault {
    fn from(_fault: TablesFault) -> StepsFault {
        StepsFault::NoMemory
    }
}

impl From<ItemsFault> for StepsFault {
    fn from(_fault: ItemsFault) -> StepsFault {
        StepsFault::NoMemory
    }
}

impl From<RaceFault> for StepsFault {
    fn from(_fault: RaceFault) -> StepsFault {
        StepsFault::NoMemory
    }
}

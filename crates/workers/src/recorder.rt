//! What keeps the steps of visits, or doesn't.

ghost use Rattle.std.specs.Prelude.{IfOk, IsFalse, OnOk, OnErr};
ghost use Rattle.workers.specs.Steps.{NeedsNone, Step};

use definitions::Block;
use std::convert::Infallible;

/// Is told of each block that a visit comes to. Workers who share a search part it among them, and join the parts again.
pub trait Recorder {
    /// Why a step can't be kept, or it can't be parted or joined.
    type Fault: Drop;

    // what it is before it is told of a step, and after
    ghost told: { Self → Step → Self → Type 0 };

    // what it is before a step that it can't keep, and after
    ghost fails: { Self → Self → Type 0 };

    // what it is before it gives a part away, what it is after, and the part
    ghost parts: { Self → Self → Self → Type 0 };

    // what it is before it takes a part in, the part, and what it is after
    ghost joins: { Self → Self → Self → Type 0 };

    /// Whether it is to be told of every step. Where it needn't be, a day may be passed over of which it is told nothing.
    fn needs_steps(&self) -> bool
        ensures { IsFalse result → NeedsNone told };

    /// Keeps a step: the block, its bound, and what was read there.
    fn record(&mut self, block: &Block, bound: Option<u32>, seen: u64) -> Result<(), Self::Fault>
        ensures kept { OnOk result (told self.old (record { block = block.now; bound = bound; seen = seen }) self.new) }
        ensures fault { OnErr result (fails self.old self.new) };

    /// A part, which is told of another worker's steps.
    fn split(&mut self) -> Result<Self, Self::Fault>
        ensures parts { IfOk result (λ part. parts self.old self.new part) };

    /// Takes a part in, whose steps come behind its own.
    fn join(&mut self, part: Self) -> Result<(), Self::Fault>
        ensures joined { OnOk result (joins self.old part self.new) };
}

/// Keeps nothing.
#[derive(Clone, Copy, Drop)]
pub struct NoRecord;

impl Recorder for NoRecord {
    type Fault = Infallible;

    ghost told = { λ before step after. Unit {0} };

    ghost fails = { λ before after. Unit {0} };

    ghost parts = { λ before after part. Unit {0} };

    ghost joins = { λ before part after. Unit {0} };

    fn needs_steps(&self) -> bool {
        false
    }

    fn record(
        &mut self,
        _block: &Block,
        _bound: Option<u32>,
        _seen: u64,
    ) -> Result<(), Infallible> {
        Ok(())
    }

    fn split(&mut self) -> Result<NoRecord, Infallible> {
        Ok(NoRecord)
    }

    fn join(&mut self, _part: NoRecord) -> Result<(), Infallible> {
        Ok(())
    }
}

//! The steps of one worker.

ghost use Rattle.std.specs.Prelude.{◌≡◌, ◌++◌, ◌∷◌, [], OnErr, OnOk};

use crate::step::{Step, StepsFault};
use definitions::Block;
use std::alloc::Global;
use std::marker::Model;
use workers::Recorder;

/// Some steps, in the order in which they were taken.
#[derive(Drop)]
pub struct StepList {
    alloc: Global,
    steps: Vec<Step>,
}

impl Model for StepList {
    ghost use Rattle.std.specs.Prelude.{List};
    ghost use Rattle.workers.specs.Steps.{Step};

    ghost Value = { List Step };

    ghost view = { λ list. list.steps.items };
}

impl StepList {
    /// No steps yet. It takes no memory.
    pub fn new(alloc: Global) -> StepList
        ensures { result ≡ [] }
    {
        StepList {
            alloc,
            steps: Vec::new(alloc),
        }
    }

    /// The steps.
    pub fn as_slice(&self) -> &[Step]
        ensures { result.now ≡ self.now }
    {
        self.steps.as_slice()
    }

    // Where its memory comes from.
    pub(crate) fn place(&self) -> Global {
        self.alloc
    }

    // Adds a step at the end. Where memory isn't found, all stay as they are.
    pub(crate) fn push(&mut self, step: Step) -> Result<(), StepsFault>
        ensures added { OnOk result (self.new ≡ self.old ++ step ∷ []) }
        ensures as_before { OnErr result (self.new ≡ self.old) }
    {
        match self.steps.push(step) {
            Ok(()) => Ok(()),
            Err(_) => Err(StepsFault::NoMemory),
        }
    }
}

/// Keeps each step at its end.
impl Recorder for StepList {
    type Fault = StepsFault;

    ghost use Rattle.std.specs.Prelude.{◌≡◌, ◌++◌, ◌∷◌, []};

    ghost told = { λ before step after. after ≡ before ++ step ∷ [] };

    ghost fails = { λ before after. after ≡ before };

    ghost parts = { λ before after part. (after ≡ before) × (part ≡ []) };

    ghost joins = { λ before part after. after ≡ before ++ part };

    fn needs_steps(&self) -> bool {
        true
    }

    fn record(&mut self, block: &Block, bound: Option<u32>, seen: u64) -> Result<(), StepsFault> {
        self.push(Step {
            block: *block,
            bound,
            seen,
        })
    }

    fn split(&mut self) -> Result<StepList, StepsFault> {
        Ok(StepList::new(self.alloc))
    }

    fn join(&mut self, part: StepList) -> Result<(), StepsFault> {
        let StepList { steps, .. } = part;
        self.steps.extend_from_slice(steps.as_slice())?;
        Ok(())
    }
}

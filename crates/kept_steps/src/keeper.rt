//! What keeps the steps of a search: one list for each worker, in the order of their numbers.

ghost use Rattle.std.specs.Prelude.{◌≡◌, ◌∷◌, [], IfOk};

use crate::lists::StepList;
use crate::step::{Step, StepsFault};
use definitions::Block;
use std::alloc::Global;
use std::marker::Model;
use std::mem;
use workers::Recorder;

/// Keeps each step at the end of its last list. A part has one list of its own, and once it is joined its lists come behind the
/// others.
#[derive(Drop)]
pub(crate) struct Keeper {
    earlier: Vec<StepList>,
    last: StepList,
}

impl Model for Keeper {
    ghost use Rattle.std.specs.Prelude.{◌++◌, ◌∷◌, [], List};
    ghost use Rattle.workers.specs.Steps.{Step};

    ghost Value = { List (List Step) };

    ghost view = { λ k. k.earlier.items ++ k.last ∷ [] };
}

impl Keeper {
    /// One list, of no steps. It takes no memory.
    pub fn new(alloc: Global) -> Keeper
        ensures { result ≡ [] ∷ [] }
    {
        Keeper {
            earlier: Vec::new(alloc),
            last: StepList::new(alloc),
        }
    }

    /// All lists.
    pub fn into_lists(self) -> Result<Vec<StepList>, StepsFault>
        ensures { IfOk result (λ lists. lists.items ≡ self) }
    {
        let Keeper { earlier, last } = self;
        let mut lists = earlier;
        match lists.push(last) {
            Ok(()) => Ok(lists),
            Err(_) => Err(StepsFault::NoMemory),
        }
    }
}

impl Recorder for Keeper {
    type Fault = StepsFault;

    ghost use Rattle.std.specs.Prelude.{◌≡◌, ◌++◌, ◌∷◌, []};
    ghost use Rattle.kept_steps.specs.Kept.{with_last};

    ghost told = { λ before step after. after ≡ with_last before step };

    ghost fails = { λ before after. Unit {0} };

    ghost parts = { λ before after part. (after ≡ before) × (part ≡ [] ∷ []) };

    ghost joins = { λ before part after. after ≡ before ++ part };

    fn needs_steps(&self) -> bool {
        true
    }

    fn record(&mut self, block: &Block, bound: Option<u32>, seen: u64) -> Result<(), StepsFault> {
        self.last.push(Step {
            block: *block,
            bound,
            seen,
        })
    }

    fn split(&mut self) -> Result<Keeper, StepsFault> {
        Ok(Keeper::new(self.last.place()))
    }

    fn join(&mut self, part: Keeper) -> Result<(), StepsFault> {
        let Keeper { earlier, last } = part;
        let mut theirs = earlier;
        let mine = mem::replace(&mut self.last, last);
        match self.earlier.push(mine) {
            Ok(()) => {}
            Err(_) => return Err(StepsFault::NoMemory),
        }
        self.earlier.append(&mut theirs)?;
        Ok(())
    }
}

//! Why a run ends without telling what is due.

ghost use Rattle.std.specs.Prelude.{◌≡◌};
ghost use Rattle.bank.specs.declared.stop.Stop.TheVariants as stops;

use crate::first_two::DecideFault;
use bank_files::Failed;
use bounds::ItemsFault;
use civil::CivilFault;
use field_tables::TablesFault;
use std::alloc::{AllocError, AllocFailed};
use symbol_cost::GridFault;
use trial_log::TrialFault;

/// What kept a run from telling what is due.
#[derive(Clone, Copy)]
pub enum Stop {
    /// A file couldn't be read or written.
    Failed,
    /// Memory wasn't found.
    NoMemory,
}

impl From<Failed> for Stop {
    ghost from_gives = { λ _ stop. stop ≡ stops.Failed };

    fn from(_failed: Failed) -> Stop {
        Stop::Failed
    }
}

impl From<AllocError> for Stop {
    ghost from_gives = { λ _ stop. stop ≡ stops.NoMemory };

    fn from(_error: AllocError) -> Stop {
        Stop::NoMemory
    }
}

impl<T: Drop> From<AllocFailed<T>> for Stop {
    ghost from_gives = { λ _ stop. stop ≡ stops.NoMemory };

    fn from(_failed: AllocFailed<T>) -> Stop {
        Stop::NoMemory
    }
}

impl From<CivilFault> for Stop {
    ghost from_gives = { λ _ stop. stop ≡ stops.NoMemory };

    fn from(_fault: CivilFault) -> Stop {
        Stop::NoMemory
    }
}

impl From<GridFault> for Stop {
    ghost from_gives = { λ _ stop. stop ≡ stops.NoMemory };

    fn from(_fault: GridFault) -> Stop {
        Stop::NoMemory
    }
}

impl From<TablesFault> for Stop {
    ghost from_gives = { λ _ stop. stop ≡ stops.NoMemory };

    fn from(_fault: TablesFault) -> Stop {
        Stop::NoMemory
    }
}

impl From<DecideFault> for Stop {
    ghost from_gives = { λ _ stop. stop ≡ stops.NoMemory };

    fn from(_fault: DecideFault) -> Stop {
        Stop::NoMemory
    }
}

impl From<TrialFault> for Stop {
    ghost from_gives = { λ _ stop. stop ≡ stops.NoMemory };

    fn from(_fault: TrialFault) -> Stop {
        Stop::NoMemory
    }
}

impl From<ItemsFault> for Stop {
    ghost from_gives = { λ _ stop. stop ≡ stops.NoMemory };

    fn from(_fault: ItemsFault) -> Stop {
        Stop::NoMemory
    }
}

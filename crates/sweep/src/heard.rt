//! What was heard at each offset that is swept.

ghost use Rattle.std.specs.Prelude.{◌≡◌, ◌+◌, ◌<◌, IfErr, IfOk, OnOk};
ghost use Rattle.definitions.specs.sequences.Windows.{IsWindow};
ghost use Rattle.sweep_due.specs.declared.offsets.TheConstants.{OFFSETS};
ghost use Rattle.bank.specs.declared.stop.Stop.TheVariants.{NoMemory};
ghost use Rattle.bank.specs.Hearing.{IsBank, bank_seen};
ghost use Rattle.sweep.specs.Keeping.{AreHeard};

use crate::phases::window_at;
use bank::{Bank, Stop, grids_of};
use signal_base::Window;
use std::alloc::Global;
use sweep_due::{OFFSETS, is_swept};
use symbol_cost::CostGrid;

/// An offset that is swept, and what symbols cost in the window there.
#[derive(Drop)]
pub struct Heard {
    /// The offset, from 0 to 10.
    pub offset: u8,
    /// The window at this offset.
    pub window: Window,
    /// One grid for each station of the window.
    pub grids: Vec<CostGrid>,
}

/// All offsets that are swept, in their order, where the window is that of a decode.
pub fn hear_phases(alloc: Global, bank: &Bank, window: &Window) -> Result<Vec<Heard>, Stop>
    requires bank { IsBank bank.now }
    requires window { IsWindow window.now }
    ensures heard { IfOk result (λ heard. AreHeard window.now (bank_seen bank.now) OFFSETS heard.items) }
    ensures memory { IfErr result (λ stop. stop ≡ NoMemory) }
{
    let mut heard = Vec::new(alloc);
    for offset in 0..OFFSETS {
        add_phase(alloc, &mut heard, bank, window, offset)?;
    }
    Ok(heard)
}

// Adds an offset, if it is swept.
fn add_phase(
    alloc: Global,
    heard: &mut Vec<Heard>,
    bank: &Bank,
    window: &Window,
    offset: u8,
) -> Result<(), Stop>
    requires bank { IsBank bank.now }
    requires window { IsWindow window.now }
    requires offset { offset < OFFSETS }
    ensures adds { OnOk result (AreHeard window.now (bank_seen bank.now) offset heard.old.items
        → AreHeard window.now (bank_seen bank.now) (offset + 1) heard.new.items) }
    ensures memory { IfErr result (λ stop. stop ≡ NoMemory) }
{
    if is_swept(window.phase, offset) {
        let moved = window_at(window, offset);
        let grids = grids_of(alloc, bank, &moved)?;
        heard.push(Heard {
            offset,
            window: moved,
            grids,
        })?;
    }
    Ok(())
}

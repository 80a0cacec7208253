//! A new board.

ghost use Rattle.std.specs.Prelude.{◌≡◌, ◌≤◌, [], All, IfOk, vec_len};
ghost use Rattle.clock_board.specs.Seats.{known, published};
ghost use Rattle.clock_board.specs.Shown.{Shows};
ghost use Rattle.clock_board.specs.Views.{newcomer};

use crate::{Asker, Tracker};
use std::alloc::{AllocError, Global};

/// The most askers of a board.
pub const MOST_READERS: u8 = 4;

/// Why there is no board, or an entry isn't published.
#[derive(Clone, Copy, Debug)]
pub enum BoardFault {
    /// There was no memory.
    NoMemory,
}

impl From<AllocError> for BoardFault {
    fn from(_: AllocError) -> BoardFault {
        BoardFault::NoMemory
    }
}

/// A board without an entry, and so many askers, 1 to 4. It refuses only for want of memory.
pub fn make(alloc: Global, readers: u8) -> Result<(Tracker, Vec<Asker>), BoardFault>
    requires { (1 ≤ readers) × (readers ≤ MOST_READERS) }
    ensures tracker { IfOk result (λ made. published made.0 ≡ []) }
    ensures askers { IfOk result (λ made. (vec_len made.1 ≡ readers) × All (λ a. Shows a.kept [] × (known a ≡ newcomer)) made.1.items) }
{
    let mut askers = Vec::with_capacity(alloc, readers as usize)?;
    // A place for each asker, and one for the reader of the news that it learns.
    let tracker = Tracker::new(alloc, 2 * readers as usize)?;
    for _ in 0..readers {
        askers.push_reserved(Asker::new(tracker.reader()));
    }
    Ok((tracker, askers))
}

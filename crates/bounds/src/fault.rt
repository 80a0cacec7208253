//! Why blocks can't be listed.

use std::alloc::AllocError;

/// Why blocks can't be listed.
#[derive(Clone, Copy, Debug)]
pub enum ItemsFault {
    /// Memory wasn't found.
    NoMemory,
}

impl From<AllocError> for ItemsFault {
    fn from(_error: AllocError) -> ItemsFault {
        ItemsFault::NoMemory
    }
}

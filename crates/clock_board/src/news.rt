//! What the tracker tells an asker.

use crate::{Published, Shelf, View};
use left_right::reader::Reader;

/// The entries as the tracker has published them, and where a place was found a reader that knows of them.
#[derive(Drop)]
pub struct News {
    pub(crate) shelf: Shelf,
    pub(crate) reader: Option<Reader<Shelf, View, Published>>,
}

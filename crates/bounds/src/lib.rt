//! The blocks of a search: the years of a window's range and their parts, the least that a sequence of each can cost,
//! and the order in which the years are searched.
#![tactic(auto)]

mod fault;
mod keyed;
mod laws;
mod least;
mod parts;
mod ranking;
mod rows;
mod years;

pub use definitions::{Block, Span};
pub use fault::ItemsFault;
pub use keyed::block_key;
pub use laws::ranking_is_one;
pub use least::bound;
pub use parts::{ChildBlocks, children};
pub use ranking::{announced_last, ranked};
pub use rows::{Bounded, BoundedChildren, bounded_children};
pub use years::items;

//! What a certificate says, line by line, and of what.

use definitions::Block;
use signal_base::Window;

/// What a line of a certificate says of its block.
#[derive(Clone, Copy, PartialEq, Eq)]
pub enum Kind {
    /// The lines of its children follow.
    Opened,
    /// It was passed over, since its bound is too high.
    Pruned,
    /// It has no bound, so none of its sequences is legal.
    Empty,
    /// It is a minute, and its bound is what its sequence costs.
    Leaf,
}

/// A line of a certificate, which is a step of the search: a block, its bound, and what became of it.
#[derive(Clone, Copy, PartialEq, Eq)]
pub struct Line {
    /// What became of the block.
    pub kind: Kind,
    /// The block.
    pub block: Block,
    /// The least that a sequence of the block can cost, at most 1,920,000,000, or none.
    pub bound: Option<u32>,
}

/// Of what a certificate is, and which keys it names.
#[derive(Clone, Copy)]
pub struct Head {
    /// What was decoded.
    pub window: Window,
    /// What a sequence may cost, at most 1,920,000,000.
    pub ceiling: u32,
    /// The key of the first sequence that is admitted, if there is one.
    pub first: Option<u64>,
    /// The key of the second, if there is one.
    pub second: Option<u64>,
}

//! What is kept of a certificate's lines.

ghost use Rattle.std.specs.Prelude.{◌≤◌};
ghost use Rattle.signal_base.specs.declared.limits.TheConstants.{GREATEST_COST};

use crate::DueBlocks;
use certificates::Verdict;
use race_words::Ends;

/// What was judged of a certificate's lines. It takes no memory.
#[derive(Drop)]
pub struct Judge<'a> {
    /// The blocks that are due.
    pub due: DueBlocks<'a>,
    /// What a sequence may cost.
    pub ceiling: u32,
    /// The number of the next step, from 1.
    pub step: u32,
    /// The two least keys of leaves that aren't above the ceiling's.
    pub ends: Ends,
    /// What was found, once a line was wrong.
    pub verdict: Option<Verdict>,
    pub ghost small: { ceiling ≤ GREATEST_COST },
}

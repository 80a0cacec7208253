//! The children of a block: the days of a year, the hours of a day, the minutes of an hour.

ghost use Rattle.std.specs.Prelude.{◌≡◌, ◌≢◌, ◌+◌, ◌*◌, ◌/◌, ◌<◌, List, min};
ghost use Rattle.std.specs.Iterator.{YieldsFirst, item_count};
ghost use Rattle.definitions.specs.declared.block.Block.{Block};
ghost use Rattle.definitions.specs.declared.block.Span.TheVariants.{Year};
ghost use Rattle.definitions.specs.answers.Blocks.{blocks, children, span_end};

use definitions::{Block, MINUTES_PER_DAY, MINUTES_PER_HOUR, Span};
use std::marker::Model;

// The days of a year, the hours of a day and the minutes of an hour, at most.
const MOST_DAYS: u16 = 366;

const MOST_HOURS: u16 = 24;

const MOST_MINUTES: u16 = 60;

/// The children of a block that are left, in order. Contracts see the list of them.
#[derive(Drop)]
pub struct ChildBlocks {
    announced: bool,
    second: u8,
    span: Span,
    // How many there are at most, and of which minutes.
    most: u16,
    lo: u32,
    hi: u32,
}

impl Model for ChildBlocks {
    ghost Value = { List Block };

    ghost view = { λ c. blocks c.announced c.second c.span c.most c.lo c.hi };

    ghost invariant = { λ c. c.span ≢ Year };
}

/// The children of a block, cut as the block is: the days of a year, the hours of a day, the minutes of an hour. A minute
/// has none.
pub fn children(block: &Block) -> ChildBlocks
    ensures { result ≡ children block.now }
{
    match block.span {
        Span::Year => parts(block, Span::Day, MOST_DAYS),
        Span::Day => parts(block, Span::Hour, MOST_HOURS),
        Span::Hour => parts(block, Span::Minute, MOST_MINUTES),
        Span::Minute => parts(block, Span::Minute, 0),
    }
}

// The parts of a block that have this span, at most so many.
fn parts(block: &Block, span: Span, most: u16) -> ChildBlocks
    requires { span ≢ Year }
    ensures { result ≡ blocks block.now.announced block.now.second span most block.now.lo block.now.hi }
{
    ChildBlocks {
        announced: block.announced,
        second: block.second,
        span,
        most,
        lo: block.lo,
        hi: block.hi,
    }
}

impl Iterator for ChildBlocks {
    type Item = Block;

    ghost next_gives = { YieldsFirst (λ s. s) };

    ghost remaining = { item_count (λ s. s) };

    fn next(&mut self) -> Option<Block> {
        if self.most == 0 {
            return None;
        }
        if self.lo >= self.hi {
            return None;
        }
        let lo = self.lo;
        let hi = end_of(self.span, lo, self.hi);
        self.most -= 1;
        self.lo = hi;
        Some(Block {
            announced: self.announced,
            second: self.second,
            span: self.span,
            lo,
            hi,
        })
    }
}

// Where the day, the hour or the minute ends that has the minute `lo`, or `hi` where that comes before. A search asks this
// of every block that it visits, so that each length is a number that is known as the program is built.
fn end_of(span: Span, lo: u32, hi: u32) -> u32
    requires { span ≢ Year }
    ensures { result ≡ min (span_end span lo) hi }
{
    match span {
        Span::Year => unreachable!(),
        Span::Day => end_by(MINUTES_PER_DAY, lo, hi),
        Span::Hour => end_by(MINUTES_PER_HOUR, lo, hi),
        Span::Minute => end_by(1, lo, hi),
    }
}

// The same of spans of so many minutes.
#[inline(always)]
fn end_by(minutes: u32, lo: u32, hi: u32) -> u32
    requires { 0 < minutes }
    ensures { result ≡ min ((lo / minutes + 1) * minutes) hi }
{
    lo.saturating_add(minutes - lo % minutes).min(hi)
}

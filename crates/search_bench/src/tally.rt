//! What was compared, counted by kind.

use crate::floor_tally::{FloorTally, count_if};
use definitions::{Block, Span};
use std::fmt;

/// How much of each kind was compared.
#[derive(Clone, Copy)]
pub struct Tally {
    windows: u32,
    minutes: u32,
    hours: u32,
    days: u32,
    years: u32,
    announced: u32,
    from_leap_seconds: u32,
    without_bound: u32,
    unions: u32,
    unscored: u32,
    sequences: u32,
    walkable: u32,
    legal: u32,
    /// The floors of days.
    pub floors: FloorTally,
}

impl Tally {
    /// Of nothing.
    pub fn new() -> Tally {
        Tally {
            windows: 0,
            minutes: 0,
            hours: 0,
            days: 0,
            years: 0,
            announced: 0,
            from_leap_seconds: 0,
            without_bound: 0,
            unions: 0,
            unscored: 0,
            sequences: 0,
            walkable: 0,
            legal: 0,
            floors: FloorTally::new(),
        }
    }

    /// Counts a window.
    pub fn count_window(&mut self) {
        count_if(&mut self.windows, true);
    }

    /// Counts a block with its bound.
    pub fn count_block(&mut self, block: &Block, bound: Option<u32>) {
        match block.span {
            Span::Minute => count_if(&mut self.minutes, true),
            Span::Hour => count_if(&mut self.hours, true),
            Span::Day => count_if(&mut self.days, true),
            Span::Year => count_if(&mut self.years, true),
        }
        count_if(&mut self.announced, block.announced);
        count_if(&mut self.from_leap_seconds, block.second == LEAP_SECOND);
        count_if(&mut self.without_bound, bound.is_none());
    }

    /// Counts a union.
    pub fn count_union(&mut self, union: Option<u8>) {
        count_if(&mut self.unions, true);
        count_if(&mut self.unscored, union == Some(UNSCORED));
    }

    /// Counts a sequence.
    pub fn count_sequence(&mut self, is_walkable: bool, is_legal: bool) {
        count_if(&mut self.sequences, true);
        count_if(&mut self.walkable, is_walkable);
        count_if(&mut self.legal, is_legal);
    }
}

// The second that is inserted.
const LEAP_SECOND: u8 = 60;

// The set of a second that isn't scored: all eight bits.
const UNSCORED: u8 = u8::MAX;

impl fmt::Display for Tally {
    fn fmt<W: fmt::Write>(&self, f: &mut fmt::Formatter<W>) -> fmt::Result {
        self.write_spans(f)?;
        self.write_kinds(f)?;
        self.write_unions(f)?;
        self.write_sequences(f)
    }
}

impl Tally {
    fn write_spans<W: fmt::Write>(&self, f: &mut fmt::Formatter<W>) -> fmt::Result {
        let Tally {
            windows,
            minutes,
            hours,
            days,
            years,
            ..
        } = *self;
        write!(f, "{windows} windows; {minutes} minutes, {hours} hours")?;
        write!(f, ", {days} days, {years} years")
    }

    fn write_kinds<W: fmt::Write>(&self, f: &mut fmt::Formatter<W>) -> fmt::Result {
        let Tally {
            announced,
            from_leap_seconds,
            without_bound,
            ..
        } = *self;
        write!(f, ", of them {announced} announced")?;
        write!(
            f,
            ", {from_leap_seconds} from second 60, {without_bound} without a bound"
        )
    }

    fn write_unions<W: fmt::Write>(&self, f: &mut fmt::Formatter<W>) -> fmt::Result {
        let Tally {
            unions,
            unscored,
            ..
        } = *self;
        write!(f, "; {unions} unions, {unscored} of them not scored")
    }

    fn write_sequences<W: fmt::Write>(&self, f: &mut fmt::Formatter<W>) -> fmt::Result {
        let Tally {
            sequences,
            walkable,
            legal,
            ..
        } = *self;
        write!(
            f,
            "; {sequences} sequences, {walkable} walkable, {legal} legal"
        )
    }
}

//! The blocks that a search comes to: how many there are of each span.

ghost use Rattle.std.specs.Prelude.{◌≡◌};

use definitions::{Block, Span};
use std::convert::Infallible;
use workers::Recorder;

/// How many blocks a search came to.
#[derive(Clone, Copy, Drop)]
pub struct Counts {
    /// Years.
    pub years: u64,
    /// Days.
    pub days: u64,
    /// Hours.
    pub hours: u64,
    /// Minutes.
    pub minutes: u64,
}

impl Counts {
    ghost use Rattle.std.specs.Prelude.{◌≡◌};
    ghost use Rattle.search_bench.specs.Counting.{both, counted, nothing_counted};

    /// Of nothing.
    pub fn none() -> Counts
        ensures { result ≡ nothing_counted }
    {
        Counts {
            years: 0,
            days: 0,
            hours: 0,
            minutes: 0,
        }
    }

    // The counts once a block of this span is counted.
    fn with(self, span: Span) -> Counts
        ensures { result ≡ counted span self }
    {
        match span {
            Span::Year => Counts {
                years: self.years.saturating_add(1),
                ..self
            },
            Span::Day => Counts {
                days: self.days.saturating_add(1),
                ..self
            },
            Span::Hour => Counts {
                hours: self.hours.saturating_add(1),
                ..self
            },
            Span::Minute => Counts {
                minutes: self.minutes.saturating_add(1),
                ..self
            },
        }
    }

    // Both counts together.
    fn and(self, other: Counts) -> Counts
        ensures { result ≡ both self other }
    {
        Counts {
            years: self.years.saturating_add(other.years),
            days: self.days.saturating_add(other.days),
            hours: self.hours.saturating_add(other.hours),
            minutes: self.minutes.saturating_add(other.minutes),
        }
    }
}

impl Recorder for Counts {
    ghost use Rattle.std.specs.Prelude.{◌≡◌};
    ghost use Rattle.search_bench.specs.Counting.{both, counted, nothing_counted};

    type Fault = Infallible;

    ghost told = { λ before step after. after ≡ counted step.block.span before };

    ghost fails = { λ before after. Unit {0} };

    ghost parts = { λ before after part. (after ≡ before) × (part ≡ nothing_counted) };

    ghost joins = { λ before part after. after ≡ both before part };

    fn needs_steps(&self) -> bool {
        true
    }

    fn record(&mut self, block: &Block, _bound: Option<u32>, _seen: u64) -> Result<(), Infallible> {
        *self = self.with(block.span);
        Ok(())
    }

    fn split(&mut self) -> Result<Counts, Infallible> {
        Ok(Counts::none())
    }

    fn join(&mut self, part: Counts) -> Result<(), Infallible> {
        *self = self.and(part);
        Ok(())
    }
}

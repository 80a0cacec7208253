//! When a thread ends.

use std::rt::Clock;
use std::time::{Duration, Instant};

/// How long a thread goes on.
#[derive(Clone, Copy)]
pub enum Limit {
    /// For so many questions, or entries.
    Number(u64),
    /// For a time.
    Time {
        /// When it began.
        begin: Instant,
        /// How long it is.
        span: Duration,
    },
}

// The clock is read before one of so many questions, or entries.
const ROUND: u64 = 16;

/// No thread asks more questions than this, or publishes more entries, however long it is given.
pub const MOST: u32 = 1_000_000_000;

impl Limit {
    /// Whether a thread that did so many ends. Where the clock can't be read it does.
    pub fn is_over<C: Clock>(&self, clock: &C, done: u32) -> bool {
        let done = done as u64;
        match self {
            Limit::Number(number) => done >= *number,
            Limit::Time { begin, span } => done % ROUND == 0 && is_past(clock, *begin, *span),
        }
    }
}

fn is_past<C: Clock>(clock: &C, begin: Instant, span: Duration) -> bool {
    match begin.elapsed(clock) {
        Ok(elapsed) => elapsed >= span,
        Err(_) => true,
    }
}

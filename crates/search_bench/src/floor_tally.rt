//! The floors of days that were compared, counted by how near they come.

use definitions::{Block, MINUTES_PER_DAY};
use std::fmt;

/// How many floors were compared.
#[derive(Clone, Copy)]
pub struct FloorTally {
    days: u32,
    whole: u32,
    not_legal: u32,
    exact: u32,
    of_0: u32,
    told: u32,
    floors: u64,
    leasts: u64,
}

impl FloorTally {
    /// Of nothing.
    pub fn new() -> FloorTally {
        FloorTally {
            days: 0,
            whole: 0,
            not_legal: 0,
            exact: 0,
            of_0: 0,
            told: 0,
            floors: 0,
            leasts: 0,
        }
    }

    /// Counts a day with its floor and with the least cost of its legal sequences.
    pub fn count(&mut self, day: &Block, floor: Option<u32>, least: Option<u32>) {
        count_if(&mut self.days, true);
        count_if(
            &mut self.whole,
            day.hi.saturating_sub(day.lo) == MINUTES_PER_DAY,
        );
        match least {
            Some(least) => self.count_nearness(floor.unwrap_or(0), least),
            None => {
                count_if(&mut self.not_legal, true);
                count_if(&mut self.told, floor.is_none());
            }
        }
    }

    // Counts how near the floor of a day comes to its least cost.
    fn count_nearness(&mut self, floor: u32, least: u32) {
        count_if(&mut self.exact, floor == least);
        count_if(&mut self.of_0, floor == 0 && least > 0);
        self.floors = self.floors.saturating_add(floor as u64);
        self.leasts = self.leasts.saturating_add(least as u64);
    }

    /// How near the floors come, which hangs on how they are worked out.
    pub fn nearness(&self) -> Nearness {
        Nearness(*self)
    }
}

/// Adds one to the count, if that counts.
pub fn count_if(count: &mut u32, counts: bool) {
    if counts {
        *count = count.saturating_add(1);
    }
}

impl fmt::Display for FloorTally {
    fn fmt<W: fmt::Write>(&self, f: &mut fmt::Formatter<W>) -> fmt::Result {
        let FloorTally {
            days,
            whole,
            not_legal,
            ..
        } = *self;
        write!(
            f,
            "{days} floors of days, {whole} of whole ones, {not_legal} without a legal sequence"
        )
    }
}

/// A tally that shows how near the floors come.
#[derive(Clone, Copy)]
pub struct Nearness(FloorTally);

impl fmt::Display for Nearness {
    fn fmt<W: fmt::Write>(&self, f: &mut fmt::Formatter<W>) -> fmt::Result {
        let tally = self.0;
        let FloorTally {
            days,
            not_legal,
            exact,
            of_0,
            told,
            floors,
            leasts,
            ..
        } = tally;
        let legal = days.saturating_sub(not_legal);
        let percent = floors.saturating_mul(PERCENT) / leasts.max(1);
        write!(
            f,
            "{tally}, of which {told} have no floor; of the other {legal} floors {exact} are exact, {of_0} are 0 and too low, all are {percent} % of the least costs"
        )
    }
}

// So many of a hundred.
const PERCENT: u64 = 100;

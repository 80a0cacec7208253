//! Askers, each in a thread of its own.

use crate::entries::told_by_first;
use crate::limit::{Limit, MOST};
use crate::ring::Ring;
use civil::Civil;
use clock_board::{Asker, Reading};
use std::rt::Clock;
use std::sync::{Arc, Mutex, Wait};
use std::thread::{Threads, for_each_mut};

/// Who is asked.
#[derive(Drop)]
pub enum Source {
    /// A board.
    Board(Asker),
    /// The same entries under a lock, which is held for each question.
    Lock(Arc<Mutex<Ring>>),
}

/// An asker with its counts.
#[derive(Drop)]
pub struct Seat {
    /// Who it asks.
    pub source: Source,
    /// How many questions it asked.
    pub questions: u32,
    /// How many answers went back, or weren't what so many entries tell.
    pub wrong: u32,
    // How many entries it knows of.
    count: u32,
}

// Questions are for milliseconds from so long before the end of what is known on, over such a span, in such strides.
const BEFORE: u64 = 70_000;

const SPAN: u64 = 135_000;

const STRIDE: u64 = 7_919;

const STEP: u64 = 1000;

impl Seat {
    /// An asker that asked nothing.
    pub fn new(source: Source) -> Seat {
        Seat {
            source,
            questions: 0,
            wrong: 0,
            count: 0,
        }
    }

    /// Asks until the limit, and compares each answer.
    pub fn ask_until<R: Wait + Clock>(&mut self, rt: &R, civil: &Civil, limit: &Limit) {
        for number in 0..MOST {
            if limit.is_over(rt, number) {
                return;
            }
            self.ask(rt, civil, number);
        }
    }

    /// Asks the question of this number, and says by how many entries it was answered.
    pub fn ask<R: Wait>(&mut self, rt: &R, civil: &Civil, number: u32) -> u32 {
        let ms = self.millisecond(number);
        let reading = self.reading(rt, civil, ms);
        if reading.count < self.count || reading.told != told_by_first(reading.count, ms) {
            self.wrong = self.wrong.saturating_add(1);
        }
        self.questions = self.questions.saturating_add(1);
        self.count = reading.count;
        reading.count
    }

    fn millisecond(&self, number: u32) -> u64 {
        let end = STEP * self.count as u64 + STRIDE * number as u64 % SPAN;
        end.saturating_sub(BEFORE)
    }

    fn reading<R: Wait>(&mut self, rt: &R, civil: &Civil, ms: u64) -> Reading {
        match &mut self.source {
            Source::Board(asker) => asker.ask(civil, ms),
            Source::Lock(ring) => ring.lock(rt).ask(civil, ms),
        }
    }
}

/// All ask until the limit, each in a thread of its own where one can be made.
pub fn ask_all<R: Threads + Wait + Sync + Clock>(
    rt: &R,
    civil: &Civil,
    seats: &mut [Seat],
    limit: &Limit,
) {
    let many = seats.len();
    if many > 0 {
        let ask = |_: usize, seat: &mut Seat| seat.ask_until(rt, civil, limit);
        for_each_mut(rt, seats, many, &ask);
    }
}

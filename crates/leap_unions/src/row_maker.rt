//! How the rows are made that are kept.

ghost use Rattle.std.specs.Prelude.{ℕ, ◌≡◌, ◌+◌, ◌*◌, ◌<◌, ◌≤◌, IfOk, IfSome, OnOk, false, slice_index, true};
ghost use Rattle.std.specs.List.{All};
ghost use Rattle.signal_base.specs.declared.limits.TheConstants.{MOST_SECONDS};
ghost use Rattle.definitions.specs.sequences.Walks.{set_at};
ghost use Rattle.definitions.specs.time.Calendar.{century_minutes, is_leap_end};
ghost use Rattle.minute_parts.specs.Unions.{AreRegular};
ghost use Rattle.leap_unions.specs.Kept.{IsKept, IsKeptTape, IsRow, row_reach};
ghost use Rattle.leap_unions.specs.Pieces.{announced_from};

use crate::kept::{Kept, add_from_minute, joined, nothing_kept};
use crate::leap_ends::next_leap_end;
use crate::rows::{PLACES, regular_row};
use crate::tapes::{KeptTape, Tape, tape_of};
use civil::Civil;
use definitions::Sequence;
use minute_parts::{SECONDS, Unions};
use signal_base::Station;
use std::alloc::{AllocError, Global};

// A century has two leap ends a year.
const LEAP_ENDS: usize = 200;

const YEARS: usize = 100;

const DECEMBER: u8 = 12;

/// What rows are made from.
#[derive(Drop)]
pub struct Maker<'a> {
    pub civil: &'a Civil,
    pub station: Station,
    /// Of this station.
    pub unions: &'a Unions,
    /// How many seconds the windows have.
    pub seconds: u16,
    ghost of_station: { unions.now.station ≡ station },
    ghost some: { 1 ≤ seconds },
    ghost few: { seconds ≤ MOST_SECONDS },
}

/// The rows that are kept, by their first minutes.
#[derive(Drop)]
pub struct Rows {
    /// For each leap end but the last: the walks that may meet it.
    pub nears: Vec<Kept>,
    /// For each of these leap ends what the walks carry one by one that may meet it.
    pub tapes: Vec<KeptTape>,
    /// For each year but the last: all its walks.
    pub years: Vec<Kept>,
}

// The walks that begin in some minutes up to a leap end: those that may meet it, one by one and together, and all.
#[derive(Drop)]
struct Half {
    tape: KeptTape,
    near: Kept,
    all: Kept,
}

/// How many minutes after its first one a walk of so many seconds reaches at most, from whichever second on.
pub fn row_reach(seconds: u16) -> u32
    requires { seconds ≤ MOST_SECONDS }
    ensures value { result ≡ row_reach seconds }
    ensures few { result ≤ 20 }
{
    (seconds as u32 + 58) / SECONDS as u32
}

impl<'a> Maker<'a> {
    /// The rows, of walks that end before the first minute that the station can't encode.
    pub fn rows(&self, alloc: Global) -> Result<Rows, AllocError>
        ensures nears { IfOk result (λ rows. All (IsKept self.now.station self.now.seconds) rows.nears.items) }
        ensures tapes { IfOk result (λ rows. All (IsKeptTape self.now.station self.now.seconds) rows.tapes.items) }
        ensures years { IfOk result (λ rows. All (IsKept self.now.station self.now.seconds) rows.years.items) }
    {
        let mut nears = Vec::with_capacity(alloc, LEAP_ENDS)?;
        let mut tapes = Vec::with_capacity(alloc, LEAP_ENDS)?;
        let mut years = Vec::with_capacity(alloc, YEARS)?;
        let mut year = nothing_kept();
        for _ in 0..LEAP_ENDS {
            let Some(half) = self.half(year.hi) else {
                return Ok(Rows {
                    nears,
                    tapes,
                    years,
                });
            };
            nears.push(half.near)?;
            tapes.push(half.tape)?;
            year = self.end_year(&mut years, joined(&year, &half.all))?;
        }
        Ok(Rows {
            nears,
            tapes,
            years,
        })
    }

    // The minutes from `t` up to the next leap end, where its walks end in time.
    fn half(&self, t: u32) -> Option<Half>
        ensures tape { IfSome result (λ half. IsKeptTape self.now.station self.now.seconds half.tape) }
        ensures near { IfSome result (λ half. IsKept self.now.station self.now.seconds half.near) }
        ensures all { IfSome result (λ half. IsKept self.now.station self.now.seconds half.all) }
        ensures begins { IfSome result (λ half. half.all.lo ≡ t) }
    {
        let end = self.unions.parts().end();
        if t >= end {
            return None;
        }
        let leap = next_leap_end(self.civil, t);
        let reach = row_reach(self.seconds);
        if leap <= t + reach {
            return None;
        }
        if end <= leap + reach {
            return None;
        }
        let tape = self.kept_tape(leap - reach, reach);
        let near = self.near(&tape, reach);
        let regular = self.regular(t, leap - reach, reach);
        let all = joined(&regular, &near);
        Some(Half { tape, near, all })
    }

    // The walks that begin in a minute or in one of the `reach` minutes after it, one by one. Each of them goes on as the first
    // does that many minutes later, since all but the last of these minutes have 60 seconds.
    fn kept_tape(&self, first: u32, reach: u32) -> KeptTape
        requires reach { reach ≡ row_reach self.now.seconds }
        requires short { (u : ℕ) → first ≤ u → u < first + reach → is_leap_end u ≡ false }
        requires leap { is_leap_end (first + reach) ≡ true }
        requires early { first + 2 * reach < self.now.unions.now.end }
        requires century { first + reach < century_minutes }
        ensures kept { IsKeptTape self.now.station self.now.seconds result }
        ensures begins { result.lo ≡ first }
        ensures ends { result.hi ≡ first + reach + 1 }
    {
        KeptTape {
            lo: first,
            hi: first + reach + 1,
            tape: self.tape(first, reach),
        }
    }

    // The same walks together.
    fn near(&self, tape: &KeptTape, reach: u32) -> Kept
        requires reach { reach ≡ row_reach self.now.seconds }
        requires tape { IsKeptTape self.now.station self.now.seconds tape.now }
        requires ends { tape.now.hi ≡ tape.now.lo + reach + 1 }
        requires century { tape.now.hi ≤ century_minutes }
        ensures kept { IsKept self.now.station self.now.seconds result }
        ensures begins { result.lo ≡ tape.now.lo }
        ensures ends { result.hi ≡ tape.now.hi }
    {
        let mut row = [0; PLACES];
        for m in 0..reach + 1 {
            add_from_minute(&mut row, &tape.tape, m as usize);
        }
        Kept {
            lo: tape.lo,
            hi: tape.hi,
            row,
        }
    }

    // What the walk from the first second of a minute carries.
    fn tape(&self, first: u32, reach: u32) -> Tape
        requires reach { reach ≡ row_reach self.now.seconds }
        requires early { first + 2 * reach < self.now.unions.now.end }
        ensures { (k : ℕ) → k < SECONDS * reach + self.now.seconds + 59 → slice_index result k ≡ set_at self.now.station (announced_from 0 first) k }
    {
        let count = SECONDS * reach as usize + self.seconds as usize + 59;
        // What ends before it fits.
        self.unions.parts().end();
        let q = Sequence {
            first,
            second: 0,
            announced: true,
        };
        tape_of(self.civil, self.station, &q, count)
    }

    // The walks that begin in some minutes and meet no leap second.
    fn regular(&self, lo: u32, hi: u32, reach: u32) -> Kept
        requires some { lo < hi }
        requires reach { reach ≡ row_reach self.now.seconds }
        requires short { (u : ℕ) → lo ≤ u → u < hi + reach → is_leap_end u ≡ false }
        requires early { hi + reach ≤ self.now.unions.now.end }
        requires century { hi + reach ≤ century_minutes }
        ensures kept { IsKept self.now.station self.now.seconds result }
        ensures begins { result.lo ≡ lo }
        ensures ends { result.hi ≡ hi }
    {
        // What ends before it fits.
        self.unions.parts().end();
        Kept {
            lo,
            hi,
            row: regular_row(self.unions, true, lo, hi, reach),
        }
    }

    // Keeps the row of a year that ends, and begins the next.
    fn end_year(&self, years: &mut Vec<Kept>, year: Kept) -> Result<Kept, AllocError>
        requires kept { IsKept self.now.station self.now.seconds year }
        requires years { All (IsKept self.now.station self.now.seconds) years.old.items }
        ensures years { OnOk result (All (IsKept self.now.station self.now.seconds) years.new.items) }
        ensures order { IfOk result (λ next. next.lo ≤ next.hi) }
        ensures row { IfOk result (λ next. IsRow self.now.station self.now.seconds next.lo next.hi next.row) }
    {
        if self.civil.utc(year.hi - 1).month != DECEMBER {
            return Ok(year);
        }
        years.push(year)?;
        Ok(Kept {
            lo: year.hi,
            hi: year.hi,
            row: [0; PLACES],
        })
    }
}

//! Unions over ranges of minutes.

ghost use Rattle.std.specs.Prelude.{ℕ, Bool, ◌≡◌, ◌<◌, ◌≤◌, IfOk, length, slice_index};
ghost use Rattle.minute_parts.specs.Parts.{IsInRun, IsPartTable, set_in_run};
ghost use Rattle.minute_parts.specs.Runs.{end_of_run, first_of, run_at};
ghost use Rattle.minute_parts.specs.declared.part.TheConstants.{SECONDS};
ghost use Rattle.minute_parts.specs.Unions.{AreRegular, IsUnionOf, IsUnionOver};

use crate::part::{Part, either, nothing, overlaid};
use crate::parts::Parts;
use crate::time_unions::{DAY_MINUTES, time_table, time_union};
use std::alloc::{AllocError, Global};
use std::marker::Model;

/// What a station's seconds may carry in ranges of minutes, all minutes of a range together.
#[derive(Drop)]
pub struct Unions {
    parts: Parts,
    pub(crate) times: Vec<Part>,
}

impl Model for Unions {
    ghost use Rattle.minute_parts.specs.Parts.{PartTable};

    ghost Value = { PartTable };

    ghost use Rattle.minute_parts.specs.Parts.{IsPartTable};
    ghost use Rattle.minute_parts.specs.Times.{IsTimeTable};

    ghost view = { λ u. u.parts };

    ghost invariant = { λ u. IsPartTable u.parts × IsTimeTable u.parts.times u.times.items };
}

impl Unions {
    /// Makes ready for the unions of these parts.
    pub fn make(alloc: Global, parts: Parts) -> Result<Unions, AllocError>
        ensures { IfOk result (λ unions. unions ≡ parts) }
    {
        let times = time_table(alloc, &parts)?;
        // Whatever parts these are, they are those of a station.
        parts.end();
        Ok(Unions { parts, times })
    }

    /// The parts.
    pub fn parts(&self) -> &Parts
        ensures { result.now ≡ self.now }
    {
        &self.parts
    }

    /// What each second may carry in the minutes from `lo` up to, and without, `hi`, all of them together. Each of them has
    /// 60 seconds where a leap second is announced or not, as `announced` says. A second that isn't scored in one of the
    /// minutes isn't scored in the union.
    pub fn over(&self, announced: bool, lo: u32, hi: u32) -> Part
        requires some { lo < hi }
        requires regular { AreRegular announced lo hi self.now.end }
        ensures { (s : ℕ) → s < SECONDS → IsUnionOver self.now.station announced lo hi s (slice_index result s) }
    {
        let mut union = nothing();
        let mut t = lo;
        for i in self.parts.run_of(lo)..self.parts.runs() {
            let end = self.parts.run_end(i).min(hi);
            union = either(&union, &self.over_run(announced, i, t, end));
            if end == hi {
                return union;
            }
            t = end;
        }
        union
    }

    // The union over some minutes of a run.
    fn over_run(&self, announced: bool, i: usize, lo: u32, hi: u32) -> Part
        requires run { i < length self.now.runs }
        requires begun { first_of self.now.runs i ≤ lo }
        requires some { lo < hi }
        requires ends { hi ≤ end_of_run self.now.runs self.now.end i }
        ensures { (s : ℕ) → s < SECONDS → IsUnionOf (λ t. set_in_run self.now announced (run_at self.now.runs i) t s) lo hi (slice_index result s) }
    {
        let run = self.parts.run(i);
        let date = run.date_part(announced);
        let u = (lo as usize % DAY_MINUTES + run.shift as usize) % DAY_MINUTES;
        if hi - lo == 1 {
            return overlaid(self.parts.time_part(u as u16), date);
        }
        either(&time_union(&self.times, u, (hi - lo) as usize), date)
    }
}

//! The table of a station's parts.

ghost use Rattle.std.specs.Prelude.{◌≡◌, ◌<◌, ◌≤◌, ◌↔◌, ℕ, IfOk, length, vec_len, slice_index_or, []};
ghost use Rattle.definitions.specs.codes.Allowed.{encoded_year};
ghost use Rattle.definitions.specs.time.Calendar.{century_minutes, minutes_per_day};
ghost use Rattle.minute_parts.specs.Dates.{time_part};
ghost use Rattle.minute_parts.specs.Parts.{IsInRun, IsPartTable, times_at};
ghost use Rattle.minute_parts.specs.Runs.{end_of_run, run_at};

use crate::dates::winter_shift;
use crate::part::Part;
use crate::runs::{Run, Runs, runs_of};
use crate::times::time_part;
use civil::Civil;
use definitions::{CENTURY_MINUTES, MINUTES_PER_DAY};
use signal_base::Station;
use std::alloc::{AllocError, Global};
use std::marker::Model;

/// What a station's seconds may carry in each minute of 60 seconds, in two parts. The one tells of the seconds that
/// depend on the time of day, the other of those that depend on the date. What a second carries is what the first tells
/// of it, or, where that is 0, what the second tells.
///
/// Contracts see the parts, the runs and where they end, as a `PartTable`. What these mean stands in `IsPartTable`, which
/// `make` and `end` promise.
#[derive(Drop)]
pub struct Parts {
    station: Station,
    times: Vec<Part>,
    runs: Vec<Run>,
    days: Vec<usize>,
    end: u32,
}

impl Model for Parts {
    ghost use Rattle.minute_parts.specs.Parts.{PartTable};

    ghost Value = { PartTable };

    ghost use Rattle.minute_parts.specs.Parts.{IsPartTable};
    ghost use Rattle.minute_parts.specs.Runs.{Points, days_before};

    ghost view = { λ p. record { station = p.station; times = p.times.items; runs = p.runs.items; end = p.end } };

    ghost invariant = { λ p.
        IsPartTable (record { station = p.station; times = p.times.items; runs = p.runs.items; end = p.end })
        × Points p.days.items p.runs.items (days_before p.end) };
}

impl Parts {
    /// Makes the parts of a station.
    pub fn make(alloc: Global, civil: &Civil, station: Station) -> Result<Parts, AllocError>
        ensures station { IfOk result (λ p. p.station ≡ station) }
        ensures table { IfOk result (λ p. IsPartTable p) }
    {
        let times = times_of(alloc, station)?;
        let end = end_of(station);
        let Runs { runs, days } = runs_of(alloc, civil, station, end)?;
        Ok(Parts {
            station,
            times,
            runs,
            days,
            end,
        })
    }

    /// The first minute that the station can't encode, counted from 2000-01-01T00:00Z, or 52,596,000 where it can encode
    /// the whole century.
    pub fn end(&self) -> u32
        ensures value { result ≡ self.now.end }
        ensures table { IsPartTable self.now }
    {
        self.end
    }

    /// What the time of day tells in the minutes that encode the minute `u` of the local day, 0 to 1439.
    pub fn time_part(&self, u: u16) -> &Part
        requires { u < minutes_per_day }
        ensures { result.now ≡ times_at self.now u }
    {
        &self.times[u as usize]
    }

    /// The number of the run in which the minute lies; it is below `end`.
    pub fn run_of(&self, t: u32) -> usize
        requires { t < self.now.end }
        ensures { IsInRun self.now t result }
    {
        let first = self.days[(t / MINUTES_PER_DAY) as usize];
        for i in first..self.runs.len() - 1 {
            if t < self.runs[i + 1].first {
                return i;
            }
        }
        self.runs.len() - 1
    }

    /// The run of this number, counted from 0.
    pub fn run(&self, i: usize) -> &Run
        requires { i < length self.now.runs }
        ensures { result.now ≡ run_at self.now.runs i }
    {
        &self.runs[i]
    }

    /// How many runs there are.
    pub fn runs(&self) -> usize
        ensures { result ≡ length self.now.runs }
    {
        self.runs.len()
    }

    /// The minute after the last one of a run.
    pub fn run_end(&self, i: usize) -> u32
        requires { i < length self.now.runs }
        ensures { result ≡ end_of_run self.now.runs self.now.end i }
    {
        let count = self.runs.len();
        if i + 1 < count {
            self.runs[i + 1].first
        } else {
            self.end
        }
    }
}

// The parts by the time of day.
fn times_of(alloc: Global, station: Station) -> Result<Vec<Part>, AllocError>
    ensures count { IfOk result (λ times. vec_len times ≡ minutes_per_day) }
    ensures each { IfOk result (λ times. (u : ℕ) → u < minutes_per_day → slice_index_or times.items u [] ≡ time_part station u) }
{
    let mut times = Vec::with_capacity(alloc, MINUTES_PER_DAY as usize)?;
    for u in 0..MINUTES_PER_DAY as u16 {
        times.push(time_part(station, u))?;
    }
    Ok(times)
}

// The first minute that the station can't encode. The century ends in winter.
fn end_of(station: Station) -> u32
    ensures some { 0 < result }
    ensures value { (t : ℕ) → t < result ↔ ((t < century_minutes) × (encoded_year station t ≤ 2099)) }
{
    CENTURY_MINUTES - winter_shift(station) as u32
}

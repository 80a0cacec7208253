//! Runs of minutes over which what a station tells by the date stays as it is.

ghost use Rattle.std.specs.Prelude.{◌≡◌, ◌+◌, ◌<◌, ◌≤◌, ◌↔◌, ℕ, IfOk, OnOk, length, vec_len};
ghost use Rattle.definitions.specs.codes.Allowed.{encoded_year};
ghost use Rattle.definitions.specs.time.Calendar.{century_minutes};
ghost use Rattle.minute_parts.specs.Dates.{AreInRange, date_facts, unannounced};
ghost use Rattle.minute_parts.specs.Parts.{part_where};
ghost use Rattle.minute_parts.specs.Runs.{Covers, Extends, Points, days_before, first_of, last_of, run_by};

use crate::date_rows::DateRows;
use crate::dates::{DateFacts, date_facts, shift_by};
use crate::part::Part;
use crate::pieces::piece_end;
use civil::Civil;
use definitions::{CENTURY_DAYS, MINUTES_PER_DAY};
use signal_base::Station;
use std::alloc::{AllocError, Global};

/// A run of minutes. It ends where the next one begins.
#[derive(Clone, Copy)]
pub struct Run {
    /// The first minute, counted from 2000-01-01T00:00Z.
    pub first: u32,
    /// By how many minutes the local time that is encoded is ahead of the sent minute in UTC, 0 to 540.
    pub shift: u16,
    /// What the date tells where no leap second is announced.
    pub unannounced: Part,
    /// What it tells where one is announced for the end of the UTC month.
    pub announced: Part,
}

impl Run {
    /// What the date tells where a leap second is announced, or where none is.
    pub fn date_part(&self, announced: bool) -> &Part
        ensures { result.now ≡ part_where announced self.now }
    {
        if announced {
            &self.announced
        } else {
            &self.unannounced
        }
    }
}

/// The runs in order, and for each UTC day the number of the run in which it begins.
#[derive(Drop)]
pub struct Runs {
    /// The runs.
    pub runs: Vec<Run>,
    /// By day.
    pub days: Vec<usize>,
}

// How many runs to make room for: a station has a few more than the century has days.
const ROOM: usize = 38_000;

/// The runs of the minutes before `end`, all of which the station can encode.
pub fn runs_of(alloc: Global, civil: &Civil, station: Station, end: u32) -> Result<Runs, AllocError>
    requires some { 0 < end }
    requires encoded { (t : ℕ) → t < end → (t < century_minutes) × (encoded_year station t ≤ 2099) }
    ensures runs { IfOk result (λ r. Covers station r.runs.items (date_facts station (first_of r.runs.items (last_of r.runs.items))) end) }
    ensures begun { IfOk result (λ r. first_of r.runs.items (last_of r.runs.items) < end) }
    ensures days { IfOk result (λ r. Points r.days.items r.runs.items (days_before end)) }
{
    let rows = DateRows::make(alloc, station)?;
    let mut runs = Vec::with_capacity(alloc, ROOM)?;
    let mut days = Vec::with_capacity(alloc, CENTURY_DAYS as usize)?;
    let mut date = date_facts(civil, station, 0);
    runs.push(run_by(&rows, station, 0, &date))?;
    let mut t = 0;
    while t < end {
        let here = date_facts(civil, station, t);
        add_run(&mut runs, &mut date, &rows, station, t, here)?;
        add_day(&mut days, &runs, t)?;
        t = piece_end(civil, station, t, &here).min(end);
    }
    Ok(Runs { runs, days })
}

// Begins a run at `t`, unless the date tells there what it tells in the last run.
fn add_run(
    runs: &mut Vec<Run>,
    date: &mut DateFacts,
    rows: &DateRows,
    station: Station,
    t: u32,
    here: DateFacts,
) -> Result<(), AllocError>
    requires rows { rows.now.station ≡ station }
    requires covered { Covers station runs.old.items date.old t }
    requires here { here ≡ date_facts station t }
    requires ranges { AreInRange here }
    ensures covered { OnOk result (Covers station runs.new.items date.new t) }
    ensures here { OnOk result (date.new ≡ here) }
    ensures grown { OnOk result (Extends runs.new.items runs.old.items) }
{
    if here != *date {
        runs.push(run_by(rows, station, t, &here))?;
        *date = here;
    }
    Ok(())
}

// At the first minute of a day, notes its run.
fn add_day(days: &mut Vec<usize>, runs: &Vec<Run>, t: u32) -> Result<(), AllocError>
    requires some { 0 < vec_len runs.now }
    requires begun { first_of runs.now.items (last_of runs.now.items) ≤ t }
    requires days { Points days.old.items runs.now.items (days_before t) }
    ensures { OnOk result (Points days.new.items runs.now.items (days_before (t + 1))) }
{
    if t % MINUTES_PER_DAY == 0 {
        days.push(runs.len() - 1)?;
    }
    Ok(())
}

// The run that begins at this minute, with the facts of its date.
fn run_by(rows: &DateRows, station: Station, first: u32, date: &DateFacts) -> Run
    requires rows { rows.now.station ≡ station }
    requires date { AreInRange date.now }
    ensures { result ≡ run_by station first date.now }
{
    let announced = rows.part_of(date);
    let without = if date.leap {
        rows.part_of(&unannounced(date))
    } else {
        announced
    };
    Run {
        first,
        shift: shift_by(station, date),
        unannounced: without,
        announced,
    }
}

// The same facts where no leap second is announced.
fn unannounced(date: &DateFacts) -> DateFacts
    ensures { result ≡ unannounced date.now }
{
    DateFacts {
        day: date.day,
        summer: date.summer,
        change: date.change,
        us_code: date.us_code,
        leap: false,
    }
}

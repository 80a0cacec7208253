//! What the unions of whole hours cost whose walks lie in one run: what the time of day tells there, which is kept for each
//! hour of the local day, and what the date tells of the seconds that are left to it.

ghost use Rattle.std.specs.Prelude.{ℕ, ◌≡◌, ◌+◌, ◌<◌, ◌≤◌, ◌^◌, IfOk, IfSome, OnOk, bit_or, false, length, slice_index, true};
ghost use Rattle.minute_parts.specs.declared.hour_layers.TheConstants.{HOUR_MINUTES};
ghost use Rattle.slot_columns.specs.declared.limits.TheConstants.{SECONDS_PER_MINUTE};
ghost use Rattle.minute_parts.specs.Overlay.{is_given_up};
ghost use Rattle.block_costs.specs.Hours.{AreHourCosts, AreHourLayers, AreHours, IsHourCost, hour_at};

use crate::kept::LAST_SECOND;
use crate::walks::Walks;
use definitions::{MINUTES_PER_DAY, MINUTES_PER_HOUR};
use minute_parts::{CALL_BEGIN, CALL_END, CALL_MARKER, CALL_MINUTE, hours_tell_time_and_date};
use signal_base::Station;
use slot_columns::{Part, SECONDS_PER_MINUTE};
use std::alloc::{AllocError, Global};
use walk_costs::StationWalks;

/// What the time of day tells in the hours of the local day, and what that costs. They begin so many minutes after a whole
/// local hour as the UTC hours do.
#[derive(Drop)]
pub struct Hours {
    pub begin: u16,
    // What the time of day tells in the minutes of the call sign, of the seconds that it takes. Each hour has such a minute.
    pub call: Part,
    pub firsts: Vec<Part>,
    pub rests: Vec<Part>,
    // A row of hours for each second in which a walk may begin.
    pub costs: Vec<u32>,
}

/// How many hours there are.
pub const DAY_HOURS: usize = (MINUTES_PER_DAY / MINUTES_PER_HOUR) as usize;

// How many entries the rows have together.
const ENTRIES: usize = SECONDS_PER_MINUTE * DAY_HOURS;

/// The hours of a station's local day, as far as the time of day tells the same in all later minutes of their walks.
pub fn hours_of(alloc: Global, walks: &StationWalks) -> Result<Hours, AllocError>
    ensures { IfOk result (λ hours. AreHours walks.now hours.begin hours.call hours.firsts.items hours.rests.items hours.costs.items) }
{
    let begin = first_shift(walks) % MINUTES_PER_HOUR as u16;
    let call = *walks.parts().time_part(CALL_MINUTE);
    let mut firsts = Vec::with_capacity(alloc, DAY_HOURS)?;
    let mut rests = Vec::with_capacity(alloc, DAY_HOURS)?;
    for _ in 0..DAY_HOURS {
        add_hour(&mut firsts, &mut rests, walks, begin, &call)?;
    }
    let costs = costs_of(alloc, walks, &firsts, &rests)?;
    Ok(Hours {
        begin,
        call,
        firsts,
        rests,
        costs,
    })
}

// What the hours' layers cost.
fn costs_of(
    alloc: Global,
    walks: &StationWalks,
    firsts: &[Part],
    rests: &[Part],
) -> Result<Vec<u32>, AllocError>
    requires { length firsts.now ≡ length rests.now }
    ensures { IfOk result (λ costs. AreHourCosts walks.now.grid firsts.now rests.now costs.items) }
{
    let mut costs = Vec::with_capacity(alloc, ENTRIES)?;
    for i in 0..ENTRIES {
        costs.push(cost_at(walks, firsts, rests, i / DAY_HOURS, i % DAY_HOURS))?;
    }
    Ok(costs)
}

// What the layers of one hour cost in walks from second `p`, and 0 where there is no such hour.
fn cost_at(walks: &StationWalks, firsts: &[Part], rests: &[Part], p: usize, hour: usize) -> u32
    requires count { length firsts.now ≡ length rests.now }
    requires second { p < SECONDS_PER_MINUTE }
    ensures { result ≡ hour_at walks.now.grid firsts.now rests.now p hour }
{
    if hour < firsts.len() {
        walks
            .columns()
            .layered_cost(p as u8, &firsts[hour], &rests[hour])
    } else {
        0
    }
}

// By how many minutes the local time is ahead of UTC in the first run.
fn first_shift(walks: &StationWalks) -> u16 {
    let parts = walks.parts();
    // A station has some run.
    parts.end();
    parts.run(0).shift
}

// The next hour, unless the time of day tells less in the minutes that all its walks share, or another call sign.
fn add_hour(
    firsts: &mut Vec<Part>,
    rests: &mut Vec<Part>,
    walks: &StationWalks,
    begin: u16,
    call: &Part,
) -> Result<(), AllocError>
    requires { AreHourLayers walks.now begin call.now firsts.old.items rests.old.items }
    ensures { OnOk result (AreHourLayers walks.now begin call.now firsts.new.items rests.new.items) }
{
    let u = firsts
        .len()
        .saturating_mul(MINUTES_PER_HOUR as usize)
        .saturating_add(begin as usize);
    let reach = walks.later_minutes(LAST_SECOND);
    if u.saturating_add(reach as usize) >= MINUTES_PER_DAY as usize {
        return Ok(());
    }
    let Some(layers) = walks.unions().time_layers(u as u16, reach) else {
        return Ok(());
    };
    let station = walks.columns().station();
    if !calls_alike(station, &layers.first, call) || !calls_alike(station, &layers.rest, call) {
        return Ok(());
    }
    firsts.push(layers.first)?;
    rests.push(layers.rest)?;
    Ok(())
}

impl Hours {
    /// What the unions cost over the walks of an hour, where it is kept and they lie in one run. None of other hours.
    pub fn in_run(&self, walks: &Walks<'_>) -> Option<u32>
        requires hours { AreHours walks.now.station.now self.now.begin self.now.call self.now.firsts.items self.now.rests.items self.now.costs.items }
        requires hour { walks.now.hi ≡ walks.now.lo + HOUR_MINUTES }
        ensures { IfSome result (IsHourCost walks.now.station.now walks.now.announced walks.now.second walks.now.lo) }
    {
        hours_tell_time_and_date();
        let station = walks.station;
        let p = walks.second;
        let unions = station.unions();
        let parts = unions.parts();
        // They are a table, as their end is one.
        parts.end();
        let run = parts.run_of(walks.lo);
        let at = parts.run(run);
        if walks.hi + station.later_minutes(p) > parts.run_end(run) {
            return None;
        }
        let u = walks.lo % MINUTES_PER_DAY + at.shift as u32;
        if u % MINUTES_PER_HOUR != self.begin as u32 {
            return None;
        }
        let hour = (u % MINUTES_PER_DAY / MINUTES_PER_HOUR) as usize;
        if hour >= self.firsts.len() {
            return None;
        }
        let columns = station.columns();
        let told = at.date_part(walks.announced);
        if !leaves_nothing(columns.station(), &self.call, told) {
            return None;
        }
        bytes_of(told);
        let date = station.kept_date_cost(walks.announced, p, run);
        Some(self.costs[p as usize * DAY_HOURS + hour] + date)
    }
}

// A part has a byte for each second: this says so, and does nothing.
fn bytes_of(part: &Part)
    ensures { (s : ℕ) → s < SECONDS_PER_MINUTE → slice_index part.now s < 2 ^ 8 }
{
    for s in 0..SECONDS_PER_MINUTE {
        let _byte = part[s];
    }
}

// Whether the time of day leaves nothing to the date in the seconds that the station gives up for its call sign, where it tells
// this there.
fn leaves_nothing(station: Station, call: &Part, date: &Part) -> bool
    ensures { result ≡ true → (s : ℕ) → is_given_up station s ≡ true → bit_or (slice_index call.now s) (slice_index date.now s) ≡ slice_index call.now s }
{
    match station {
        Station::Jjy => {
            covers(call, date, CALL_BEGIN, CALL_MARKER)
                && covers(call, date, CALL_MARKER + 1, CALL_END)
        }
        Station::Dcf77 | Station::Msf | Station::Wwvb => true,
    }
}

// Whether a part tells the same as the other in the seconds that the station gives up for its call sign.
fn calls_alike(station: Station, part: &Part, call: &Part) -> bool
    ensures { result ≡ true → (s : ℕ) → is_given_up station s ≡ true → slice_index part.now s ≡ slice_index call.now s }
{
    match station {
        Station::Jjy => {
            same_in(part, call, CALL_BEGIN, CALL_MARKER)
                && same_in(part, call, CALL_MARKER + 1, CALL_END)
        }
        Station::Dcf77 | Station::Msf | Station::Wwvb => true,
    }
}

// Whether the one part has all that the other has in the seconds from `from` up to, and without, `to`.
#[inline(always)]
fn covers(all: &Part, part: &Part, from: usize, to: usize) -> bool
    requires { to ≤ SECONDS_PER_MINUTE }
    ensures { result ≡ true → (s : ℕ) → from ≤ s → s < to → bit_or (slice_index all.now s) (slice_index part.now s) ≡ slice_index all.now s }
{
    for s in from..to {
        if all[s] | part[s] != all[s] {
            return false;
        }
    }
    true
}

// Whether two parts are the same in the seconds from `from` up to, and without, `to`.
fn same_in(part: &Part, other: &Part, from: usize, to: usize) -> bool
    requires { to ≤ SECONDS_PER_MINUTE }
    ensures { result ≡ true → (s : ℕ) → from ≤ s → s < to → slice_index part.now s ≡ slice_index other.now s }
{
    for s in from..to {
        if part[s] != other[s] {
            return false;
        }
    }
    true
}

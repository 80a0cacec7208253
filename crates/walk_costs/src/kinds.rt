//! Kinds of walks, by what their dates tell in the seconds that JJY gives up for its call sign and by when they may begin.
//!
//! There are few: in those seconds the date tells the year, the weekday and whether a leap second is announced.

ghost use Rattle.std.specs.Prelude.{◌≡◌, ◌*◌, ◌<◌, ℕ, IfOk, OnOk, false, length, slice_index, true};
ghost use Rattle.minute_parts.specs.Overlay.{is_given_up};
ghost use Rattle.minute_parts.specs.Parts.{IsPartTable};
ghost use Rattle.minute_parts.specs.Runs.{run_at};
ghost use Rattle.walk_costs.specs.Kinds.{AreKindsOf, AreSame, HasPlace, IsKindOf, IsPlaced, IsPlacedBy, IsToldAlike, either_set, end_in, last_begin};

use crate::shown::is_told_alike;
use crate::walks::local_time;
use definitions::MINUTES_PER_DAY;
use minute_parts::{CALL_BEGIN, CALL_END, Parts, gives_up};
use signal_base::{Station, UNSCORED};
use slot_columns::{Part, SECONDS_PER_MINUTE};
use std::alloc::{AllocError, Global};

/// A kind of walks.
#[derive(Clone, Copy)]
pub struct Kind {
    /// What their dates tell in the seconds that are given up: a set costs there no more than that of any of the dates.
    pub told: Part,
    /// The last minute of the local day in which they begin.
    pub last: u16,
}

/// The kinds of the walks that begin in each run.
#[derive(Drop)]
pub struct Kinds {
    /// Each kind, some of them more than once.
    pub all: Vec<Kind>,
    /// Two places among them for each run: where no leap second is announced, and where one is.
    pub places: Vec<usize>,
}

// Where the same kind may stand, so many places back. What is announced is mostly told as what isn't; the weekday was the same in
// the same year mostly seven runs ago, or eight where a day had two; and in December a leap second is announced as in June, 26
// weeks and two runs before.
const BACK: [usize; 5] = [1, 14, 16, 2, 368];

/// How many sets of at most five symbols there are.
pub const SETS: u8 = 32;

/// The kinds of the walks that lie in one run, or of those that go on to the next.
pub fn kinds_of(
    alloc: Global,
    parts: &Parts,
    station: Station,
    across: bool,
) -> Result<Kinds, AllocError>
    requires { IsPartTable parts.now }
    ensures { IfOk result (λ kinds. AreKindsOf parts.now station across kinds.all.items kinds.places.items (2 * length parts.now.runs)) }
{
    if !gives_up(station) {
        return kinds_by_end(alloc, parts, station, across);
    }
    let mut all = Vec::new(alloc);
    let mut places = Vec::with_capacity(alloc, parts.runs().saturating_mul(2))?;
    for i in 0..parts.runs() {
        let without = kind_of(parts, station, across, false, i);
        add_kind(&mut all, &mut places, &without)?;
        let announced = announced_kind(parts, station, across, i, &without);
        add_kind(&mut all, &mut places, &announced)?;
    }
    Ok(Kinds { all, places })
}

// The same of a station that gives up no second: they differ by when they may begin alone, and are few.
fn kinds_by_end(
    alloc: Global,
    parts: &Parts,
    station: Station,
    across: bool,
) -> Result<Kinds, AllocError>
    requires table { IsPartTable parts.now }
    requires keeps { (s : ℕ) → is_given_up station s ≡ false }
    ensures { IfOk result (λ kinds. AreKindsOf parts.now station across kinds.all.items kinds.places.items (2 * length parts.now.runs)) }
{
    let mut all = Vec::new(alloc);
    let mut places = Vec::with_capacity(alloc, parts.runs().saturating_mul(2))?;
    for i in 0..parts.runs() {
        let place = place_by_end(&mut all, last_begin(parts, across, i))?;
        places.push(place)?;
        places.push(place)?;
    }
    Ok(Kinds { all, places })
}

// Where a kind stands then that begins in this minute at the latest, and tells nothing.
fn place_by_end(all: &mut Vec<Kind>, last: u16) -> Result<usize, AllocError>
    ensures { IfOk result (IsPlacedBy all.old.items all.new.items last) }
{
    for i in 0..all.len() {
        if all[i].last == last {
            return Ok(i);
        }
    }
    all.push(Kind {
        told: nothing(),
        last,
    })?;
    Ok(all.len() - 1)
}

// That of the walks which begin in a run.
fn kind_of(parts: &Parts, station: Station, across: bool, announced: bool, run: usize) -> Kind
    requires table { IsPartTable parts.now }
    requires run { run < length parts.now.runs }
    ensures { IsKindOf parts.now station across announced run result }
{
    let one = parts.run(run).date_part(announced);
    let other = parts.run(end_in(parts, across, run)).date_part(announced);
    Kind {
        told: told_by(station, one, other),
        last: last_begin(parts, across, run),
    }
}

// The same where a leap second is announced, by the kind where none is: in most months they are one.
fn announced_kind(parts: &Parts, station: Station, across: bool, run: usize, without: &Kind) -> Kind
    requires table { IsPartTable parts.now }
    requires run { run < length parts.now.runs }
    requires without { IsKindOf parts.now station across false run without.now }
    ensures { IsKindOf parts.now station across true run result }
{
    let end = end_in(parts, across, run);
    if are_told_alike(parts, run, end) {
        return *without;
    }
    kind_of(parts, station, across, true, run)
}

// Whether two runs tell the same where a leap second is announced and where none is.
fn are_told_alike(parts: &Parts, one: usize, other: usize) -> bool
    requires one { one < length parts.now.runs }
    requires other { other < length parts.now.runs }
    ensures { result ≡ true → IsToldAlike (run_at parts.now.runs one) × IsToldAlike (run_at parts.now.runs other) }
{
    if !is_told_alike(parts.run(one)) {
        return false;
    }
    is_told_alike(parts.run(other))
}

// The run in which they end. The last run has no next, and stands for it.
fn end_in(parts: &Parts, across: bool, run: usize) -> usize
    requires { run < length parts.now.runs }
    ensures within { result < length parts.now.runs }
    ensures end { end_in across run < length parts.now.runs → result ≡ end_in across run }
{
    // The next run's number fits, as the count of runs does.
    let runs = parts.runs();
    if across && run + 1 < runs {
        run + 1
    } else {
        run
    }
}

// The last minute of the local day in which they begin.
fn last_begin(parts: &Parts, across: bool, run: usize) -> u16
    requires table { IsPartTable parts.now }
    requires run { run < length parts.now.runs }
    ensures { result ≡ last_begin parts.now across run }
{
    if across {
        local_time(parts.run(run).shift, parts.run_end(run) - 1)
    } else {
        MINUTES_PER_DAY as u16 - 1
    }
}

// What two dates tell in the seconds that are given up.
fn told_by(station: Station, one: &Part, other: &Part) -> Part
    ensures { (s : ℕ) → s < SECONDS_PER_MINUTE → is_given_up station s ≡ true → slice_index result s ≡ either_set (slice_index one.now s) (slice_index other.now s) }
{
    let mut told = nothing();
    if !gives_up(station) {
        return told;
    }
    for s in CALL_BEGIN..CALL_END {
        told[s] = either(one[s], other[s]);
    }
    told
}

/// A part that tells nothing.
pub fn nothing() -> Part
    ensures { (s : ℕ) → slice_index result s ≡ 0 }
{
    [0; SECONDS_PER_MINUTE]
}

/// A set that costs no more than either of two.
pub fn either(one: u8, other: u8) -> u8
    ensures { result ≡ either_set one other }
{
    if one == UNSCORED {
        return 0;
    }
    if other == UNSCORED {
        return 0;
    }
    one % SETS | other % SETS
}

// Adds a place for a kind, and the kind where it isn't among the last ones.
fn add_kind(all: &mut Vec<Kind>, places: &mut Vec<usize>, kind: &Kind) -> Result<(), AllocError>
    ensures { OnOk result (HasPlace all.old.items all.new.items places.old.items places.new.items kind.now) }
{
    let place = place_of(all, places, kind)?;
    places.push(place)?;
    Ok(())
}

// Where it stands then.
fn place_of(all: &mut Vec<Kind>, places: &Vec<usize>, kind: &Kind) -> Result<usize, AllocError>
    ensures { IfOk result (IsPlaced all.old.items all.new.items kind.now) }
{
    for back in BACK {
        if back <= places.len() {
            let place = places[places.len() - back];
            if place < all.len() && are_same(&all[place], kind) {
                return Ok(place);
            }
        }
    }
    all.push(*kind)?;
    Ok(all.len() - 1)
}

/// Where a kind stands in a list, to which it is added where it isn't there.
pub fn place_in(list: &mut Vec<Kind>, kind: &Kind) -> Result<usize, AllocError>
    ensures { IfOk result (IsPlaced list.old.items list.new.items kind.now) }
{
    for i in 0..list.len() {
        let place = list.len() - 1 - i;
        if are_same(&list[place], kind) {
            return Ok(place);
        }
    }
    list.push(*kind)?;
    Ok(list.len() - 1)
}

// Whether two kinds are the same.
fn are_same(one: &Kind, other: &Kind) -> bool
    ensures { result ≡ true → AreSame one.now other.now }
{
    if one.last != other.last {
        return false;
    }
    for s in CALL_BEGIN..CALL_END {
        if one.told[s] != other.told[s] {
            return false;
        }
    }
    true
}

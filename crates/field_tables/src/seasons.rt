//! What the times of day cost all stations of a window together at the least. A walk begins in the same minute at each of them, so that
//! this is more than what each costs at its own best minute.
//!
//! By how much the stations' local times are ahead of UTC is the same throughout a winter and throughout a summer.

ghost use Rattle.std.specs.Prelude.{◌≡◌, ◌+◌, ◌%◌, ◌<◌, ◌≤◌, ℕ, [], All, IfOk, IfSome, OnOk, length, slice_index, vec_len};
ghost use Rattle.signal_base.specs.declared.limits.TheConstants.{MOST_SECONDS};
ghost use Rattle.definitions.specs.time.Calendar.{minutes_per_day};
ghost use Rattle.slot_columns.specs.declared.limits.TheConstants.{SECONDS_PER_MINUTE};
ghost use Rattle.slot_columns.specs.Layered.{AreAdded, AreGroups};
ghost use Rattle.walk_costs.specs.Dates.{minutes_to_call};
ghost use Rattle.field_tables.specs.Seasons.{IsRowOf, IsSeason, IsTimeRow, last_shift, piece_from, piece_to, times_together};

use crate::station::StationSums;
use definitions::{MINUTES_PER_DAY, MINUTES_PER_HOUR};
use minute_parts::{CALL_MINUTES, later_minutes};
use slot_columns::{SECONDS_PER_MINUTE, WalkRow};
use std::alloc::{AllocError, Global};
use walk_costs::{ByMinute, minutes_to_call};

/// By how much the stations' local times are ahead of UTC, and what the times of day cost all stations together then.
#[derive(Drop)]
pub struct Season {
    /// By how many minutes the local time that each station encodes is ahead of the sent minute in UTC.
    pub shifts: Vec<u16>,
    /// For each second in which a walk may begin and each piece of the UTC day what no walk of the piece costs less than, by how many
    /// minutes after its first one the last station sends its call sign.
    pub costs: Vec<ByMinute>,
}

/// Before these pieces of a day come its hours. Of the minutes from which walks go on to the next day each of these has none.
pub const DAY_HOURS: usize = 24;

/// The piece of the minutes from which walks go on to the next day.
pub const THE_LAST: usize = 24;

/// That of all other minutes.
pub const BUT_THE_LAST: usize = 25;

/// That of all minutes.
pub const WHOLE_DAY: usize = 26;

/// How many there are.
pub const PIECES: usize = 27;

// A minute of a winter and one of a summer: in January and in July of 2000.
const IN_WINTER: u32 = 20_000;

const IN_SUMMER: u32 = 280_000;

/// The seasons of the stations of a window of so many seconds. Of one station there are none: what it costs by itself tells more.
pub fn seasons_of(
    alloc: Global,
    stations: &[StationSums],
    seconds: u16,
) -> Result<Vec<Season>, AllocError>
    requires { seconds ≤ MOST_SECONDS }
    ensures { IfOk result (λ seasons. All (IsSeason stations.now seconds) seasons.items) }
{
    let mut seasons = Vec::new(alloc);
    if stations.len() <= 1 {
        return Ok(seasons);
    }
    add_season(alloc, &mut seasons, stations, seconds, IN_WINTER)?;
    add_season(alloc, &mut seasons, stations, seconds, IN_SUMMER)?;
    Ok(seasons)
}

// Adds that of a minute, if each station can encode it.
fn add_season(
    alloc: Global,
    seasons: &mut Vec<Season>,
    stations: &[StationSums],
    seconds: u16,
    minute: u32,
) -> Result<(), AllocError>
    requires seconds { seconds ≤ MOST_SECONDS }
    requires some { 0 < length stations.now }
    ensures { OnOk result (All (IsSeason stations.now seconds) seasons.old.items → All (IsSeason stations.now seconds) seasons.new.items) }
{
    let Some(shifts) = shifts_at(alloc, stations, minute)? else {
        return Ok(());
    };
    let costs = costs_of(alloc, stations, &shifts, seconds)?;
    seasons.push(Season { shifts, costs })?;
    Ok(())
}

// By how much the local times are ahead in a minute. None where a station can't encode it.
fn shifts_at(
    alloc: Global,
    stations: &[StationSums],
    minute: u32,
) -> Result<Option<Vec<u16>>, AllocError>
    ensures { IfOk result (λ shifts. IfSome shifts (λ shifts. vec_len shifts ≡ length stations.now)) }
{
    let mut shifts = Vec::with_capacity(alloc, stations.len())?;
    for i in 0..stations.len() {
        let parts = stations[i].walks().parts();
        if minute >= parts.end() {
            return Ok(None);
        }
        shifts.push(parts.run(parts.run_of(minute)).shift)?;
    }
    Ok(Some(shifts))
}

// For each second in which a walk may begin a row for each piece of the day.
fn costs_of(
    alloc: Global,
    stations: &[StationSums],
    shifts: &Vec<u16>,
    seconds: u16,
) -> Result<Vec<ByMinute>, AllocError>
    requires seconds { seconds ≤ MOST_SECONDS }
    requires shifts { vec_len shifts.now ≡ length stations.now }
    requires some { 0 < length stations.now }
    ensures { IfOk result (λ costs. AreGroups [] (IsTimeRow stations.now shifts.now.items seconds) PIECES costs.items SECONDS_PER_MINUTE) }
{
    let last = shifts[shifts.len() - 1];
    let mut costs = Vec::with_capacity(alloc, SECONDS_PER_MINUTE * PIECES)?;
    for p in 0..SECONDS_PER_MINUTE as u8 {
        let times = times_together(stations, shifts, p);
        add_rows(&mut costs, &times, last, later_minutes(seconds, p))?;
    }
    Ok(costs)
}

// What the times of day cost all stations in the walks from second `p` of each minute of the UTC day, or less where that is too much.
fn times_together(stations: &[StationSums], shifts: &Vec<u16>, p: u8) -> WalkRow
    requires second { p < SECONDS_PER_MINUTE }
    requires shifts { vec_len shifts.now ≡ length stations.now }
    ensures { (v : ℕ) → v < minutes_per_day → slice_index result v ≤ times_together stations.now shifts.now.items p v }
{
    let mut times = [0; MINUTES_PER_DAY as usize];
    for i in 0..stations.len() {
        add_times(&mut times, stations[i].walks().times(p), shifts[i]);
    }
    times
}

// Adds what they cost one station, whose local time is so far ahead.
fn add_times(times: &mut WalkRow, row: &WalkRow, shift: u16)
    ensures { (v : ℕ) → v < minutes_per_day
        → slice_index times.new v ≤ slice_index times.old v + slice_index row.now ((v + shift) % minutes_per_day) }
{
    for v in 0..MINUTES_PER_DAY {
        let more = row[((v + shift as u32) % MINUTES_PER_DAY) as usize];
        times[v as usize] = times[v as usize].saturating_add(more);
    }
}

// Adds a row for each piece of the day, where walks go on for so many minutes after their first.
fn add_rows(
    costs: &mut Vec<ByMinute>,
    times: &WalkRow,
    shift: u16,
    later: u32,
) -> Result<(), AllocError>
    requires { later ≤ 20 }
    ensures { OnOk result (AreAdded [] (IsRowOf times.now shift later) costs.old.items costs.new.items PIECES) }
{
    for piece in 0..PIECES {
        let row = row_of(
            times,
            shift,
            piece_from(later, piece),
            piece_to(later, piece),
        );
        costs.push(row)?;
    }
    Ok(())
}

// The least of the costs of some minutes of the day, by how many minutes later the call sign comes where the local time is so far
// ahead.
fn row_of(times: &WalkRow, shift: u16, from: u32, to: u32) -> ByMinute
    requires { to ≤ minutes_per_day }
    ensures { (v : ℕ) → from ≤ v → v < to → slice_index result (minutes_to_call ((v + shift) % minutes_per_day)) ≤ slice_index times.now v }
{
    let mut row = [u32::MAX; CALL_MINUTES];
    for v in from..to {
        let m = minutes_to_call(((v + shift as u32) % MINUTES_PER_DAY) as u16) as usize;
        row[m] = row[m].min(times[v as usize]);
    }
    row
}

// The first minute of a piece of the day.
fn piece_from(later: u32, piece: usize) -> u32
    requires later { later ≤ 20 }
    requires piece { piece < PIECES }
    ensures { result ≡ piece_from later piece }
{
    if piece < DAY_HOURS {
        return piece as u32 * MINUTES_PER_HOUR;
    }
    if piece == THE_LAST {
        MINUTES_PER_DAY - later
    } else {
        0
    }
}

// The minute behind its last.
fn piece_to(later: u32, piece: usize) -> u32
    requires later { later ≤ 20 }
    requires piece { piece < PIECES }
    ensures value { result ≡ piece_to later piece }
    ensures day { result ≤ minutes_per_day }
{
    let stay = MINUTES_PER_DAY - later;
    if piece < DAY_HOURS {
        return stay.min((piece as u32 + 1) * MINUTES_PER_HOUR);
    }
    if piece == BUT_THE_LAST {
        stay
    } else {
        MINUTES_PER_DAY
    }
}

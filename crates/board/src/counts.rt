//! By how many entries each query was answered, as far as what askers answered bears it.

ghost use Rattle.std.specs.Prelude.{◌≡◌, ◌≤◌, ◌<◌, ◌-◌, ◌⊎◌, IfErr, IfOk, IsTrue, length, map, slice_index};
ghost use Rattle.board_entries.specs.Plain.{plain};
ghost use Rattle.board_due.specs.BoardAnswers.{AreCounts};
ghost use Rattle.bank.specs.declared.stop.Stop.TheVariants.{NoMemory};

use crate::desk::Desk;
use bank::Stop;
use board_entries::Entry;
use civil::Civil;
use clock_board::{Reading, told_of};
use std::alloc::Global;

/// By how many entries each query was answered: by as many as its asker said, where that is what so many of these entries tell, and
/// else by all of them. For one of so many askers the numbers don't fall.
pub fn counts_of(
    alloc: Global,
    civil: &Civil,
    entries: &[Entry],
    queries: &[u64],
    desks: &[Desk],
    many: usize,
) -> Result<Vec<u64>, Stop>
    requires { 0 < many }
    ensures counts { IfOk result (λ counts. AreCounts many (map plain entries.now) queries.now counts.items) }
    ensures memory { IfErr result (λ stop. stop ≡ NoMemory) }
{
    let mut counts = Vec::with_capacity(alloc, queries.len())?;
    for n in 0..queries.len() {
        let said = count_said(civil, entries, queries[n], desks, n % many, n / many);
        let before = before(counts.as_slice(), many);
        counts.push(greater(said, before))?;
    }
    Ok(counts)
}

// The number of the asker's question before the one that comes behind these, or 0.
fn before(counts: &[u64], many: usize) -> u64
    requires { 0 < many }
    ensures none { length counts.now < many → result ≡ 0 }
    ensures before { many ≤ length counts.now → result ≡ slice_index counts.now (length counts.now - many) }
{
    if counts.len() < many {
        return 0;
    }
    counts[counts.len() - many]
}

// The greater of two numbers.
fn greater(a: u64, b: u64) -> u64
    ensures first { a ≤ result }
    ensures second { b ≤ result }
    ensures one { (result ≡ a) ⊎ (result ≡ b) }
{
    if a < b { b } else { a }
}

// By how many entries the question of this place at the desk of this number was answered.
fn count_said(
    civil: &Civil,
    entries: &[Entry],
    ms: u64,
    desks: &[Desk],
    number: usize,
    place: usize,
) -> u64
    ensures { result ≤ length entries.now }
{
    let all = entries.len() as u64;
    if number >= desks.len() {
        return all;
    }
    let desk = &desks[number];
    if !desk.fresh || place >= desk.readings.len() {
        return all;
    }
    let reading = desk.readings[place];
    if is_told(civil, entries, ms, &reading) {
        return reading.count as u64;
    }
    all
}

// Whether this is what the first so many entries tell.
fn is_told(civil: &Civil, entries: &[Entry], ms: u64, reading: &Reading) -> bool
    ensures { IsTrue result → reading.now.count ≤ length entries.now }
{
    let count = reading.count as usize;
    count <= entries.len() && told_of(civil, &entries[..count], ms) == reading.told
}

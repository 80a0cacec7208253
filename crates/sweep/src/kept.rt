//! What is kept of each offset that is swept, until its certificate is written.

ghost use Rattle.std.specs.Prelude.{ℕ, ◌≡◌, ◌≤◌, ◌++◌, All, IfErr, IfOk, List, codes, length, string_bytes};
ghost use Rattle.std.specs.Fmt.{decimal};
ghost use Rattle.signal_base.specs.declared.window.Window.{Window};
ghost use Rattle.definitions.specs.sequences.Windows.{IsWindow};
ghost use Rattle.field_tables.specs.Scopes.{scopes_of};
ghost use Rattle.due.specs.Banks.{Bank as PlainBank};
ghost use Rattle.sweep_due.specs.declared.offsets.TheConstants.{OFFSETS};
ghost use Rattle.sweep_due.specs.CertificateNames.{file_at};
ghost use Rattle.sweep_due.specs.Searches.{IsSearched};
ghost use Rattle.sweep_due.specs.Standings.{with_two};
ghost use Rattle.bank.specs.declared.stop.Stop.TheVariants.{NoMemory};
ghost use Rattle.bank.specs.Hearing.{IsBank, bank_seen};
ghost use Rattle.bank.specs.Tasks.{AreWorkers};
ghost use Rattle.sweep.specs.Keeping.{AreHeard, AreKept, IsHeardAt, IsKeptAt, offsets_kept};
ghost use Rattle.sweep.specs.Turns.{latest_of};

use crate::heard::Heard;
use crate::phase_gate::PhaseGate;
use crate::words::SweepCertify;
use bank::{Bank, Stop, decide_tables};
use certificates::Head;
use civil::Civil;
use field_tables::{StationParts, Tables, agreeing_costs_cost_alike, grids_agree_with_their_costs};
use signal_base::Window;
use std::alloc::{AllocError, Global};
use std::thread::Threads;
use sweep_due::{OFFSETS, Standing};
use workers::Gate;

/// An offset that is swept, its tables, and the head of its certificate.
#[derive(Drop)]
pub struct Kept<'a> {
    /// The offset, from 0 to 10.
    pub offset: u8,
    /// The name of the certificate's file.
    pub name: String,
    /// The tables of the window there.
    pub tables: Tables<'a>,
    /// That window, the ceiling of the bank, and the keys that were found under it.
    pub head: Head,
}

/// Searches at each offset that was heard, each under the ceiling of the bank, where the window is that of a decode. The parts are
/// made of its stations.
pub fn keep_phases<'a, R: Threads + Sync, G: Gate + PhaseGate + Sync>(
    rt: &R,
    alloc: Global,
    civil: &'a Civil,
    parts: &'a [StationParts],
    heard: &'a [Heard],
    bank: &Bank,
    window: &Window,
    certify: &SweepCertify,
    gate: &G,
) -> Result<Vec<Kept<'a>>, Stop>
    requires bank { IsBank bank.now }
    requires window { IsWindow window.now }
    requires parts { parts.now ≡ scopes_of window.now.stations window.now.seconds }
    requires heard { AreHeard window.now (bank_seen bank.now) OFFSETS heard.now }
    requires workers { AreWorkers certify.now.task.workers }
    ensures kept { IfOk result (λ kept. AreKept window.now (bank_seen bank.now) certify.now.name.now kept.items) }
    ensures memory { IfErr result (λ stop. stop ≡ NoMemory) }
{
    let phases = as_number(heard.len());
    let mut kept = Vec::new(alloc);
    for i in 0..heard.len() {
        gate.come_to_phase(as_number(i + 1), phases);
        let one = keep_phase(
            rt, alloc, civil, parts, &heard[i], bank, window, certify, gate,
        )?;
        kept.push(one)?;
    }
    Ok(kept)
}

// Searches at an offset.
fn keep_phase<'a, R: Threads + Sync, G: Gate + Sync>(
    rt: &R,
    alloc: Global,
    civil: &'a Civil,
    parts: &'a [StationParts],
    heard: &'a Heard,
    bank: &Bank,
    window: &Window,
    certify: &SweepCertify,
    gate: &G,
) -> Result<Kept<'a>, Stop>
    requires bank { IsBank bank.now }
    requires parts { parts.now ≡ scopes_of window.now.stations window.now.seconds }
    requires heard { IsHeardAt window.now (bank_seen bank.now) heard.now }
    requires workers { AreWorkers certify.now.task.workers }
    ensures offset { IfOk result (λ kept. kept.offset ≡ heard.now.offset) }
    ensures kept { IfOk result (IsKeptAt window.now (bank_seen bank.now) certify.now.name.now) }
    ensures memory { IfErr result (λ stop. stop ≡ NoMemory) }
{
    // Those of all phases are kept until the certificates are written, so they are the small ones.
    let tables = Tables::make(alloc, parts, heard.grids.as_slice(), civil, &heard.window)?;
    let found = decide_tables(
        rt,
        alloc,
        civil,
        &tables,
        &heard.window,
        bank.ceiling,
        certify.task.workers,
        gate,
    )?;
    let name = file_at(alloc, certify.name, heard.offset)?;
    Ok(Kept {
        offset: heard.offset,
        name,
        tables,
        head: Head {
            window: heard.window,
            ceiling: bank.ceiling,
            first: found.first,
            second: found.second,
        },
    })
}

// The name of the file for the certificate of an offset.
fn file_at(alloc: Global, name: &str, offset: u8) -> Result<String, AllocError>
    ensures { IfOk result (λ file. string_bytes file ≡ file_at name.now offset) }
{
    format!(in alloc; "{name}.{offset}")
}

// A count of offsets.
fn as_number(count: usize) -> u8
    ensures { result ≤ OFFSETS }
{
    count.min(OFFSETS as usize) as u8
}

/// What stands after the searches of what is kept.
pub fn standing_of(kept: &[Kept]) -> Standing
    ensures searched { (window : Window) (bank : PlainBank) (name : List ℕ) → All (IsKeptAt window bank name) kept.now
        → IsSearched window bank (latest_of (offsets_kept kept.now) (length kept.now)) result }
{
    agreeing_costs_cost_alike();
    grids_agree_with_their_costs();
    let mut standing = Standing::new();
    for i in 0..kept.len() {
        standing = with_kept(standing, &kept[i]);
    }
    standing
}

// The same with one search more.
fn with_kept(standing: Standing, kept: &Kept) -> Standing
    ensures { result ≡ with_two standing kept.now.offset kept.now.head.first kept.now.head.second }
{
    standing.with_two(kept.offset, kept.head.first, kept.head.second)
}

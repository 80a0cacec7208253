//! A sweep that writes certificates.

ghost use Rattle.std.specs.Prelude.{◌≡◌, ◌≢◌, All, OnErr, OnOk, Some, string_bytes};
ghost use Rattle.definitions.specs.answers.Blocks.{items};
ghost use Rattle.definitions.specs.sequences.Windows.{IsWindow};
ghost use Rattle.field_tables.specs.Scopes.{scopes_of};
ghost use Rattle.due.specs.Banks.{window_of};
ghost use Rattle.bank_files.specs.Seen.{OnlyWrites};
ghost use Rattle.bank_files.specs.Told.{output_name};
ghost use Rattle.bank.specs.Ending.{OnlyWritesAmong};
ghost use Rattle.bank.specs.Finding.{CanBeWritten};
ghost use Rattle.bank.specs.Hearing.{IsBank, bank_seen};
ghost use Rattle.bank.specs.Tasks.{AreWorkers};
ghost use Rattle.sweep_due.specs.declared.offsets.TheConstants.{OFFSETS};
ghost use Rattle.sweep_due.specs.SweepOwed.{files_of};
ghost use Rattle.sweep.specs.Certifying.{AreApart, Certifies, DeliversKept, IsOneCutOff, IsOneWritten, IsReady, files_kept};
ghost use Rattle.sweep.specs.Keeping.{AreHeard};
ghost use Rattle.sweep.specs.Tasks.{IsCertifyInRange};

use crate::find::report_of;
use crate::heard::{Heard, hear_phases};
use crate::kept::{Kept, keep_phases, standing_of};
use crate::phase_gate::PhaseGate;
use crate::words::SweepCertify;
use bank::{Bank, CertificateGate, Stop, print, window_of};
use bank_files::{Failed, Files};
use bounds::{Block, items};
use certificate_walks::write_certificate;
use certificates::tight_walks_are_one;
use civil::Civil;
use due::{Due, Status};
use field_tables::{
    StationParts, agreeing_costs_cost_alike, grids_agree_with_their_costs, parts_of,
};
use signal_base::Window;
use std::alloc::Global;
use std::thread::Threads;
use workers::Gate;

/// Sweeps what a bank heard in the window that is asked about, writes the certificate of each offset that is swept anew to its file,
/// in the order of the offsets, and then the report to standard output. All memory is taken before the first file is made.
pub fn sweep_certified<R: Threads + Sync, F: Files, G: Gate + PhaseGate + CertificateGate + Sync>(
    rt: &R,
    alloc: Global,
    civil: &Civil,
    bank: &Bank,
    certify: &SweepCertify,
    files: &mut F,
    gate: &G,
) -> Result<Status, Stop>
    requires bank { IsBank bank.now }
    requires certify { IsCertifyInRange certify.now }
    ensures ends { Certifies (window_of certify.now.task.asked (bank_seen bank.now).receivers) (bank_seen bank.now) certify.now.task.workers certify.now.name.now
        (F.view files.old) (F.view files.new) result }
    ensures only { OnlyWritesAmong (files_of (Some certify.now.name.now)) (F.view files.old) (F.view files.new) }
{
    let window = window_of(bank, &certify.task.asked);
    let list = items(alloc, civil, &window)?;
    let parts = parts_of(alloc, civil, &window)?;
    let heard = hear_phases(alloc, bank, &window)?;
    certify_phases(
        rt,
        alloc,
        civil,
        &parts,
        heard.as_slice(),
        bank,
        &window,
        list.as_slice(),
        certify,
        files,
        gate,
    )
}

// The same of what was heard at each offset that is swept.
fn certify_phases<R: Threads + Sync, F: Files, G: Gate + PhaseGate + CertificateGate + Sync>(
    rt: &R,
    alloc: Global,
    civil: &Civil,
    parts: &[StationParts],
    heard: &[Heard],
    bank: &Bank,
    window: &Window,
    list: &[Block],
    certify: &SweepCertify,
    files: &mut F,
    gate: &G,
) -> Result<Status, Stop>
    requires bank { IsBank bank.now }
    requires window { IsWindow window.now }
    requires parts { parts.now ≡ scopes_of window.now.stations window.now.seconds }
    requires heard { AreHeard window.now (bank_seen bank.now) OFFSETS heard.now }
    requires items { list.now ≡ items window.now }
    requires certify { IsCertifyInRange certify.now }
    ensures ends { Certifies window.now (bank_seen bank.now) certify.now.task.workers certify.now.name.now (F.view files.old) (F.view files.new) result }
    ensures only { OnlyWritesAmong (files_of (Some certify.now.name.now)) (F.view files.old) (F.view files.new) }
{
    agreeing_costs_cost_alike();
    grids_agree_with_their_costs();
    let kept = keep_phases(rt, alloc, civil, parts, heard, bank, window, certify, gate)?;
    let standing = standing_of(kept.as_slice());
    let due = report_of(alloc, civil, bank, window, standing)?;
    deliver_kept(
        files,
        civil,
        kept.as_slice(),
        list,
        certify.task.workers,
        &due,
        gate,
    )?;
    Ok(due.status())
}

// Writes the certificate of all that is kept, one after the other, and then what is told to standard output. No memory is taken.
fn deliver_kept<F: Files, G: CertificateGate>(
    files: &mut F,
    civil: &Civil,
    kept: &[Kept],
    list: &[Block],
    workers: u8,
    due: &Due,
    gate: &G,
) -> Result<(), Failed>
    requires ready { All (IsReady list.now) kept.now }
    requires apart { AreApart kept.now }
    requires workers { AreWorkers workers }
    requires due { CanBeWritten due.now }
    ensures ends { DeliversKept kept.now workers due.now (F.view files.old) (F.view files.new) result }
    ensures only { OnlyWritesAmong (files_kept kept.now) (F.view files.old) (F.view files.new) }
{
    tight_walks_are_one();
    let mut i = 0;
    while i < kept.len() {
        write_kept(files, &kept[i], list, workers, gate)?;
        i += 1;
    }
    print(files, civil, due)
}

// Writes the certificate of an offset anew to its file.
fn write_kept<F: Files, G: CertificateGate>(
    files: &mut F,
    kept: &Kept,
    list: &[Block],
    workers: u8,
    gate: &G,
) -> Result<(), Failed>
    requires ready { IsReady list.now kept.now }
    requires name { string_bytes kept.now.name ≢ output_name }
    requires workers { AreWorkers workers }
    ensures written { OnOk result (IsOneWritten kept.now workers (F.view files.old) (F.view files.new)) }
    ensures failed { OnErr result (IsOneCutOff kept.now workers (F.view files.old) (F.view files.new)) }
    ensures only { OnlyWrites (string_bytes kept.now.name) (F.view files.old) (F.view files.new) }
{
    let steps = write_certificate(
        files,
        kept.name.as_str(),
        &kept.tables,
        list,
        &kept.head,
        workers,
    )?;
    gate.wrote(steps);
    Ok(())
}

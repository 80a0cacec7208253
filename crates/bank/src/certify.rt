//! A decode that writes a certificate.

ghost use Rattle.std.specs.Prelude.{◌≡◌, ◌≤◌, Some};
ghost use Rattle.signal_base.specs.declared.limits.TheConstants.{GREATEST_COST};
ghost use Rattle.definitions.specs.answers.Blocks.{items};
ghost use Rattle.definitions.specs.sequences.Windows.{IsWindow};
ghost use Rattle.field_tables.specs.Grids.{AreGrids, HaveCosts};
ghost use Rattle.field_tables.specs.Scopes.{scopes_of};
ghost use Rattle.field_tables.specs.Scored.{costs_of};
ghost use Rattle.due.specs.Banks.{Bank as PlainBank, costs_in, window_of};
ghost use Rattle.due.specs.Owed.{files_of};
ghost use Rattle.bank.specs.Certifying.{Certifies, DeliversCertified};
ghost use Rattle.bank.specs.Ending.{OnlyWritesAmong};
ghost use Rattle.bank.specs.Finding.{CanBeWritten};
ghost use Rattle.bank.specs.Hearing.{IsBank, bank_seen};
ghost use Rattle.bank.specs.Tasks.{IsCertifyInRange};

use crate::certificate_gate::CertificateGate;
use crate::decoding::decoded_by;
use crate::deliver::print;
use crate::find::reported;
use crate::first_two::decide_tables;
use crate::grids::grids_of;
use crate::hearing::{Bank, window_of};
use crate::stop::Stop;
use crate::words::{Certify, Wanted};
use bank_files::{Failed, Files};
use bounds::{Block, items};
use certificate_walks::write_certificate;
use certificates::{Head, tight_walks_are_one};
use civil::Civil;
use due::{Due, Status};
use field_tables::{
    StationParts, Tables, agreeing_costs_cost_alike, grids_agree_with_their_costs, parts_of,
};
use signal_base::Window;
use std::alloc::Global;
use std::thread::Threads;
use symbol_cost::CostGrid;
use workers::Gate;

/// Decodes what a bank heard in the window that is asked about, writes the certificate anew to its file, and then the report to
/// standard output. All memory is taken before the file is made.
pub fn decode_certified<R: Threads + Sync, F: Files, G: Gate + CertificateGate + Sync>(
    rt: &R,
    alloc: Global,
    civil: &Civil,
    bank: &Bank,
    certify: &Certify,
    files: &mut F,
    gate: &G,
) -> Result<Status, Stop>
    requires bank { IsBank bank.now }
    requires certify { IsCertifyInRange certify.now }
    ensures ends { Certifies (window_of certify.now.asked (bank_seen bank.now).receivers) (bank_seen bank.now) certify.now.workers certify.now.name.now
        (F.view files.old) (F.view files.new) result }
    ensures only { OnlyWritesAmong (files_of (Some certify.now.name.now)) (F.view files.old) (F.view files.new) }
{
    let window = window_of(bank, &certify.asked);
    let grids = grids_of(alloc, bank, &window)?;
    certify_window(
        rt,
        alloc,
        civil,
        grids.as_slice(),
        &window,
        bank.ceiling,
        certify,
        files,
        gate,
    )
}

// The same of what the grids of a window's stations say.
fn certify_window<R: Threads + Sync, F: Files, G: Gate + CertificateGate + Sync>(
    rt: &R,
    alloc: Global,
    civil: &Civil,
    grids: &[CostGrid],
    window: &Window,
    ceiling: u32,
    certify: &Certify,
    files: &mut F,
    gate: &G,
) -> Result<Status, Stop>
    requires window { IsWindow window.now }
    requires grids { AreGrids window.now grids.now }
    requires ceiling { ceiling ≤ GREATEST_COST }
    requires certify { IsCertifyInRange certify.now }
    ensures ends { (bank : PlainBank) → ceiling ≡ bank.ceiling → HaveCosts window.now grids.now (costs_in window.now bank)
        → Certifies window.now bank certify.now.workers certify.now.name.now (F.view files.old) (F.view files.new) result }
    ensures only { OnlyWritesAmong (files_of (Some certify.now.name.now)) (F.view files.old) (F.view files.new) }
{
    let list = items(alloc, civil, window)?;
    let parts = parts_of(alloc, civil, window)?;
    certify_parts(
        rt, alloc, civil, grids, &parts, &list, window, ceiling, certify, files, gate,
    )
}

// The same by the parts that were made of the window's stations, and the items of the window.
fn certify_parts<R: Threads + Sync, F: Files, G: Gate + CertificateGate + Sync>(
    rt: &R,
    alloc: Global,
    civil: &Civil,
    grids: &[CostGrid],
    parts: &[StationParts],
    list: &[Block],
    window: &Window,
    ceiling: u32,
    certify: &Certify,
    files: &mut F,
    gate: &G,
) -> Result<Status, Stop>
    requires window { IsWindow window.now }
    requires grids { AreGrids window.now grids.now }
    requires parts { parts.now ≡ scopes_of window.now.stations window.now.seconds }
    requires items { list.now ≡ items window.now }
    requires ceiling { ceiling ≤ GREATEST_COST }
    requires certify { IsCertifyInRange certify.now }
    ensures ends { (bank : PlainBank) → ceiling ≡ bank.ceiling → HaveCosts window.now grids.now (costs_in window.now bank)
        → Certifies window.now bank certify.now.workers certify.now.name.now (F.view files.old) (F.view files.new) result }
    ensures only { OnlyWritesAmong (files_of (Some certify.now.name.now)) (F.view files.old) (F.view files.new) }
{
    let tables = Tables::make_with_days(alloc, parts, grids, civil, window)?;
    certify_tables(
        rt, alloc, civil, grids, &tables, list, window, ceiling, certify, files, gate,
    )
}

// The same by the tables of the grids.
fn certify_tables<R: Threads + Sync, F: Files, G: Gate + CertificateGate + Sync>(
    rt: &R,
    alloc: Global,
    civil: &Civil,
    grids: &[CostGrid],
    tables: &Tables,
    list: &[Block],
    window: &Window,
    ceiling: u32,
    certify: &Certify,
    files: &mut F,
    gate: &G,
) -> Result<Status, Stop>
    requires window { IsWindow window.now }
    requires grids { AreGrids window.now grids.now }
    requires same { tables.now.window ≡ window.now }
    requires told { tables.now.grids ≡ grids.now }
    requires items { list.now ≡ items window.now }
    requires ceiling { ceiling ≤ GREATEST_COST }
    requires certify { IsCertifyInRange certify.now }
    ensures ends { (bank : PlainBank) → ceiling ≡ bank.ceiling → HaveCosts window.now grids.now (costs_in window.now bank)
        → Certifies window.now bank certify.now.workers certify.now.name.now (F.view files.old) (F.view files.new) result }
    ensures only { OnlyWritesAmong (files_of (Some certify.now.name.now)) (F.view files.old) (F.view files.new) }
{
    agreeing_costs_cost_alike();
    grids_agree_with_their_costs();
    let found = decide_tables(
        rt,
        alloc,
        civil,
        tables,
        window,
        ceiling,
        certify.workers,
        gate,
    )?;
    let head = Head {
        window: *window,
        ceiling,
        first: found.first,
        second: found.second,
    };
    let decoded = decoded_by(civil, grids, *window, ceiling, found);
    let due = reported(Wanted::Report, decoded);
    deliver_certified(files, civil, certify, tables, list, &head, &due, gate)?;
    Ok(due.status())
}

// Writes the certificate anew to its file, and then what is told to standard output. No memory is taken.
fn deliver_certified<F: Files, G: CertificateGate>(
    files: &mut F,
    civil: &Civil,
    certify: &Certify,
    tables: &Tables,
    list: &[Block],
    head: &Head,
    due: &Due,
    gate: &G,
) -> Result<(), Failed>
    requires certify { IsCertifyInRange certify.now }
    requires window { head.now.window ≡ tables.now.window }
    requires ceiling { head.now.ceiling ≤ GREATEST_COST }
    requires items { list.now ≡ items head.now.window }
    requires due { CanBeWritten due.now }
    ensures ends { DeliversCertified (costs_of tables.now) head.now certify.now.workers certify.now.name.now due.now (F.view files.old) (F.view files.new) result }
    ensures only { OnlyWritesAmong (files_of (Some certify.now.name.now)) (F.view files.old) (F.view files.new) }
{
    tight_walks_are_one();
    let steps = write_certificate(files, certify.name, tables, list, head, certify.workers)?;
    gate.wrote(steps);
    print(files, civil, due)
}

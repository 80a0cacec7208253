//! The judgement of a sweep's certificates, one after the other in the order of their offsets.

ghost use Rattle.std.specs.Prelude.{◌≡◌, ◌≢◌, ◌+◌, ◌<◌, Err, IfOk, IsErrOf, true};
ghost use Rattle.bank_files.specs.Seen.{OnlyReads, ReadFails, SameCounts};
ghost use Rattle.definitions.specs.sequences.Windows.{IsWindow};
ghost use Rattle.field_tables.specs.Scopes.{scopes_of};
ghost use Rattle.sweep_due.specs.declared.offsets.TheConstants.{OFFSETS};
ghost use Rattle.sweep_due.specs.CertificateNames.{file_at};
ghost use Rattle.sweep_due.specs.Phases.{is_swept};
ghost use Rattle.bank.specs.Hearing.{IsBank, bank_seen};
ghost use Rattle.judges.specs.Judging.{AreNamed, FailsAt, FailsJudging, IsJudgedBelow, IsJudgedSo, judged_with, swept_below};

use crate::judging::{Found, judge_at};
use bank::{Bank, Stop};
use bank_files::Files;
use civil::Civil;
use due::CertificateFault;
use field_tables::{StationParts, parts_of};
use signal_base::Window;
use std::alloc::Global;
use sweep_due::{OFFSETS, Standing, is_swept};

/// What came of certificates.
#[derive(Clone, Copy)]
pub enum Judged {
    /// All are valid, and what they name was put together.
    Good {
        /// What they name.
        standing: Standing,
    },
    /// One isn't valid, and all before it are.
    Bad {
        /// Its offset.
        offset: u8,
        /// What is wrong with it.
        fault: CertificateFault,
    },
}

/// Judges the certificates of all offsets that are swept, where the window is that of a decode, up to the first bad one. Each is read and
/// judged before the next is read. What depends on the window's stations and its length alone is made once.
pub fn judge_offsets<F: Files>(
    alloc: Global,
    civil: &Civil,
    bank: &Bank,
    window: &Window,
    files: &mut F,
    name: &str,
) -> Result<Judged, Stop>
    requires bank { IsBank bank.now }
    requires window { IsWindow window.now }
    ensures judged { IfOk result (IsJudgedSo (F.view files.old) name.now window.now (bank_seen bank.now)) }
    ensures failed { IsErrOf result Stop.Failed → FailsJudging (F.view files.old) (F.view files.new) name.now window.now (bank_seen bank.now) }
    ensures same_counts { result ≢ Err Stop.Failed → SameCounts (F.view files.old) (F.view files.new) }
    ensures only { OnlyReads (F.view files.old) (F.view files.new) }
{
    let parts = parts_of(alloc, civil, window)?;
    let mut standing = Standing::new();
    for offset in 0..OFFSETS {
        let judged = come_to(
            alloc, civil, &parts, bank, window, offset, standing, files, name,
        )?;
        let Judged::Good { standing: after } = judged else {
            return Ok(judged);
        };
        standing = after;
    }
    Ok(Judged::Good { standing })
}

// Judges the certificate of an offset, if it is swept.
fn come_to<F: Files>(
    alloc: Global,
    civil: &Civil,
    parts: &[StationParts],
    bank: &Bank,
    window: &Window,
    offset: u8,
    before: Standing,
    files: &mut F,
    name: &str,
) -> Result<Judged, Stop>
    requires parts { parts.now ≡ scopes_of window.now.stations window.now.seconds }
    requires bank { IsBank bank.now }
    requires window { IsWindow window.now }
    requires offset { offset < OFFSETS }
    ensures judged { IfOk result (λ judged. AreNamed (F.view files.old) name.now window.now (bank_seen bank.now) (swept_below window.now.phase offset) before
        → IsJudgedBelow (F.view files.old) name.now window.now (bank_seen bank.now) (offset + 1) judged) }
    ensures failed { IsErrOf result Stop.Failed → FailsAt (F.view files.old) (F.view files.new) name.now window.now offset }
    ensures same_counts { result ≢ Err Stop.Failed → SameCounts (F.view files.old) (F.view files.new) }
    ensures only { OnlyReads (F.view files.old) (F.view files.new) }
{
    if is_swept(window.phase, offset) {
        return keep_at(
            alloc, civil, parts, bank, window, offset, before, files, name,
        );
    }
    Ok(Judged::Good { standing: before })
}

// Judges the certificate of an offset that is swept.
fn keep_at<F: Files>(
    alloc: Global,
    civil: &Civil,
    parts: &[StationParts],
    bank: &Bank,
    window: &Window,
    offset: u8,
    before: Standing,
    files: &mut F,
    name: &str,
) -> Result<Judged, Stop>
    requires parts { parts.now ≡ scopes_of window.now.stations window.now.seconds }
    requires bank { IsBank bank.now }
    requires window { IsWindow window.now }
    requires offset { offset < OFFSETS }
    requires swept { is_swept window.now.phase offset ≡ true }
    ensures judged { IfOk result (λ judged. AreNamed (F.view files.old) name.now window.now (bank_seen bank.now) (swept_below window.now.phase offset) before
        → IsJudgedBelow (F.view files.old) name.now window.now (bank_seen bank.now) (offset + 1) judged) }
    ensures failed { IsErrOf result Stop.Failed → ReadFails (file_at name.now offset) (F.view files.old) (F.view files.new) }
    ensures same_counts { result ≢ Err Stop.Failed → SameCounts (F.view files.old) (F.view files.new) }
    ensures only { OnlyReads (F.view files.old) (F.view files.new) }
{
    let found = judge_at(alloc, civil, parts, bank, window, offset, files, name)?;
    Ok(judged_with(before, offset, found))
}

// What came of the certificates, once this is found of that of an offset.
fn judged_with(before: Standing, offset: u8, found: Found) -> Judged
    ensures { result ≡ judged_with before offset found }
{
    match found {
        Found::Good { first, second } => Judged::Good {
            standing: before.with_two(offset, first, second),
        },
        Found::Bad { fault } => Judged::Bad { offset, fault },
    }
}

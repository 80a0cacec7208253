//! The judgement of one certificate of a sweep.

ghost use Rattle.std.specs.Prelude.{◌≡◌, ◌≢◌, ◌<◌, Err, IfOk, IsErrOf, true};
ghost use Rattle.bank_files.specs.Seen.{OnlyReads, ReadFails, SameCounts};
ghost use Rattle.definitions.specs.sequences.Windows.{IsWindow};
ghost use Rattle.field_tables.specs.Scopes.{scopes_of};
ghost use Rattle.sweep_due.specs.declared.offsets.TheConstants.{OFFSETS};
ghost use Rattle.sweep_due.specs.CertificateNames.{file_at};
ghost use Rattle.sweep_due.specs.Phases.{is_swept};
ghost use Rattle.bank.specs.Hearing.{IsBank, bank_seen};
ghost use Rattle.judges.specs.Judging.{IsFoundAt, IsFoundOf};

use crate::file_name::file_at;
use bank::{Bank, Stop, grids_of};
use bank_files::Files;
use certificate_judge::{Outcome, bytes_have_one_outcome};
use checks::{judge_window, line_fault, verdict_fault};
use civil::Civil;
use due::CertificateFault;
use field_tables::{StationParts, grids_agree_with_their_costs};
use signal_base::Window;
use std::alloc::Global;
use sweep::window_at;

/// What is found of bytes that are to be a certificate.
#[derive(Clone, Copy)]
pub enum Found {
    /// They are a valid one, which names these keys.
    Good {
        /// The first key, if any.
        first: Option<u64>,
        /// The second.
        second: Option<u64>,
    },
    /// They aren't.
    Bad {
        /// What is wrong with them.
        fault: CertificateFault,
    },
}

/// Judges the file of an offset that is swept, as a certificate of the window there, where `window` is that of a decode. All memory
/// is taken before the file is read.
pub fn judge_at<F: Files>(
    alloc: Global,
    civil: &Civil,
    parts: &[StationParts],
    bank: &Bank,
    window: &Window,
    offset: u8,
    files: &mut F,
    name: &str,
) -> Result<Found, Stop>
    requires parts { parts.now ≡ scopes_of window.now.stations window.now.seconds }
    requires bank { IsBank bank.now }
    requires window { IsWindow window.now }
    requires offset { offset < OFFSETS }
    requires swept { is_swept window.now.phase offset ≡ true }
    ensures found { IfOk result (IsFoundAt (F.view files.old) name.now window.now (bank_seen bank.now) offset) }
    ensures failed { IsErrOf result Stop.Failed → ReadFails (file_at name.now offset) (F.view files.old) (F.view files.new) }
    ensures same_counts { result ≢ Err Stop.Failed → SameCounts (F.view files.old) (F.view files.new) }
    ensures only { OnlyReads (F.view files.old) (F.view files.new) }
{
    bytes_have_one_outcome();
    grids_agree_with_their_costs();
    let moved = window_at(window, offset);
    let grids = grids_of(alloc, bank, &moved)?;
    let file = file_at(alloc, name, offset)?;
    let outcome = judge_window(
        alloc,
        civil,
        parts,
        grids.as_slice(),
        &moved,
        bank.ceiling,
        files,
        file.as_str(),
    )?;
    Ok(found_of(outcome))
}

// What is found of bytes of which this came.
fn found_of(outcome: Outcome) -> Found
    ensures { IsFoundOf outcome result }
{
    match outcome {
        Outcome::TooLarge => Found::Bad {
            fault: CertificateFault::TooLarge,
        },
        Outcome::Refused { line, fault } => Found::Bad {
            fault: line_fault(line, fault),
        },
        Outcome::Judged {
            verdict,
            first,
            second,
        } => match verdict_fault(verdict) {
            Some(fault) => Found::Bad { fault },
            None => Found::Good { first, second },
        },
    }
}

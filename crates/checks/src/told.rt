//! What is told of a certificate, by what came of its bytes.

ghost use Rattle.std.specs.Prelude.{ℕ, ◌≡◌, List, option_map};
ghost use Rattle.definitions.specs.sequences.Windows.{IsWindow};
ghost use Rattle.field_tables.specs.Grids.{AreGrids, HaveCosts, grid_costs};
ghost use Rattle.certificates.specs.Judged.{IsGoodCertificate, line_fault, verdict_fault};
ghost use Rattle.certificate_judge.specs.Outcomes.{IsOutcome};
ghost use Rattle.due.specs.Banks.{Bank as PlainBank, costs_in};
ghost use Rattle.due.specs.CertificateRules.{IsChecked};
ghost use Rattle.due.specs.CheckDues.{fault_of};
ghost use Rattle.checks.specs.Writable.{CanBeTold};

use bank::duts_of;
use certificate_judge::{Outcome, bytes_have_one_outcome};
use certificates::{CertificateLineFault, Verdict, valid_certificates_name_the_first_two};
use civil::Civil;
use due::{CertificateFault, CheckDue};
use field_tables::grids_agree_with_their_costs;
use sequence::answer_of;
use signal_base::Window;
use symbol_cost::CostGrid;

/// What is told of bytes of which this came, by the grids of a window's stations: their fault, or the report of the answer that they
/// name.
pub fn told_of(
    civil: &Civil,
    grids: &[CostGrid],
    window: &Window,
    ceiling: u32,
    outcome: Outcome,
) -> CheckDue
    requires window { IsWindow window.now }
    requires grids { AreGrids window.now grids.now }
    requires outcome { (bytes : List ℕ) × IsOutcome (grid_costs grids.now) window.now ceiling bytes outcome }
    ensures checked { (bank : PlainBank) (bytes : List ℕ) → ceiling ≡ bank.ceiling → HaveCosts window.now grids.now (costs_in window.now bank)
        → IsOutcome (grid_costs grids.now) window.now ceiling bytes outcome → IsChecked window.now bank bytes result }
    ensures can_be_told { CanBeTold result }
{
    bytes_have_one_outcome();
    grids_agree_with_their_costs();
    match outcome {
        Outcome::TooLarge => CheckDue::NotCertified {
            fault: CertificateFault::TooLarge,
        },
        Outcome::Refused { line, fault } => CheckDue::NotCertified {
            fault: line_fault(line, fault),
        },
        Outcome::Judged {
            verdict,
            first,
            second,
        } => match verdict_fault(verdict) {
            Some(fault) => CheckDue::NotCertified { fault },
            None => certified(civil, grids, window, ceiling, first, second),
        },
    }
}

/// The fault of a bad line.
pub fn line_fault(line: u32, fault: CertificateLineFault) -> CertificateFault
    ensures { fault_of result ≡ line_fault line fault }
{
    match fault {
        CertificateLineFault::Shape => CertificateFault::BadLine { line },
        CertificateLineFault::TooManySteps => CertificateFault::TooManySteps { line },
    }
}

/// The fault that a verdict tells, if any.
pub fn verdict_fault(verdict: Verdict) -> Option<CertificateFault>
    ensures { option_map fault_of result ≡ verdict_fault verdict }
{
    match verdict {
        Verdict::Certified => None,
        Verdict::OtherWindow => Some(CertificateFault::OtherWindow),
        Verdict::Uncovered { step } => Some(CertificateFault::Uncovered { step }),
        Verdict::WrongBound { step } => Some(CertificateFault::WrongBound { step }),
        Verdict::NotAbove { step } => Some(CertificateFault::NotAbove { step }),
        Verdict::WrongEnds { key } => Some(CertificateFault::WrongEnds { key }),
    }
}

// The report of the answer that a valid certificate names.
fn certified(
    civil: &Civil,
    grids: &[CostGrid],
    window: &Window,
    ceiling: u32,
    first: Option<u64>,
    second: Option<u64>,
) -> CheckDue
    requires window { IsWindow window.now }
    requires grids { AreGrids window.now grids.now }
    requires good { (bytes : List ℕ) × IsGoodCertificate (grid_costs grids.now) window.now ceiling bytes first second }
    ensures checked { (bank : PlainBank) (bytes : List ℕ) → ceiling ≡ bank.ceiling → HaveCosts window.now grids.now (costs_in window.now bank)
        → IsGoodCertificate (grid_costs grids.now) window.now ceiling bytes first second → IsChecked window.now bank bytes result }
    ensures can_be_told { CanBeTold result }
{
    valid_certificates_name_the_first_two();
    grids_agree_with_their_costs();
    let _ = ceiling;
    let answer = answer_of(first, second);
    let duts = duts_of(civil, grids, window, &answer);
    CheckDue::Certified {
        window: *window,
        answer,
        duts,
    }
}

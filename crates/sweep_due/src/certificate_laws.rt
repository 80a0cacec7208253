//! What follows from the rules of a sweep's certificates: each is valid, and together they decide the swept answer.

ghost use Rattle.std.specs.Prelude.{ℕ, ◌≡◌, ◌<◌, ◌≤◌, List, length};
ghost use Rattle.signal_base.specs.declared.window.Window.{Window};
ghost use Rattle.definitions.specs.heard.Logs.{Records};
ghost use Rattle.definitions.specs.time.Calendar.{century_minutes};
ghost use Rattle.bank_config.specs.Configuration.{PlainConfig};
ghost use Rattle.certificates.specs.declared.limits.TheConstants.{MOST_STEPS};
ghost use Rattle.certificates.specs.Certificates.{Certificate, lines_of};
ghost use Rattle.certificates.specs.Judged.{IsGoodCertificate};
ghost use Rattle.certificates.specs.Texts.{certificate_text};
ghost use Rattle.certificates.specs.Validity.{IsValid};
ghost use Rattle.due.specs.Banks.{Bank, bank_of, costs_in, window_of};
ghost use Rattle.due.specs.CertificateRules.{parts_for};
ghost use Rattle.due.specs.Inputs.{Contents};
ghost use Rattle.due.specs.Loads.{IsBankLoaded};
ghost use Rattle.sweep_due.specs.declared.offsets.TheConstants.{PHASE_LIMIT};
ghost use Rattle.sweep_due.specs.Phases.{swept_offsets, window_at};
ghost use Rattle.sweep_due.specs.Standings.{answer_told, nothing_yet, window_told};
ghost use Rattle.sweep_due.specs.Swept.{IsSweptAnswer, IsToldWindow};
ghost use Rattle.sweep_due.specs.SweepCertificates.{AreCertificates, AsksCertificates, CertificatesOrder, EachAt, standing_named};

use block_visits::blocks_share_the_sequences;

/// Each certificate that a sweep owes is valid for the window at its offset, under the ceiling of the bank, however long it is, and all
/// its lines stand in the first of as many parts as workers. The text of one with at most 2,000,000 steps is accepted there.
pub fn certificates_of_a_sweep_are_valid()
    ensures valid { (words : List (List ℕ)) (contents : Contents) (o : CertificatesOrder) (config : PlainConfig) (records : List Records) (cs : List Certificate)
        → AsksCertificates words o → IsBankLoaded contents config records
        → let bank = bank_of config records in let window = window_of o.asked bank.receivers in AreCertificates window bank o.workers (swept_offsets window.phase) cs
        → EachAt (λ i c. IsValid (costs_in (window_at window i) bank) (window_at window i) bank.ceiling c) (swept_offsets window.phase) cs }
    ensures parts { (words : List (List ℕ)) (contents : Contents) (o : CertificatesOrder) (config : PlainConfig) (records : List Records) (cs : List Certificate)
        → AsksCertificates words o → IsBankLoaded contents config records
        → let bank = bank_of config records in let window = window_of o.asked bank.receivers in AreCertificates window bank o.workers (swept_offsets window.phase) cs
        → EachAt (λ i c. c.parts ≡ parts_for o.workers (lines_of c)) (swept_offsets window.phase) cs }
    ensures accepted { (words : List (List ℕ)) (contents : Contents) (o : CertificatesOrder) (config : PlainConfig) (records : List Records) (cs : List Certificate)
        → AsksCertificates words o → IsBankLoaded contents config records
        → let bank = bank_of config records in let window = window_of o.asked bank.receivers in AreCertificates window bank o.workers (swept_offsets window.phase) cs
        → EachAt (λ i c. length (lines_of c) ≤ MOST_STEPS
        → IsGoodCertificate (costs_in (window_at window i) bank) (window_at window i) bank.ceiling (certificate_text c) c.head.first c.head.second)
        (swept_offsets window.phase) cs }
{
    blocks_share_the_sequences();
}

/// The keys that they name, each two of them found under the ceiling of the bank, lead to the swept answer and its window.
pub fn certificates_of_a_sweep_decide_it()
    ensures answer { (window : Window) (bank : Bank) (workers : ℕ) (cs : List Certificate) → window.to ≤ century_minutes → window.phase < PHASE_LIMIT
        → AreCertificates window bank workers (swept_offsets window.phase) cs
        → IsSweptAnswer window bank (answer_told (standing_named (swept_offsets window.phase) cs nothing_yet)) }
    ensures told { (window : Window) (bank : Bank) (workers : ℕ) (cs : List Certificate) → window.to ≤ century_minutes → window.phase < PHASE_LIMIT
        → AreCertificates window bank workers (swept_offsets window.phase) cs
        → IsToldWindow window bank (answer_told (standing_named (swept_offsets window.phase) cs nothing_yet))
        (window_told window (standing_named (swept_offsets window.phase) cs nothing_yet)) }
{}

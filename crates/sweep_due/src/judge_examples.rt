//! Worked examples of the certificates of a sweep: what words ask of them, in which order they are written, and what is told of them.
#![tactic(auto, unfolding(crate::specs::Examples::digits, definitions::specs::time::Calendar::day_at, definitions::specs::sequences::Walks::place_at, formats::specs::Reports::at_minutes))]

ghost use Rattle.std.specs.Prelude.{ℕ, ◌≡◌, [], ◌∷◌, ◌++◌, true, None, Some, codes};
ghost use Rattle.definitions.specs.declared.answer.Answer.TheVariants as answer;
ghost use Rattle.definitions.specs.examples.Dates.{at, on};
ghost use Rattle.definitions.specs.examples.Sequences.{from_place};
ghost use Rattle.signal_base.specs.declared.dut.Dut.TheVariants.{Absent};
ghost use Rattle.signal_base.specs.declared.station.Station.TheVariants.{Jjy};
ghost use Rattle.formats.specs.Bytes.{line};
ghost use Rattle.formats.specs.Examples.{dut_told};
ghost use Rattle.formats.specs.Refusals.CertificateFault.{BadLine, OtherWindow};
ghost use Rattle.formats.specs.WordExamples.{asked, asked_usually, words_in};
ghost use Rattle.certificates.specs.Certificates.{Certificate};
ghost use Rattle.certificates.specs.Texts.{certificate_text};
ghost use Rattle.due.specs.declared.due.Due.{Due};
ghost use Rattle.due.specs.declared.status.Status.TheVariants.{BadCertificate, Done};
ghost use Rattle.due.specs.Banks.{Bank};
ghost use Rattle.due.specs.Outputs.{printed};
ghost use Rattle.sweep_due.specs.CertificateNames.{file_at};
ghost use Rattle.sweep_due.specs.Examples.{two_minutes};
ghost use Rattle.sweep_due.specs.JudgeRules.{AsksJudge, IsJudged, judge_status, judge_text};
ghost use Rattle.sweep_due.specs.JudgeRules.JudgeDue.{Certified, NotCertified};
ghost use Rattle.sweep_due.specs.SweepCertificates.{AsksCertificates, sweep_outputs};

use certificates::examples::bad_lines;

/// What words ask: how the names of the files begin, behind which stand a dot and the offset.
pub fn what_is_asked_of_the_certificates_of_a_sweep()
    ensures sweep { AsksCertificates (words_in (codes "sweep k.toml --certificate s --workers 2"))
        (record { config = codes "k.toml"; asked = asked_usually; workers = 2; name = codes "s" }) }
    ensures judge { AsksJudge (words_in (codes "judge k.toml s --seconds 120"))
        (record { config = codes "k.toml"; name = codes "s"; asked = asked None 120 0 52_596_000 }) }
    ensures first { file_at (codes "s") 0 ≡ codes "s.0" }
    ensures last { file_at (codes "d/s") 10 ≡ codes "d/s.10" }
{}

/// The certificates are written anew, in the order of their offsets, and behind them the report.
pub fn certificates_that_are_written()
    ensures { (c d : Certificate) (due : Due) → sweep_outputs (codes "s") (2 ∷ 3 ∷ []) (c ∷ d ∷ []) due
        ≡ record { file = codes "s.2"; anew = true; text = certificate_text c }
        ∷ record { file = codes "s.3"; anew = true; text = certificate_text d } ∷ printed due ∷ [] }
{}

/// What is told: the offset of the first bad certificate, with status 8; or that all are valid, and the report of the swept answer.
pub fn lines_of_judge()
    ensures shape { judge_text (NotCertified 2 (BadLine 1)) ≡ line (codes "certificate 2: line 1: shape") }
    ensures window { judge_text (NotCertified 10 OtherWindow) ≡ line (codes "certificate 10: other window") }
    ensures bad { judge_status (NotCertified 2 (BadLine 1)) ≡ BadCertificate }
    ensures certified { judge_text (Certified (two_minutes 0) (answer.Decided 3570 (from_place (at (on 2024 6 10) 6 16) 0) (Some 4410)) (dut_told Jjy Absent ∷ []))
        ≡ line (codes "certified") ++ (line (codes "decided 3570") ++ line (codes "phase 0") ++ line (codes "sequence 2024-06-10T06:16Z 0 no") ++ line (codes "next 4410")
        ++ line (codes "minute 2024-06-10T06:16Z at 0") ++ line (codes "minute 2024-06-10T06:17Z at 60000")) }
    ensures good { judge_status (Certified (two_minutes 0) answer.Nothing []) ≡ Done }
{}

/// Where the phase of a decode is 30, the first file that is read is that of offset 2. It is refused where it has no byte, whatever
/// the bank.
pub fn first_file_without_a_byte()
    ensures { (bank : Bank) → IsJudged (two_minutes 30) bank (λ offset. []) (NotCertified 2 (BadLine 1)) }
{
    bad_lines();
}

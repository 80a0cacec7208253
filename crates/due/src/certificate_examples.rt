//! Worked examples of certificates: what words ask of them, what a decode owes, and what is told of bytes that are to be one.
#![tactic(auto, unfolding(crate::specs::Examples::digits))]

ghost use Rattle.std.specs.Prelude.{ℕ, ◌≡◌, ◌<◌, ◌+◌, ◌*◌, ◌^◌, ◌++◌, ◌∷◌, [], List, None, Some, codes, length, true};
ghost use Rattle.signal_base.specs.declared.window.Window.{Window};
ghost use Rattle.definitions.specs.declared.answer.Answer.TheVariants as answer;
ghost use Rattle.definitions.specs.declared.sequence.Sequence.{Sequence};
ghost use Rattle.definitions.specs.examples.Sequences.{window_of};
ghost use Rattle.formats.specs.Bytes.{line};
ghost use Rattle.formats.specs.WordExamples.{asked, asked_usually, words_in};
ghost use Rattle.formats.specs.declared.refusal.Refusal.TheVariants.{WordsUsage};
ghost use Rattle.certificates.specs.Examples.{hour_certificate, opened_hour, two_minutes};
ghost use Rattle.certificates.specs.Texts.{certificate_text};
ghost use Rattle.due.specs.declared.check_due.CertificateFault.TheVariants.{BadLine, NotAbove, OtherWindow, TooLarge, TooManySteps, Uncovered, WrongBound, WrongEnds};
ghost use Rattle.due.specs.declared.check_due.CheckDue.TheVariants.{Certified, NotCertified};
ghost use Rattle.due.specs.declared.status.Status.TheVariants.{BadCertificate, Done};
ghost use Rattle.due.specs.Banks.{Bank};
ghost use Rattle.due.specs.CertificateRules.{AsksCertificate, AsksCheck, IsChecked, IsNotCheaper, certificate_name, certificate_with};
ghost use Rattle.due.specs.declared.due.Due.TheVariants.{Refused};
ghost use Rattle.due.specs.CheckDues.{check_status, check_text};
ghost use Rattle.due.specs.Outputs.{printed};
ghost use Rattle.due.specs.Owed.{files_of, owed_outputs, told_alone};

use certificates::examples::{bad_lines, text_of_an_hour};

/// What a check tells, and the status with which it ends: 8 whatever is wrong.
pub fn lines_of_checks()
    ensures certified { check_text (Certified (window_of 4 700 702) answer.Nothing []) ≡ line (codes "certified") ++ line (codes "none") ++ line (codes "phase 0") }
    ensures large { check_text (NotCertified TooLarge) ≡ line (codes "certificate: too large") }
    ensures shape { check_text (NotCertified (BadLine 143)) ≡ line (codes "certificate: line 143: shape") }
    ensures many { check_text (NotCertified (TooManySteps 2_000_012)) ≡ line (codes "certificate: line 2000012: too many steps") }
    ensures window { check_text (NotCertified OtherWindow) ≡ line (codes "certificate: other window") }
    ensures uncovered { check_text (NotCertified (Uncovered 131)) ≡ line (codes "certificate: uncovered at step 131") }
    ensures bound { check_text (NotCertified (WrongBound 1)) ≡ line (codes "certificate: wrong bound at step 1") }
    ensures above { check_text (NotCertified (NotAbove 1)) ≡ line (codes "certificate: not above at step 1") }
    ensures ends { check_text (NotCertified (WrongEnds (Some 52_595_938))) ≡ line (codes "certificate: wrong ends 52595938") }
    ensures no_end { check_text (NotCertified (WrongEnds None)) ≡ line (codes "certificate: wrong ends -") }
    ensures good { (window : Window) (q r : Sequence) → check_status (Certified window (answer.Undecided 7 q r) []) ≡ Done }
    ensures bad { check_status (NotCertified OtherWindow) ≡ BadCertificate }
{}

/// What words ask of certificates.
pub fn what_is_asked_of_certificates()
    ensures decode { AsksCertificate (words_in (codes "decode k.toml --certificate x.cert --workers 2"))
        (record { config = codes "k.toml"; asked = asked_usually; workers = 2; name = codes "x.cert" }) }
    ensures check { AsksCheck (words_in (codes "check k.toml x.cert --seconds 60"))
        (record { config = codes "k.toml"; certificate = codes "x.cert"; asked = asked None 60 0 52_596_000 }) }
    ensures named { certificate_name (words_in (codes "decode k.toml --certificate x.cert")) ≡ Some (codes "x.cert") }
    ensures not_named { certificate_name (words_in (codes "decode k.toml")) ≡ None }
    ensures read { certificate_name (words_in (codes "check k.toml x.cert")) ≡ None }
    ensures dash { certificate_name (words_in (codes "decode k.toml --certificate -")) ≡ None }
{}

/// The certificate of two workers has all lines in its first part. Its text is written anew to its file, in front of what is told.
pub fn certificates_of_two_workers()
    ensures parts { certificate_with two_minutes 1_000 2 (Some (116 * 2 ^ 33 + 700)) (Some (118 * 2 ^ 33 + 701)) opened_hour ≡ hour_certificate }
    ensures written { owed_outputs (Some (codes "x.cert")) (record { due = Refused WordsUsage; certificate = Some hour_certificate })
        ≡ record { file = codes "x.cert"; anew = true; text = certificate_text hour_certificate } ∷ printed (Refused WordsUsage) ∷ [] }
    ensures none { owed_outputs (Some (codes "x.cert")) (told_alone (Refused WordsUsage)) ≡ printed (Refused WordsUsage) ∷ [] }
    ensures files { files_of (Some (codes "x.cert")) ≡ codes "x.cert" ∷ codes "-" ∷ [] }
{}

/// What a pruned bound may be: at the costs of both sequences, and above the ceiling where there is only one or none.
pub fn bounds_that_are_not_cheaper()
    ensures two { (q : Sequence) → IsNotCheaper 9 8 (answer.Decided 7 q (Some 8)) }
    ensures cheaper { (q : Sequence) → ¬ (IsNotCheaper 9 7 (answer.Decided 7 q (Some 8))) }
    ensures tie { (q r : Sequence) → IsNotCheaper 9 7 (answer.Undecided 7 q r) }
    ensures one { (q : Sequence) → ¬ (IsNotCheaper 9 9 (answer.Decided 7 q None)) }
    ensures none { IsNotCheaper 9 10 answer.Nothing }
    ensures at_the_ceiling { ¬ (IsNotCheaper 9 9 answer.Nothing) }
{}

/// Whatever the bank: too many bytes, no byte, and the certificate of another window.
pub fn certificates_that_are_refused()
    ensures large { (window : Window) (bank : Bank) (bytes : List ℕ) → 128_000_000 < length bytes → IsChecked window bank bytes (NotCertified TooLarge) }
    ensures nothing { (window : Window) (bank : Bank) → IsChecked window bank [] (NotCertified (BadLine 1)) }
    ensures other { (bank : Bank) → IsChecked (window_of 4 700 703) bank (certificate_text hour_certificate) (NotCertified OtherWindow) }
{
    bad_lines();
    text_of_an_hour();
}

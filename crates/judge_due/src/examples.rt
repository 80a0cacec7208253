//! Worked examples of what is due of `judge`.
#![tactic(auto, unfolding(due::specs::Examples::digits, definitions::specs::time::Calendar::day_at, definitions::specs::sequences::Walks::place_at, formats::specs::Reports::at_minutes))]

ghost use Rattle.std.specs.Prelude.{ℕ, ◌≡◌, [], ◌∷◌, ◌++◌, List, None, Some, codes, false};
ghost use Rattle.definitions.specs.declared.answer.Answer.TheVariants as answer;
ghost use Rattle.definitions.specs.heard.Logs.{Records};
ghost use Rattle.formats.specs.Bytes.{line};
ghost use Rattle.formats.specs.Refusals.CertificateFault.{BadLine, WrongEnds};
ghost use Rattle.formats.specs.WordExamples.{asked, asked_usually, words_in};
ghost use Rattle.formats.specs.declared.key.KeyName.TheVariants.{Ceiling};
ghost use Rattle.formats.specs.declared.option.OptionName.TheVariants.{Seconds};
ghost use Rattle.formats.specs.declared.refusal.Refusal.{Refusal};
ghost use Rattle.formats.specs.declared.refusal.Refusal.TheVariants.{ConfigMissing, ConfigTooLarge, LogTooLarge, WordsBad, WordsUsage};
ghost use Rattle.bank_config.specs.Configuration.{PlainConfig};
ghost use Rattle.due.specs.declared.due.Due.TheVariants.{Refused};
ghost use Rattle.due.specs.declared.status.Status.TheVariants.{BadCertificate, BadConfiguration, BadLog, BadWords, Done};
ghost use Rattle.due.specs.Banks.{bank_of, window_of};
ghost use Rattle.due.specs.Inputs.{CertificateAt, Configuration, Contents};
ghost use Rattle.due.specs.Loads.{IsBankLoaded, IsBankRefused};
ghost use Rattle.sweep_due.specs.Examples.{two_minutes};
ghost use Rattle.sweep_due.specs.JudgeRules.{AsksJudge};
ghost use Rattle.sweep_due.specs.JudgeRules.JudgeDue.{Certified, NotCertified};
ghost use Rattle.judge_due.specs.JudgeDues.{IsJudgeDue, IsJudgeRead};
ghost use Rattle.judge_due.specs.JudgePlans.{judge_plan};
ghost use Rattle.judge_due.specs.JudgeTexts.JudgeOwed.{Judged, Told};
ghost use Rattle.judge_due.specs.JudgeTexts.{owed_status, owed_text};

use certificates::examples::bad_lines;

/// Words that are refused, whatever the files hold.
pub fn refused_words_of_a_judgement()
    ensures none { (contents : Contents) → IsJudgeDue [] contents (Told (Refused WordsUsage)) }
    ensures place { (contents : Contents) → IsJudgeDue (words_in (codes "judge k.toml")) contents (Told (Refused WordsUsage)) }
    ensures other { (contents : Contents) → IsJudgeDue (words_in (codes "sweep k.toml")) contents (Told (Refused WordsUsage)) }
    ensures run { (contents : Contents) → IsJudgeDue (words_in (codes "check k.toml s")) contents (Told (Refused WordsUsage)) }
    ensures option { (contents : Contents) → IsJudgeDue (words_in (codes "judge k.toml s --workers 2")) contents (Told (Refused WordsUsage)) }
    ensures dash { (contents : Contents) → IsJudgeDue (words_in (codes "judge k.toml -")) contents (Told (Refused WordsUsage)) }
    ensures seconds { (contents : Contents) → IsJudgeDue (words_in (codes "judge k.toml s --seconds 59")) contents (Told (Refused (WordsBad Seconds))) }
{}

/// What words ask, and what is refused of the bank that they name.
pub fn what_is_asked_of_a_judgement()
    ensures usual { AsksJudge (words_in (codes "judge k.toml s")) (record { config = codes "k.toml"; name = codes "s"; asked = asked_usually }) }
    ensures own { AsksJudge (words_in (codes "judge k.toml s --seconds 120 --start 7")) (record { config = codes "k.toml"; name = codes "s"; asked = asked (Some 7) 120 0 52_596_000 }) }
    ensures refused { (contents : Contents) (refusal : Refusal) → IsBankRefused contents refusal
        → IsJudgeDue (words_in (codes "judge k.toml s")) contents (Told (Refused refusal)) }
{}

/// The configuration is read first. Where a decode finds the phase 30, the first certificate that is read is that of offset 2, from
/// the file of this number.
pub fn files_that_are_read()
    ensures first { (contents : Contents) → IsJudgeRead (words_in (codes "judge k.toml s")) contents Configuration (codes "k.toml") }
    ensures certificate { (contents : Contents) (config : PlainConfig) (records : List Records) → IsBankLoaded contents config records
        → window_of asked_usually (bank_of config records).receivers ≡ two_minutes 30
        → IsJudgeRead (words_in (codes "judge k.toml s")) contents (CertificateAt 2) (codes "s.2") }
{}

/// There the certificate of offset 2 is refused where it has no byte, whatever the bank.
pub fn first_certificate_without_a_byte()
    ensures { (contents : Contents) (config : PlainConfig) (records : List Records) → IsBankLoaded contents config records
        → window_of asked_usually (bank_of config records).receivers ≡ two_minutes 30 → contents (CertificateAt 2) ≡ []
        → IsJudgeDue (words_in (codes "judge k.toml s")) contents (Judged (NotCertified 2 (BadLine 1))) }
{
    bad_lines();
}

/// The statuses and texts of what is owed, which go to standard output alone.
pub fn statuses_of_a_judgement()
    ensures words { owed_status (Told (Refused WordsUsage)) ≡ BadWords }
    ensures configuration { owed_status (Told (Refused ConfigTooLarge)) ≡ BadConfiguration }
    ensures log { owed_status (Told (Refused (LogTooLarge 1 (codes "a")))) ≡ BadLog }
    ensures certificate { owed_status (Judged (NotCertified 2 (BadLine 1))) ≡ BadCertificate }
    ensures certified { owed_status (Judged (Certified (two_minutes 30) answer.Nothing [])) ≡ Done }
    ensures missing { owed_text (Told (Refused (ConfigMissing Ceiling None))) ≡ line (codes "configuration: missing ceiling") }
    ensures ends { owed_text (Judged (NotCertified 10 (WrongEnds None))) ≡ line (codes "certificate 10: wrong ends -") }
    ensures answer { owed_text (Judged (Certified (two_minutes 30) answer.Nothing [])) ≡ line (codes "certified") ++ line (codes "none") ++ line (codes "phase 30") }
    ensures output { (words : List (List ℕ)) → (judge_plan words).outputs (Told (Refused WordsUsage))
        ≡ record { file = codes "-"; anew = false; text = line (codes "words: usage") } ∷ [] }
{}

//! Worked examples of what is due of `check`.
#![tactic(auto, unfolding(due::specs::Examples::digits))]

ghost use Rattle.std.specs.Prelude.{ℕ, ◌≡◌, [], ◌∷◌, ◌++◌, List, None, Some, codes, false};
ghost use Rattle.definitions.specs.declared.answer.Answer.TheVariants as answer;
ghost use Rattle.definitions.specs.examples.Sequences.{window_of};
ghost use Rattle.definitions.specs.heard.Logs.{Records};
ghost use Rattle.formats.specs.Bytes.{line};
ghost use Rattle.formats.specs.WordExamples.{asked, asked_usually, words_in};
ghost use Rattle.formats.specs.declared.key.KeyName.TheVariants.{Ceiling};
ghost use Rattle.formats.specs.declared.option.OptionName.TheVariants.{Seconds};
ghost use Rattle.formats.specs.declared.refusal.Refusal.{Refusal};
ghost use Rattle.formats.specs.declared.refusal.Refusal.TheVariants.{ConfigMissing, ConfigTooLarge, LogTooLarge, WordsBad, WordsUsage};
ghost use Rattle.bank_config.specs.Configuration.{PlainConfig};
ghost use Rattle.due.specs.declared.check_due.CertificateFault.TheVariants.{BadLine, WrongEnds};
ghost use Rattle.due.specs.declared.check_due.CheckDue.TheVariants.{Certified, NotCertified};
ghost use Rattle.due.specs.declared.due.Due.TheVariants.{Refused};
ghost use Rattle.due.specs.declared.status.Status.TheVariants.{BadCertificate, BadConfiguration, BadLog, BadWords, Done};
ghost use Rattle.due.specs.CertificateRules.{AsksCheck};
ghost use Rattle.due.specs.Inputs.{Certificate, Configuration, Contents};
ghost use Rattle.due.specs.Loads.{IsBankLoaded, IsBankRefused};
ghost use Rattle.check_due.specs.declared.check_owed.CheckOwed.TheVariants.{Judged, Told};
ghost use Rattle.check_due.specs.CheckPlans.{check_plan};
ghost use Rattle.check_due.specs.CheckRules.{IsCheckDue, IsCheckRead};
ghost use Rattle.check_due.specs.CheckTexts.{owed_status, owed_text};

use certificates::examples::bad_lines;

/// Words that are refused, whatever the files hold.
pub fn refused_words_of_a_check()
    ensures none { (contents : Contents) → IsCheckDue [] contents (Told (Refused WordsUsage)) }
    ensures place { (contents : Contents) → IsCheckDue (words_in (codes "check k.toml")) contents (Told (Refused WordsUsage)) }
    ensures other { (contents : Contents) → IsCheckDue (words_in (codes "decode k.toml")) contents (Told (Refused WordsUsage)) }
    ensures beyond { (contents : Contents) → IsCheckDue (words_in (codes "judge k.toml s")) contents (Told (Refused WordsUsage)) }
    ensures option { (contents : Contents) → IsCheckDue (words_in (codes "check k.toml x.cert --workers 2")) contents (Told (Refused WordsUsage)) }
    ensures dash { (contents : Contents) → IsCheckDue (words_in (codes "check k.toml -")) contents (Told (Refused WordsUsage)) }
    ensures seconds { (contents : Contents) → IsCheckDue (words_in (codes "check k.toml x.cert --seconds 59")) contents (Told (Refused (WordsBad Seconds))) }
{}

/// What words ask, and which files are read for them.
pub fn what_is_asked_of_a_check()
    ensures usual { AsksCheck (words_in (codes "check k.toml x.cert")) (record { config = codes "k.toml"; certificate = codes "x.cert"; asked = asked_usually }) }
    ensures own { AsksCheck (words_in (codes "check k.toml x.cert --seconds 120 --start 7")) (record { config = codes "k.toml"; certificate = codes "x.cert"; asked = asked (Some 7) 120 0 52_596_000 }) }
    ensures first { (contents : Contents) → IsCheckRead (words_in (codes "check k.toml x.cert")) contents Configuration (codes "k.toml") }
    ensures last { (contents : Contents) (config : PlainConfig) (records : List Records) → IsBankLoaded contents config records
        → IsCheckRead (words_in (codes "check k.toml x.cert")) contents Certificate (codes "x.cert") }
    ensures refused { (contents : Contents) (refusal : Refusal) → IsBankRefused contents refusal
        → IsCheckDue (words_in (codes "check k.toml x.cert")) contents (Told (Refused refusal)) }
{}

/// A certificate without a byte is refused for its first line, whatever the bank.
pub fn certificate_without_a_byte()
    ensures { (contents : Contents) (config : PlainConfig) (records : List Records) → IsBankLoaded contents config records → contents Certificate ≡ []
        → IsCheckDue (words_in (codes "check k.toml x.cert")) contents (Judged (NotCertified (BadLine 1))) }
{
    bad_lines();
}

/// The statuses and texts of what is owed, which go to standard output alone.
pub fn statuses_of_a_check()
    ensures words { owed_status (Told (Refused WordsUsage)) ≡ BadWords }
    ensures configuration { owed_status (Told (Refused ConfigTooLarge)) ≡ BadConfiguration }
    ensures log { owed_status (Told (Refused (LogTooLarge 1 (codes "a")))) ≡ BadLog }
    ensures certificate { owed_status (Judged (NotCertified (BadLine 1))) ≡ BadCertificate }
    ensures certified { owed_status (Judged (Certified (window_of 4 700 702) answer.Nothing [])) ≡ Done }
    ensures missing { owed_text (Told (Refused (ConfigMissing Ceiling None))) ≡ line (codes "configuration: missing ceiling") }
    ensures ends { owed_text (Judged (NotCertified (WrongEnds None))) ≡ line (codes "certificate: wrong ends -") }
    ensures answer { owed_text (Judged (Certified (window_of 4 700 702) answer.Nothing [])) ≡ line (codes "certified") ++ line (codes "none") ++ line (codes "phase 0") }
    ensures output { (words : List (List ℕ)) → (check_plan words).outputs (Told (Refused WordsUsage))
        ≡ record { file = codes "-"; anew = false; text = line (codes "words: usage") } ∷ [] }
{}

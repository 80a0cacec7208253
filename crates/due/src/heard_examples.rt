//! Worked examples of what is due where what was heard is shown.
#![tactic(auto, unfolding(crate::specs::Examples::digits, formats::specs::WordValues::number_of))]

ghost use Rattle.std.specs.Prelude.{ℕ, ◌≡◌, [], ◌∷◌, None, Option, Some, codes, false};
ghost use Rattle.definitions.specs.declared.answer.Answer.TheVariants as answer;
ghost use Rattle.definitions.specs.declared.sequence.Sequence.{Sequence};
ghost use Rattle.signal_base.specs.declared.window.Window.{Window};
ghost use Rattle.formats.specs.declared.option.OptionName.TheVariants.{Seconds};
ghost use Rattle.formats.specs.declared.refusal.Refusal.TheVariants.{ConfigTooLarge, LogLine, WordsBad, WordsEmptyRange, WordsUsage};
ghost use Rattle.formats.specs.declared.fault.LineFault.TheVariants.{NotRising};
ghost use Rattle.formats.specs.Bytes.{line};
ghost use Rattle.formats.specs.Heard.{Hearing, heard_text};
ghost use Rattle.formats.specs.WordExamples.{asked, asked_usually, words_in};
ghost use Rattle.due.specs.declared.due.Due.TheVariants.{Refused, Report};
ghost use Rattle.due.specs.declared.heard_due.HeardDue.TheVariants.{Heard, Told};
ghost use Rattle.due.specs.declared.status.Status.TheVariants.{BadConfiguration, BadLog, BadWords, Done, Nothing, Undecided};
ghost use Rattle.due.specs.Banks.{Bank};
ghost use Rattle.due.specs.HeardRuns.{AsksHeard, IsHeardDue, hearing_of, heard_outputs, heard_status, shown};
ghost use Rattle.due.specs.Inputs.{Contents};
ghost use Rattle.due.specs.Orders as orders;

/// What words ask for: a window of the logs of a configuration.
pub fn words_of_a_hearing()
    ensures plain { AsksHeard (words_in (codes "k.toml")) (record { config = codes "k.toml"; asked = asked_usually; wanted = orders.Report None }) }
    ensures window { AsksHeard (words_in (codes "k.toml --seconds 60 --start 7"))
        (record { config = codes "k.toml"; asked = asked (Some 7) 60 0 52_596_000; wanted = orders.Report None }) }
{}

/// Words that are refused, whatever the files hold: without a configuration, with the word of a command, and with the options
/// of a decode that are left out, however their values and those of others look.
pub fn words_that_are_no_hearing()
    ensures none { (contents : Contents) → IsHeardDue [] contents (Told (Refused WordsUsage)) }
    ensures command { (contents : Contents) → IsHeardDue (words_in (codes "decode k.toml")) contents (Told (Refused WordsUsage)) }
    ensures workers { (contents : Contents) → IsHeardDue (words_in (codes "k.toml --workers 2")) contents (Told (Refused WordsUsage)) }
    ensures certificate { (contents : Contents) → IsHeardDue (words_in (codes "k.toml --certificate x --seconds 59")) contents (Told (Refused WordsUsage)) }
    ensures seconds { (contents : Contents) → IsHeardDue (words_in (codes "k.toml --seconds 59")) contents (Told (Refused (WordsBad Seconds))) }
    ensures empty { (contents : Contents)
        → IsHeardDue (words_in (codes "k.toml --from 2024-06-10T23:59Z --to 2024-06-10T00:00Z")) contents (Told (Refused WordsEmptyRange)) }
{}

/// A decided answer is shown by what was heard, and any other by its report.
pub fn what_is_shown()
    ensures decided { (window : Window) (bank : Bank) (q : Sequence) (next : Option ℕ) → shown window bank (answer.Decided 7 q next) ≡ Heard (hearing_of window bank q next) }
    ensures tie { (window : Window) (bank : Bank) (q r : Sequence) → shown window bank (answer.Undecided 7 q r) ≡ Told (Report window (answer.Undecided 7 q r) []) }
    ensures nothing { (window : Window) (bank : Bank) → shown window bank answer.Nothing ≡ Told (Report window answer.Nothing []) }
    ensures refused { heard_outputs (Told (Refused WordsUsage)) ≡ record { file = codes "-"; anew = false; text = line (codes "words: usage") } ∷ [] }
    ensures heard { (h : Hearing) → heard_outputs (Heard h) ≡ record { file = codes "-"; anew = false; text = heard_text h } ∷ [] }
{}

/// With which status a run ends that showed this.
pub fn statuses_of_what_is_shown()
    ensures heard { (h : Hearing) → heard_status (Heard h) ≡ Done }
    ensures words { heard_status {H = Hearing} (Told (Refused WordsUsage)) ≡ BadWords }
    ensures configuration { heard_status {H = Hearing} (Told (Refused ConfigTooLarge)) ≡ BadConfiguration }
    ensures log { heard_status {H = Hearing} (Told (Refused (LogLine 2 (codes "south") 2 NotRising))) ≡ BadLog }
    ensures tie { (window : Window) (q r : Sequence) → heard_status {H = Hearing} (Told (Report window (answer.Undecided 7 q r) [])) ≡ Undecided }
    ensures nothing { (window : Window) → heard_status {H = Hearing} (Told (Report window answer.Nothing [])) ≡ Nothing }
{}

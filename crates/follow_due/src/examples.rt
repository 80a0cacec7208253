//! Worked examples of what is due of `follow`.
#![tactic(auto, unfolding(crate::specs::Examples::digits, definitions::specs::time::Calendar::day_at, definitions::specs::sequences::Walks::place_at, formats::specs::Reports::at_minutes))]

ghost use Rattle.std.specs.Prelude.{ℕ, ◌≡◌, [], ◌∷◌, ◌++◌, List, None, Some, codes, false};
ghost use Rattle.signal_base.specs.declared.tuning.CostTable.{CostTable};
ghost use Rattle.definitions.specs.declared.answer.Answer.TheVariants as answer;
ghost use Rattle.definitions.specs.examples.Dates.{at, on};
ghost use Rattle.definitions.specs.examples.Sequences.{from_place};
ghost use Rattle.definitions.specs.heard.Logs.{Records};
ghost use Rattle.formats.specs.Bytes.{line};
ghost use Rattle.formats.specs.WordExamples.{asked, asked_usually, words_in};
ghost use Rattle.formats.specs.declared.option.OptionName.TheVariants.{Count, Step};
ghost use Rattle.formats.specs.declared.refusal.Refusal.{Refusal};
ghost use Rattle.formats.specs.declared.refusal.Refusal.TheVariants.{WordsBad, WordsUsage};
ghost use Rattle.bank_config.specs.Configuration.{PlainConfig};
ghost use Rattle.due.specs.declared.due.Due.TheVariants.{Refused};
ghost use Rattle.due.specs.declared.status.Status.TheVariants.{BadWords, Done, Undecided};
ghost use Rattle.due.specs.Banks.{bank_of, window_of};
ghost use Rattle.due.specs.Examples.{mixed};
ghost use Rattle.due.specs.Inputs.{Configuration, Contents};
ghost use Rattle.due.specs.Loads.{IsBankLoaded, IsBankRefused};
ghost use Rattle.follow_due.specs.declared.follow_due.FollowDue.TheVariants.{Told, Windows};
ghost use Rattle.follow_due.specs.declared.window_report.WindowReport.{WindowReport};
ghost use Rattle.follow_due.specs.Examples.{open_told, order_of_k, told_of, two_minutes};
ghost use Rattle.follow_due.specs.FollowDues.{follow_outputs, follow_status, follow_text};
ghost use Rattle.follow_due.specs.FollowOrders.{AsksFollow, followed_windows};
ghost use Rattle.follow_due.specs.FollowRules.{IsFollowDue, IsFollowRead};
ghost use Rattle.follow_due.specs.Windows.{AreReportsOf, StartInTime, StartTooLate, windows_from};

/// Words that are refused, whatever the files hold.
pub fn refused_words_of_follow()
    ensures none { (contents : Contents) → IsFollowDue [] contents (Told (Refused WordsUsage)) }
    ensures place { (contents : Contents) → IsFollowDue (words_in (codes "follow")) contents (Told (Refused WordsUsage)) }
    ensures other { (contents : Contents) → IsFollowDue (words_in (codes "decode k.toml")) contents (Told (Refused WordsUsage)) }
    ensures beyond { (contents : Contents) → IsFollowDue (words_in (codes "irig k.toml")) contents (Told (Refused WordsUsage)) }
    ensures step { (contents : Contents) → IsFollowDue (words_in (codes "follow k.toml --step 0")) contents (Told (Refused (WordsBad Step))) }
    ensures count { (contents : Contents) → IsFollowDue (words_in (codes "follow k.toml --count 1001")) contents (Told (Refused (WordsBad Count))) }
{}

/// What words ask: ten windows, a minute apart, unless they say otherwise.
pub fn what_is_asked_of_follow()
    ensures usual { AsksFollow (words_in (codes "follow k.toml")) (order_of_k asked_usually 60 10) }
    ensures own { AsksFollow (words_in (codes "follow k.toml --seconds 120 --step 7 --count 2")) (order_of_k (asked None 120 0 52_596_000) 7 2) }
    ensures read { (contents : Contents) → IsFollowRead (words_in (codes "follow k.toml")) contents Configuration (codes "k.toml") }
{}

/// The windows of a log: each starts a step after the one before it, all have one phase, and no other number changes.
pub fn windows_of_a_log()
    ensures minutes { windows_from (two_minutes 0) 60 2 ≡ two_minutes 0 ∷ two_minutes 60_000 ∷ [] }
    ensures steps { windows_from (two_minutes 1000) 7 3 ≡ two_minutes 1000 ∷ two_minutes 8000 ∷ two_minutes 15_000 ∷ [] }
    ensures of_bank { (table : CostTable) (ceiling : ℕ)
        → followed_windows (order_of_k (asked None 60 0 1440) 90 2) (record { receivers = mixed; table = table; ceiling = ceiling })
        ≡ record { stations = record { mask = 9 }; start = 4236; phase = 1; seconds = 60; from = 0; to = 1440 }
        ∷ record { stations = record { mask = 9 }; start = 94_236; phase = 1; seconds = 60; from = 0; to = 1440 } ∷ [] }
{}

/// The last window starts below 1,000,000,000,000.
pub fn last_windows()
    ensures in_time { StartInTime (two_minutes 999_999_939_999) 60 2 }
    ensures too_late { StartTooLate (two_minutes 999_999_940_000) 60 2 }
    ensures alone { StartInTime (two_minutes 999_999_999_999) 60 1 }
    ensures second { StartTooLate (two_minutes 999_999_999_999) 1 2 }
{}

/// A count is refused where the last window starts too late, once the logs are good.
pub fn counts_that_are_refused()
    ensures due { (contents : Contents) (config : PlainConfig) (records : List Records) → IsBankLoaded contents config records
        → IsFollowDue (words_in (codes "follow k.toml --seconds 120 --count 2 --start 999999999999")) contents (Told (Refused (WordsBad Count))) }
    ensures text { follow_text (Told (Refused (WordsBad Count))) ≡ line (codes "words: bad --count") }
    ensures status { follow_status (Told (Refused (WordsBad Count))) ≡ BadWords }
    ensures logs_first { (contents : Contents) (refusal : Refusal) → IsBankRefused contents refusal
        → IsFollowDue (words_in (codes "follow k.toml --count 2 --start 999999999999")) contents (Told (Refused refusal)) }
{}

/// What is due of a bank whose windows are followed: their reports.
pub fn what_is_due_of_a_bank()
    ensures { (contents : Contents) (config : PlainConfig) (records : List Records) (reports : List WindowReport) → IsBankLoaded contents config records
        → AreReportsOf (bank_of config records) (windows_from (window_of (asked (Some 0) 120 0 52_596_000) (bank_of config records).receivers) 60 2) reports
        → IsFollowDue (words_in (codes "follow k.toml --seconds 120 --count 2 --start 0")) contents (Windows reports) }
{}

/// Two windows of JJY, of which the second begins in the second minute of the first; and two without a decision. Each is told
/// by its start, whatever the phase, and then by its report; all of them are one text, which is added to standard output.
pub fn reports_of_two_minutes()
    ensures decided { follow_text (Windows (told_of (two_minutes 0) (answer.Decided 0 (from_place (at (on 2024 6 10) 6 16) 0) (Some 1200))
        ∷ told_of (two_minutes 60_000) (answer.Decided 0 (from_place (at (on 2024 6 10) 6 17) 0) (Some 1200)) ∷ []))
        ≡ line (codes "window 0") ++ line (codes "decided 0") ++ line (codes "phase 0") ++ line (codes "sequence 2024-06-10T06:16Z 0 no")
        ++ line (codes "next 1200") ++ line (codes "minute 2024-06-10T06:16Z at 0") ++ line (codes "minute 2024-06-10T06:17Z at 60000")
        ++ line (codes "window 60000") ++ line (codes "decided 0") ++ line (codes "phase 0") ++ line (codes "sequence 2024-06-10T06:17Z 0 no")
        ++ line (codes "next 1200") ++ line (codes "minute 2024-06-10T06:17Z at 60000") ++ line (codes "minute 2024-06-10T06:18Z at 120000") }
    ensures tie { follow_text (Windows (open_told (two_minutes 0) (answer.Undecided 0 (from_place 0 0) (from_place 1 0)) ∷ []))
        ≡ line (codes "window 0") ++ line (codes "undecided 0") ++ line (codes "phase 0") ++ line (codes "sequence 2000-01-01T00:00Z 0 no")
        ++ line (codes "sequence 2000-01-01T00:01Z 0 no") }
    ensures written { follow_outputs (Windows (open_told (record (two_minutes 7000) { phase = 237 }) answer.Nothing ∷ []))
        ≡ record { file = codes "-"; anew = false; text = line (codes "window 7000") ++ line (codes "none") ++ line (codes "phase 237") } ∷ [] }
{}

/// A run ends with 0 where all windows are decided, and with 1 where some aren't, also where nothing is admitted in any of them.
pub fn statuses_of_windows()
    ensures decided { follow_status (Windows (told_of (two_minutes 0) (answer.Decided 0 (from_place 720 0) None)
        ∷ told_of (two_minutes 60_000) (answer.Decided 7 (from_place 721 0) (Some 9)) ∷ [])) ≡ Done }
    ensures tie { follow_status (Windows (told_of (two_minutes 0) (answer.Decided 0 (from_place 720 0) None)
        ∷ open_told (two_minutes 60_000) (answer.Undecided 0 (from_place 0 0) (from_place 1 0)) ∷ [])) ≡ Undecided }
    ensures nothing { follow_status (Windows (open_told (two_minutes 0) answer.Nothing
        ∷ told_of (two_minutes 60_000) (answer.Decided 0 (from_place 720 0) None) ∷ [])) ≡ Undecided }
    ensures nothing_at_all { follow_status (Windows (open_told (two_minutes 0) answer.Nothing ∷ open_told (two_minutes 60_000) answer.Nothing ∷ [])) ≡ Undecided }
{}

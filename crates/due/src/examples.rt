//! Worked examples of what is due.
#![tactic(auto, unfolding(crate::specs::Examples::digits))]

ghost use Rattle.std.specs.Prelude.{ℕ, ◌≡◌, ◌<◌, ◌≤◌, [], ◌∷◌, ◌++◌, List, None, Option, Some, codes, false, length, true, Err};
ghost use Rattle.signal_base.specs.declared.station.Station.TheVariants.{Msf, Wwvb};
ghost use Rattle.signal_base.specs.declared.window.Window.{Window};
ghost use Rattle.definitions.specs.declared.answer.Answer.{Answer};
ghost use Rattle.definitions.specs.declared.answer.Answer.TheVariants as answer;
ghost use Rattle.definitions.specs.declared.sequence.Sequence.{Sequence};
ghost use Rattle.definitions.specs.examples.Receivers.{rises_at};
ghost use Rattle.formats.specs.Bytes.{line};
ghost use Rattle.formats.specs.WordExamples.{asked, asked_usually, words_in};
ghost use Rattle.formats.specs.declared.fault.LineFault.TheVariants.{NotRising};
ghost use Rattle.formats.specs.declared.key.KeyName.TheVariants as name;
ghost use Rattle.formats.specs.declared.option.OptionName.TheVariants.{Minute, Number, Seconds};
ghost use Rattle.formats.specs.declared.refusal.Refusal.TheVariants.{ConfigOutOfRange, ConfigTooLarge, ConfigWrongKind, LogLine, LogTooLarge, WordsBad, WordsEmptyRange, WordsUsage};
ghost use Rattle.bank_config.specs.Configuration.{configuration_of};
ghost use Rattle.bank_config.specs.declared.fault.ConfigFault.TheVariants.{OutOfRange, WrongKind};
ghost use Rattle.bank_config.specs.declared.fault.Key.TheVariants as key;
ghost use Rattle.due.specs.declared.due.Due.TheVariants.{Feed, Listing, Refused, Report, Trial};
ghost use Rattle.due.specs.declared.status.Status.TheVariants.{BadCertificate, BadConfiguration, BadLog, BadQueries, BadWords, Done, Failed, NoMemory, Nothing, Undecided};
ghost use Rattle.due.specs.Banks.{Bank, IsBankAnswer, by_station, duts_of, first_time, stations_heard, window_of};
ghost use Rattle.due.specs.Configurations.{IsConfiguration, fault_refusal, logs_of};
ghost use Rattle.due.specs.Dues.{status_of, text_of};
ghost use Rattle.due.specs.Examples.{falls_once, held, mixed, silent, two_receivers};
ghost use Rattle.due.specs.Inputs.{Contents, LogOf};
ghost use Rattle.due.specs.Orders as orders;
ghost use Rattle.due.specs.Outputs.{outputs_of};
ghost use Rattle.due.specs.Rules.{AsksBank, IsDue, IsRead, reported};
ghost use Rattle.due.specs.Status.{code_of};
ghost use Rattle.due.specs.Trials.{trial_asked, trial_bank, trial_receiver};

/// The numbers of the statuses, as they are documented.
pub fn numbers_of_statuses()
    ensures done { code_of Done ≡ 0 }
    ensures undecided { code_of Undecided ≡ 1 }
    ensures nothing { code_of Nothing ≡ 2 }
    ensures words { code_of BadWords ≡ 3 }
    ensures configuration { code_of BadConfiguration ≡ 4 }
    ensures log { code_of BadLog ≡ 5 }
    ensures failed { code_of Failed ≡ 6 }
    ensures memory { code_of NoMemory ≡ 7 }
    ensures certificate { code_of BadCertificate ≡ 8 }
    ensures queries { code_of BadQueries ≡ 9 }
{}

/// With which status a run ends that told this.
pub fn statuses_of_what_is_due()
    ensures usage { status_of (Refused WordsUsage) ≡ BadWords }
    ensures value { status_of (Refused (WordsBad Seconds)) ≡ BadWords }
    ensures range { status_of (Refused WordsEmptyRange) ≡ BadWords }
    ensures large_configuration { status_of (Refused ConfigTooLarge) ≡ BadConfiguration }
    ensures key { status_of (Refused (ConfigOutOfRange name.Weight (Some 1))) ≡ BadConfiguration }
    ensures large_log { status_of (Refused (LogTooLarge 2 (codes "south"))) ≡ BadLog }
    ensures line { status_of (Refused (LogLine 2 (codes "south") 2 NotRising)) ≡ BadLog }
    ensures feed { (window : Window) (q : Sequence) → status_of (Feed window q) ≡ Done }
    ensures tie { (window : Window) (q r : Sequence) → status_of (Report window (answer.Undecided 7 q r) []) ≡ Undecided }
    ensures nothing { (window : Window) → status_of (Report window answer.Nothing []) ≡ Nothing }
    ensures decided { (window : Window) (q : Sequence) → status_of (Report window (answer.Decided 7 q None) []) ≡ Done }
{}

/// Words that are refused, whatever the files hold.
pub fn words_that_are_refused()
    ensures none { (contents : Contents) → IsDue [] contents (Refused WordsUsage) }
    ensures place { (contents : Contents) → IsDue (words_in (codes "decode")) contents (Refused WordsUsage) }
    ensures dash { (contents : Contents) → IsDue (words_in (codes "feed -")) contents (Refused WordsUsage) }
    ensures beyond { (contents : Contents) → IsDue (words_in (codes "follow k.toml")) contents (Refused WordsUsage) }
    ensures check { (contents : Contents) → IsDue (words_in (codes "check k.toml x.cert")) contents (Refused WordsUsage) }
    ensures certificate { (contents : Contents) → IsDue (words_in (codes "decode k.toml --certificate -")) contents (Refused WordsUsage) }
    ensures seconds { (contents : Contents) → IsDue (words_in (codes "decode k.toml --seconds 59")) contents (Refused (WordsBad Seconds)) }
    ensures number { (contents : Contents) → IsDue (words_in (codes "trial 4294967296")) contents (Refused (WordsBad Number)) }
    ensures minute { (contents : Contents) → IsDue (words_in (codes "encode msf 1")) contents (Refused (WordsBad Minute)) }
    ensures empty { (contents : Contents)
        → IsDue (words_in (codes "feed k.toml --from 2024-06-10T23:59Z --to 2024-06-10T00:00Z")) contents (Refused WordsEmptyRange) }
    ensures text { text_of (Refused (WordsBad Seconds)) ≡ line (codes "words: bad --seconds") }
{}

/// A listing is due for the minute that the words name, with a leap second or without.
pub fn listings_that_are_due()
    ensures plain { (contents : Contents) → IsDue (words_in (codes "encode wwvb 2024-02-29T12:34Z")) contents (Listing Wwvb 12_708_754 false) }
    ensures leap { (contents : Contents) → IsDue (words_in (codes "encode msf 2016-12-31T23:59Z --leap 1")) contents (Listing Msf 8_942_399 true) }
{}

/// What words ask of a bank: a report, or a feed.
pub fn what_is_asked()
    ensures decode { AsksBank (words_in (codes "decode k.toml")) (record { config = codes "k.toml"; asked = asked_usually; wanted = orders.Report None }) }
    ensures certificate { AsksBank (words_in (codes "decode k.toml --certificate x.cert"))
        (record { config = codes "k.toml"; asked = asked_usually; wanted = orders.Report (Some (codes "x.cert")) }) }
    ensures feed { AsksBank (words_in (codes "feed k.toml --seconds 60 --start 7"))
        (record { config = codes "k.toml"; asked = asked (Some 7) 60 0 52_596_000; wanted = orders.Sentences }) }
{}

/// What a run writes is one text, which is added to standard output.
pub fn what_is_written()
    ensures refused { outputs_of (Refused WordsUsage) ≡ record { file = codes "-"; anew = false; text = line (codes "words: usage") } ∷ [] }
{}

/// A decode reports an answer; so does a feed, unless the answer is decided.
pub fn what_is_reported()
    ensures decoded { (window : Window) (bank : Bank) (q : Sequence) (next : Option ℕ)
        → reported (orders.Report None) window bank (answer.Decided 7 q next) ≡ Report window (answer.Decided 7 q next) (duts_of window bank (answer.Decided 7 q next)) }
    ensures fed { (window : Window) (bank : Bank) (q : Sequence) (next : Option ℕ) → reported orders.Sentences window bank (answer.Decided 7 q next) ≡ Feed window q }
    ensures tie { (window : Window) (bank : Bank) (q r : Sequence)
        → reported orders.Sentences window bank (answer.Undecided 7 q r) ≡ Report window (answer.Undecided 7 q r) [] }
    ensures nothing { (window : Window) (bank : Bank) → reported orders.Sentences window bank answer.Nothing ≡ Report window answer.Nothing [] }
{}

/// A configuration that is refused, whatever the logs hold: for its size, and for the weight of its first receiver.
pub fn bad_configurations()
    ensures size { (config first second : List ℕ) → 1_000_000 < length config
        → IsDue (words_in (codes "decode k.toml")) (held config first second) (Refused ConfigTooLarge) }
    ensures weight { (config first second : List ℕ) → length config ≤ 1_000_000 → configuration_of config ≡ Err (OutOfRange (key.Weight 1))
        → IsDue (words_in (codes "decode k.toml")) (held config first second) (Refused (ConfigOutOfRange name.Weight (Some 1))) }
    ensures text { text_of (Refused (ConfigOutOfRange name.Weight (Some 1))) ≡ line (codes "configuration: out of range receiver 1 weight") }
{}

/// What is refused of a cost table is named with the receiver whose own it is, and of the bank's with none.
pub fn bad_tables()
    ensures bank { fault_refusal (OutOfRange (key.Second None)) ≡ Some (ConfigOutOfRange name.Second None) }
    ensures second { fault_refusal (OutOfRange (key.Second (Some 1))) ≡ Some (ConfigOutOfRange name.Second (Some 1)) }
    ensures low { fault_refusal (WrongKind (key.Low (Some 8))) ≡ Some (ConfigWrongKind name.Low (Some 8)) }
    ensures high { fault_refusal (OutOfRange (key.High (Some 1))) ≡ Some (ConfigOutOfRange name.High (Some 1)) }
    ensures table { fault_refusal (WrongKind (key.CostTable (Some 1))) ≡ Some (ConfigWrongKind name.Table (Some 1)) }
    ensures bank_text { text_of (Refused (ConfigOutOfRange name.Second None)) ≡ line (codes "configuration: out of range second") }
    ensures second_text { text_of (Refused (ConfigOutOfRange name.Second (Some 1))) ≡ line (codes "configuration: out of range receiver 1 second") }
    ensures table_text { text_of (Refused (ConfigWrongKind name.Table (Some 1))) ≡ line (codes "configuration: wrong kind receiver 1 table") }
{}

/// The logs of two receivers, which are numbered from 1.
pub fn logs_of_two_receivers()
    ensures { logs_of two_receivers
        ≡ record { receiver = 1; name = codes "north"; file = codes "n.log" } ∷ record { receiver = 2; name = codes "south"; file = codes "s.log" } ∷ [] }
{}

/// A log whose second record has the time of the first, or that is too large. The first bad one decides, and none behind it
/// is read.
pub fn bad_logs()
    ensures second { (config : List ℕ) → IsConfiguration config two_receivers
        → IsDue (words_in (codes "feed k.toml")) (held config (line (codes "12 L")) (line (codes "12 L") ++ line (codes "12 H")))
        (Refused (LogLine 2 (codes "south") 2 NotRising)) }
    ensures large { (config second : List ℕ) → IsConfiguration config two_receivers → 8_000_000 < length second
        → IsDue (words_in (codes "feed k.toml")) (held config (line (codes "12 L")) second) (Refused (LogTooLarge 2 (codes "south"))) }
    ensures first { (config second : List ℕ) → IsConfiguration config two_receivers
        → IsDue (words_in (codes "feed k.toml")) (held config (line (codes "12 L") ++ line (codes "12 H")) second) (Refused (LogLine 1 (codes "north") 2 NotRising)) }
    ensures read { (config second : List ℕ) → IsConfiguration config two_receivers
        → IsRead (words_in (codes "feed k.toml")) (held config (line (codes "12 L")) second) (LogOf 2) (codes "s.log") }
    ensures not_read { (config second : List ℕ) → IsConfiguration config two_receivers
        → ¬ (IsRead (words_in (codes "feed k.toml")) (held config (line (codes "12 L") ++ line (codes "12 H")) second) (LogOf 2) (codes "s.log")) }
    ensures text { text_of (Refused (LogLine 2 (codes "south") 2 NotRising)) ≡ line (codes "log 2 south: line 2: not rising") }
{}

/// The stations of a bank in mixed order, and the bank in the order of its stations.
pub fn stations_of_a_bank()
    ensures heard { stations_heard mixed ≡ record { mask = 9 } }
    ensures ordered { by_station mixed ≡ falls_once ∷ rises_at 0 (5237 ∷ []) ++ rises_at 0 (4237 ∷ []) }
{}

/// The first time is the least of all logs, delays aside; a log without a record has none.
pub fn first_times_of_logs()
    ensures second { first_time mixed ≡ 4236 }
    ensures delayed { first_time (rises_at 100 (4237 ∷ [])) ≡ 4236 }
    ensures silent { first_time (silent ∷ rises_at 0 (4237 ∷ [])) ≡ 4236 }
    ensures none { first_time (silent ∷ silent ∷ []) ≡ 0 }
{}

/// The window of a bank, from the first time on or from the start that is asked for: each edge is 1 ms after a whole second
/// of the one, and 237 ms after a whole second of the other.
pub fn windows_of_a_bank()
    ensures from_first { window_of (asked None 60 0 1440) mixed
        ≡ record { stations = record { mask = 9 }; start = 4236; phase = 1; seconds = 60; from = 0; to = 1440 } }
    ensures from_start { window_of (asked (Some 4000) 60 720 1440) mixed
        ≡ record { stations = record { mask = 9 }; start = 4000; phase = 237; seconds = 60; from = 720; to = 1440 } }
{}

/// What is asked about a trial, and the bank of the trial 29, which eight receivers hear.
pub fn bank_of_a_trial()
    ensures asked { trial_asked ≡ asked (Some 0) 1200 0 52_596_000 }
    ensures receivers { length (trial_bank 29).receivers ≡ 8 }
    ensures ceiling { (number : ℕ) → (trial_bank number).ceiling ≡ 1_920_000_000 }
    ensures tuning { (number receiver : ℕ) → (trial_receiver number receiver).heard.tuning ≡ record { delay = 0; weight = 1; table = None } }
{}

/// What is due of trial 5: two receivers of MSF heard what was sent from 2009-07-04T05:35Z on, from second 5 of that minute.
pub fn trial_that_is_due()
    ensures { (contents : Contents) (a : Answer) → IsBankAnswer (window_of trial_asked (trial_bank 5).receivers) (trial_bank 5) a
        → IsDue (words_in (codes "trial 5 --workers 2")) contents (Trial 5 Msf 2 (record { first = 5_000_015; second = 5; announced = false }) a) }
{}

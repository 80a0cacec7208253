//! What follows from the definitions: that a key, an answer, a date and words each speak of one thing.

ghost use Rattle.std.specs.Prelude.{ℕ, ◌≡◌, ◌≢◌, ◌<◌, ◌≤◌, Bool, true, List, Option, ℤ};
ghost use Rattle.std.specs.List.{Contains};
ghost use Rattle.signal_base.specs.declared.station.Station.{Station};
ghost use Rattle.signal_base.specs.declared.window.Window.{Window};
ghost use Rattle.signal_base.specs.Mask.{has_bit};
ghost use Rattle.signal_base.specs.Waveform.{symbol_count, waveform};
ghost use Rattle.definitions.specs.declared.sequence.Sequence.{Sequence};
ghost use Rattle.definitions.specs.declared.answer.Answer.{Answer};
ghost use Rattle.definitions.specs.time.Calendar.{day_at, century_days, century_minutes, minute_length};
ghost use Rattle.definitions.specs.codes.Vocabulary.{free, no_second};
ghost use Rattle.definitions.specs.codes.Allowed.{IsSetOf, allowed};
ghost use Rattle.definitions.specs.codes.Listing.{blank, listed};
ghost use Rattle.definitions.specs.heard.Dut1.{dut1_symbol, dut1_values, is_dut1_second};
ghost use Rattle.definitions.specs.heard.Receivers.{Receiver};
ghost use Rattle.definitions.specs.heard.Phase.{agreement, phase_of};
ghost use Rattle.definitions.specs.heard.Costs.{Costs, sequence_cost};
ghost use Rattle.definitions.specs.answers.Answers.{IsAdmitted, IsWindowAnswer};
ghost use Rattle.definitions.specs.answers.FirstTwo.{AreLeastTwo, IsWindowKey, answer_from};
ghost use Rattle.definitions.specs.sequences.Walks.{IsLegal, IsSequence, IsWalkable, ShowsLeap, unannounced};
ghost use Rattle.definitions.specs.sequences.Keys.{ceiling_key, cost_of, key_of, sequence_of};
ghost use Rattle.definitions.specs.time.Spelling.{day_text};

/// Two different sequences have different keys, whatever they cost, and a key gives its sequence and cost back. The
/// ceiling's key tells the keys of costs up to the ceiling from those beyond.
pub fn keys_differ()
    ensures differ { (c d : ℕ) (q r : Sequence) → IsSequence q → IsSequence r → q ≢ r → key_of c q ≢ key_of d r }
    ensures sequence { (c : ℕ) (q : Sequence) → IsSequence q → sequence_of (key_of c q) ≡ q }
    ensures cost { (c : ℕ) (q : Sequence) → IsSequence q → cost_of (key_of c q) ≡ c }
    ensures within { (ceiling c : ℕ) (q : Sequence) → IsSequence q → c ≤ ceiling → key_of c q ≤ ceiling_key ceiling }
    ensures beyond { (ceiling c : ℕ) (q : Sequence) → IsSequence q → ceiling < c → ceiling_key ceiling < key_of c q }
{}

/// There is exactly one answer for a window, costs and a ceiling.
pub fn window_has_one_answer()
    ensures some { (window : Window) (costs : Costs) (ceiling : ℕ) → window.to ≤ century_minutes → (a : Answer) × IsWindowAnswer window costs ceiling a }
    ensures one { (window : Window) (costs : Costs) (ceiling : ℕ) (a b : Answer) → window.to ≤ century_minutes
        → IsWindowAnswer window costs ceiling a → IsWindowAnswer window costs ceiling b → a ≡ b }
{}

/// The phase is one of the milliseconds of a second; none fits the start edges better, and no lesser one as well.
pub fn phase_fits_best()
    ensures range { (start n : ℕ) (bank : List Receiver) → phase_of start n bank < 1000 }
    ensures best { (start n : ℕ) (bank : List Receiver) (f : ℕ) → f < 1000 → agreement start n bank f ≤ agreement start n bank (phase_of start n bank) }
    ensures first { (start n : ℕ) (bank : List Receiver) (f : ℕ) → f < phase_of start n bank → agreement start n bank f < agreement start n bank (phase_of start n bank) }
{}

/// Different days of the century have different dates.
pub fn days_differ()
    ensures { (m n : ℕ) → m < century_days → n < century_days
        → day_text (day_at m) ≡ day_text (day_at n) → m ≡ n }
{}

/// Different symbols of a station have different waveforms.
pub fn waveforms_differ()
    ensures { (station : Station) (x y : ℕ) → x < symbol_count station → y < symbol_count station
        → waveform station x ≡ waveform station y → x ≡ y }
{}

/// Each second that a minute has may carry one of the station's symbols, or 0 and 1 alike, or it isn't scored, and is listed
/// by a character; after them comes none.
pub fn each_second_is_sent()
    ensures sent { (station : Station) (announced : Bool) (t s : ℕ) → s < minute_length announced t → IsSetOf station (allowed station announced (t, s)) }
    ensures listed { (station : Station) (announced : Bool) (t s : ℕ) → s < minute_length announced t → listed station (allowed station announced (t, s)) ≢ blank }
    ensures ends { (station : Station) (announced : Bool) (t s : ℕ) → minute_length announced t ≤ s → allowed station announced (t, s) ≡ no_second }
{}

/// The seconds that tell DUT1 may carry a 0 or a 1, each value of it is told by these, and different values differ in some
/// such second.
pub fn dut1_is_told_by_free_seconds()
    ensures sets { (station : Station) (announced : Bool) (t s : ℕ) → is_dut1_second station s ≡ true → allowed station announced (t, s) ≡ free }
    ensures symbols { (station : Station) (d : ℤ) (s : ℕ) → has_bit free (dut1_symbol station d s) ≡ true }
    ensures differ { (station : Station) (c d : ℤ) → Contains (dut1_values station) c → Contains (dut1_values station) d → c ≢ d
        → (s : ℕ) × (is_dut1_second station s ≡ true) × (dut1_symbol station c s ≢ dut1_symbol station d s) }
{}

/// A legal sequence that is announced, and would be walkable without the announcement, shows it in some slot, unless it
/// begins with the leap second.
pub fn announcements_show()
    ensures { (window : Window) (q : Sequence) → IsLegal window q → q.announced ≡ true → q.second ≢ 60 → IsWalkable window (unannounced q) → ShowsLeap window q }
{}

/// A window admits its legal sequences that cost no more than the ceiling, those of its very cost too.
pub fn the_ceiling_is_admitted()
    ensures within { (window : Window) (costs : Costs) (q : Sequence) → IsLegal window q
        → IsAdmitted (IsLegal window) (sequence_cost costs window) (sequence_cost costs window q) q }
    ensures beyond { (window : Window) (costs : Costs) (ceiling : ℕ) (q : Sequence) → ceiling < sequence_cost costs window q
        → ¬ (IsAdmitted (IsLegal window) (sequence_cost costs window) ceiling q) }
{}

/// The least two keys of the sequences that a window admits give its answer.
pub fn the_least_two_are_the_answer()
    ensures { (window : Window) (costs : Costs) (ceiling : ℕ) (first second : Option ℕ) → window.to ≤ century_minutes
        → AreLeastTwo (IsWindowKey window costs ceiling) first second → IsWindowAnswer window costs ceiling (answer_from first second) }
{}

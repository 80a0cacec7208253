//! Laws of clean logs and trials: what they tell, and that their texts are logs.

ghost use Rattle.std.specs.Prelude.{ℕ, ◌≡◌, ◌*◌, ◌<◌, ◌≤◌, true, length, pos};
ghost use Rattle.signal_base.specs.declared.station.Station.{Station};
ghost use Rattle.signal_base.specs.declared.limits.TheConstants.{MOST_SECONDS};
ghost use Rattle.definitions.specs.declared.sequence.Sequence.{Sequence};
ghost use Rattle.definitions.specs.heard.Dut1.{dut1_symbol, is_dut1_second};
ghost use Rattle.definitions.specs.heard.Logs.{level_at};
ghost use Rattle.definitions.specs.sequences.Walks.{place_at};
ghost use Rattle.formats.specs.declared.limits.TheConstants.{LOG_LIMIT};
ghost use Rattle.formats.specs.LogLines.{IsLog};
ghost use Rattle.trial_log.specs.Clean.{clean_level, clean_log, log_text, symbol_at};
ghost use Rattle.trial_log.specs.Trials.{trial_records};

/// The text of a clean log of up to 1,200 seconds is a log of its records, and so is what a receiver of a trial hears. It
/// has no more bytes than a log may have.
pub fn trials_are_logs()
    ensures clean { (station : Station) (q : Sequence) (n : ℕ) → n ≤ MOST_SECONDS → IsLog (log_text (clean_log station q n)) (clean_log station q n) }
    ensures heard { (number receiver : ℕ) → IsLog (log_text (trial_records number receiver)) (trial_records number receiver) }
    ensures fits { (number receiver : ℕ) → length (log_text (trial_records number receiver)) ≤ LOG_LIMIT }
{}

/// A clean log tells at each of its milliseconds the level of what is sent, and a DUT1 of 0.
pub fn clean_logs_tell_what_is_sent()
    ensures level { (station : Station) (q : Sequence) (n m : ℕ) → m < 1000 * n → level_at (clean_log station q n) m ≡ clean_level station q m }
    ensures dut1 { (station : Station) (q : Sequence) (k : ℕ) → is_dut1_second station (place_at q k).1 ≡ true
        → symbol_at station q k ≡ dut1_symbol station (pos 0) (place_at q k).1 }
{}

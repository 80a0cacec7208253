//! Laws of the command line: a number and a minute have one text each, and what words ask for is in its ranges.

ghost use Rattle.std.specs.Prelude.{ℕ, ◌≡◌, ◌<◌, ◌-◌, ◌^◌, List, Ok, Some, false, nat_le, true};
ghost use Rattle.std.specs.Fmt.{decimal};
ghost use Rattle.definitions.specs.time.Calendar.{century_minutes};
ghost use Rattle.definitions.specs.time.Spelling.{minute_text};
ghost use Rattle.signal_base.specs.declared.station.Station.TheVariants.{Dcf77, Jjy, Msf, Wwvb};
ghost use Rattle.formats.specs.declared.option.OptionName.TheVariants.{Minute};
ghost use Rattle.formats.specs.declared.words.Command.{Command};
ghost use Rattle.formats.specs.declared.words.Command.TheVariants.{Encode};
ghost use Rattle.formats.specs.OrderRanges.{IsInRange, is_run_order};
ghost use Rattle.formats.specs.Orders.{Order, order_of};
ghost use Rattle.formats.specs.Words.{Line, is_run, line_of, reach_commands, run_commands};
ghost use Rattle.formats.specs.WordValues.{minute_of, number_of, suits};

/// A text says a number only if it is the decimal text of it, and each number of 64 bits is said by that text.
pub fn numbers_have_one_text()
    ensures text { (text : List ℕ) (n : ℕ) → number_of text ≡ Some n → text ≡ decimal n }
    ensures number { (n : ℕ) → n < 2 ^ 64 → number_of (decimal n) ≡ Some n }
{}

/// A text says a minute only if it is the text of it, and each minute of the century is said by that text.
pub fn minutes_have_one_text()
    ensures text { (text : List ℕ) (t : ℕ) → minute_of text ≡ Some t → (t < century_minutes) × (text ≡ minute_text t) }
    ensures minute { (t : ℕ) → t < century_minutes → minute_of (minute_text t) ≡ Some t }
{}

/// The last minutes that stations can be asked to send, each with the year 2099: 22:58, 23:58, 23:59 and 14:59 UTC of
/// 31 December 2099.
pub fn last_minutes_suit()
    ensures dcf77 { (t : ℕ) → t < century_minutes → suits (Encode Dcf77) Minute t ≡ nat_le t (century_minutes - 62) }
    ensures msf { (t : ℕ) → t < century_minutes → suits (Encode Msf) Minute t ≡ nat_le t (century_minutes - 2) }
    ensures wwvb { (t : ℕ) → t < century_minutes → suits (Encode Wwvb) Minute t ≡ nat_le t (century_minutes - 1) }
    ensures jjy { (t : ℕ) → t < century_minutes → suits (Encode Jjy) Minute t ≡ nat_le t (century_minutes - 541) }
{}

/// What words ask for is in its ranges: names of files aren't empty and don't begin with `-`, numbers are in the range of
/// their option, some minutes of the century are asked for, and a minute to be sent is one that the station can send.
pub fn orders_are_in_range()
    ensures { (commands : List Command) (words : List (List ℕ)) (order : Order) → order_of commands words ≡ Ok order → IsInRange order }
{}

/// Words for a run have a command of a run and ask for an order of a run, and words beyond it don't.
pub fn words_keep_to_their_commands()
    ensures run { (words : List (List ℕ)) (line : Line) → line_of run_commands words ≡ Some line → is_run line.command ≡ true }
    ensures reach { (words : List (List ℕ)) (line : Line) → line_of reach_commands words ≡ Some line → is_run line.command ≡ false }
    ensures run_order { (words : List (List ℕ)) (order : Order) → order_of run_commands words ≡ Ok order → is_run_order order ≡ true }
    ensures reach_order { (words : List (List ℕ)) (order : Order) → order_of reach_commands words ≡ Ok order → is_run_order order ≡ false }
{}

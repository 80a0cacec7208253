//! Command lines and what becomes of them, which the checker computes from the grammar.
#![tactic(auto, unfolding(crate::specs::Examples::digits, crate::specs::WordValues::number_of))]

ghost use Rattle.std.specs.Prelude.{◌≡◌, [], ◌∷◌, codes, false, true, Err, None, Ok, Some};
ghost use Rattle.signal_base.specs.declared.station.Station.TheVariants.{Dcf77, Jjy, Msf, Wwvb};
ghost use Rattle.formats.specs.declared.option.OptionName.TheVariants.{Count, From, Leap, Minute, Number, Readers, Seconds, Start, Step, To, Workers};
ghost use Rattle.formats.specs.declared.words.Command.TheVariants as command;
ghost use Rattle.formats.specs.declared.words.ValueKind.TheVariants.{Minute as AMinute, Number as ANumber};
ghost use Rattle.formats.specs.declared.words.WordFault.TheVariants.{BadMinute, BadNumber, EmptyRange, Usage};
ghost use Rattle.formats.specs.Orders.{order_of};
ghost use Rattle.formats.specs.Orders.Order.{Board, Check, Decode, Encode, Feed, Follow, Irig, IrigRead, Judge, Sweep, Trial};
ghost use Rattle.formats.specs.WordExamples.{asked, asked_usually, reach_of, run_of, taking};
ghost use Rattle.formats.specs.Words.{form_of, reach_commands, run_commands};
ghost use Rattle.formats.specs.WordValues.{kind_of, number_of};

/// What each command takes, in full.
pub fn forms()
    ensures decode { form_of command.Decode ≡ taking (codes "decode") 1 (codes "--start --seconds --from --to --workers --certificate") }
    ensures check { form_of command.Check ≡ taking (codes "check") 2 (codes "--start --seconds --from --to") }
    ensures feed { form_of command.Feed ≡ taking (codes "feed") 1 (codes "--start --seconds --from --to --workers") }
    ensures encode_dcf77 { form_of (command.Encode Dcf77) ≡ taking (codes "encode dcf77") 1 (codes "--leap") }
    ensures encode_msf { form_of (command.Encode Msf) ≡ taking (codes "encode msf") 1 (codes "--leap") }
    ensures encode_wwvb { form_of (command.Encode Wwvb) ≡ taking (codes "encode wwvb") 1 (codes "--leap") }
    ensures encode_jjy { form_of (command.Encode Jjy) ≡ taking (codes "encode jjy") 1 (codes "--leap") }
    ensures trial { form_of command.Trial ≡ taking (codes "trial") 1 (codes "--workers") }
    ensures follow { form_of command.Follow ≡ taking (codes "follow") 1 (codes "--start --seconds --from --to --workers --step --count") }
    ensures sweep { form_of command.Sweep ≡ taking (codes "sweep") 1 (codes "--start --seconds --from --to --workers --certificate") }
    ensures judge { form_of command.Judge ≡ taking (codes "judge") 2 (codes "--start --seconds --from --to") }
    ensures board { form_of command.Board ≡ taking (codes "board") 2 (codes "--start --seconds --from --to --workers --step --count --readers") }
    ensures irig { form_of command.Irig ≡ taking (codes "irig") 1 (codes "--start --seconds --from --to --workers") }
    ensures irig_read { form_of command.IrigRead ≡ record { words = codes "irig-read" ∷ []; places = 1; options = [] } }
{}

/// The commands of a run without options.
pub fn defaults()
    ensures decode { run_of (codes "decode k.toml") ≡ Ok (Decode (codes "k.toml") asked_usually 4 None) }
    ensures check { run_of (codes "check k.toml x.cert") ≡ Ok (Check (codes "k.toml") (codes "x.cert") asked_usually) }
    ensures feed { run_of (codes "feed k.toml") ≡ Ok (Feed (codes "k.toml") asked_usually 4) }
    ensures encode { run_of (codes "encode wwvb 2024-02-29T12:34Z") ≡ Ok (Encode Wwvb 12_708_754 false) }
    ensures trial { run_of (codes "trial 0") ≡ Ok (Trial 0 4) }
{}

/// The commands beyond a run without options.
pub fn defaults_beyond_a_run()
    ensures follow { reach_of (codes "follow k.toml") ≡ Ok (Follow (codes "k.toml") asked_usually 4 60 10) }
    ensures sweep { reach_of (codes "sweep k.toml") ≡ Ok (Sweep (codes "k.toml") asked_usually 4 None) }
    ensures judge { reach_of (codes "judge k.toml s") ≡ Ok (Judge (codes "k.toml") (codes "s") asked_usually) }
    ensures board { reach_of (codes "board k.toml q.txt") ≡ Ok (Board (codes "k.toml") (codes "q.txt") asked_usually 4 60 10 2) }
    ensures irig { reach_of (codes "irig k.toml") ≡ Ok (Irig (codes "k.toml") asked_usually 4) }
    ensures irig_read { reach_of (codes "irig-read f.txt") ≡ Ok (IrigRead (codes "f.txt")) }
{}

/// The commands of a run with all their options.
pub fn options()
    ensures decode { run_of (codes "decode k.toml --certificate x.cert --workers 8 --to 2024-06-10T23:59Z --from 2024-06-10T00:00Z --seconds 60 --start 7")
        ≡ Ok (Decode (codes "k.toml") (asked (Some 7) 60 12_854_880 12_856_320) 8 (Some (codes "x.cert"))) }
    ensures check { run_of (codes "check k.toml x.cert --seconds 1200 --from 2024-06-10T00:00Z --to 2024-06-10T00:00Z --start 999999999999")
        ≡ Ok (Check (codes "k.toml") (codes "x.cert") (asked (Some 999_999_999_999) 1200 12_854_880 12_854_881)) }
    ensures feed { run_of (codes "feed k.toml --start 0 --seconds 61 --from 2024-06-10T00:00Z --workers 1")
        ≡ Ok (Feed (codes "k.toml") (asked (Some 0) 61 12_854_880 52_596_000) 1) }
    ensures encode { run_of (codes "encode msf 2016-12-31T23:59Z --leap 1") ≡ Ok (Encode Msf 8_942_399 true) }
    ensures trial { run_of (codes "trial 4294967295 --workers 2") ≡ Ok (Trial 4_294_967_295 2) }
{}

/// The commands beyond a run with all their options.
pub fn options_beyond_a_run()
    ensures follow { reach_of (codes "follow k.toml --count 1000 --step 1200 --workers 8 --seconds 62 --start 5")
        ≡ Ok (Follow (codes "k.toml") (asked (Some 5) 62 0 52_596_000) 8 1200 1000) }
    ensures sweep { reach_of (codes "sweep k.toml --certificate s --workers 3 --seconds 63") ≡ Ok (Sweep (codes "k.toml") (asked None 63 0 52_596_000) 3 (Some (codes "s"))) }
    ensures judge { reach_of (codes "judge k.toml s --seconds 64 --start 9") ≡ Ok (Judge (codes "k.toml") (codes "s") (asked (Some 9) 64 0 52_596_000)) }
    ensures board { reach_of (codes "board k.toml q.txt --readers 3 --count 2 --step 61 --workers 5 --seconds 65 --start 11")
        ≡ Ok (Board (codes "k.toml") (codes "q.txt") (asked (Some 11) 65 0 52_596_000) 5 61 2 3) }
    ensures irig { reach_of (codes "irig k.toml --workers 6 --seconds 66") ≡ Ok (Irig (codes "k.toml") (asked None 66 0 52_596_000) 6) }
{}

/// What the text of each value may be.
pub fn kinds()
    ensures number { kind_of Number ≡ ANumber 0 4_294_967_295 }
    ensures minute { kind_of Minute ≡ AMinute }
    ensures start { kind_of Start ≡ ANumber 0 999_999_999_999 }
    ensures seconds { kind_of Seconds ≡ ANumber 60 1200 }
    ensures from { kind_of From ≡ AMinute }
    ensures to { kind_of To ≡ AMinute }
    ensures workers { kind_of Workers ≡ ANumber 1 8 }
    ensures leap { kind_of Leap ≡ ANumber 0 1 }
    ensures step { kind_of Step ≡ ANumber 1 1200 }
    ensures count { kind_of Count ≡ ANumber 1 1000 }
    ensures readers { kind_of Readers ≡ ANumber 1 4 }
{}

/// Numbers are decimal digits without a sign or a needless zero.
pub fn numbers()
    ensures zero { number_of (codes "0") ≡ Some 0 }
    ensures ten { number_of (codes "10") ≡ Some 10 }
    ensures needless { number_of (codes "08") ≡ None }
    ensures two_zeros { number_of (codes "00") ≡ None }
    ensures plus { number_of (codes "+8") ≡ None }
    ensures hexadecimal { number_of (codes "a") ≡ None }
    ensures behind { number_of (codes "8 ") ≡ None }
    ensures nothing { number_of [] ≡ None }
{}

/// The first bad value is told, in an order of its own and not in that of the words. An empty range comes last.
pub fn bad_values()
    ensures number { run_of (codes "trial 4294967296 --workers 9") ≡ Err (BadNumber Number) }
    ensures minute { run_of (codes "encode msf 1 --leap 2") ≡ Err (BadMinute Minute) }
    ensures leap { run_of (codes "encode msf 2016-12-31T23:59Z --leap 2") ≡ Err (BadNumber Leap) }
    ensures start { run_of (codes "decode k.toml --seconds 59 --start 1000000000000") ≡ Err (BadNumber Start) }
    ensures seconds { run_of (codes "decode k.toml --from 1 --seconds 59") ≡ Err (BadNumber Seconds) }
    ensures from { run_of (codes "decode k.toml --to 1 --from 1") ≡ Err (BadMinute From) }
    ensures to { run_of (codes "decode k.toml --workers 9 --to 1") ≡ Err (BadMinute To) }
    ensures workers { reach_of (codes "follow k.toml --step 0 --workers 9") ≡ Err (BadNumber Workers) }
    ensures step { reach_of (codes "follow k.toml --count 0 --step 0") ≡ Err (BadNumber Step) }
    ensures count { reach_of (codes "board k.toml q.txt --readers 0 --count 0") ≡ Err (BadNumber Count) }
    ensures readers { reach_of (codes "board k.toml q.txt --from 2024-06-10T23:59Z --to 2024-06-10T00:00Z --readers 0") ≡ Err (BadNumber Readers) }
    ensures empty { run_of (codes "decode k.toml --from 2024-06-10T23:59Z --to 2024-06-10T00:00Z") ≡ Err EmptyRange }
{}

/// The first minutes that DCF77 and JJY can't be asked to send.
pub fn minutes_that_no_station_sends()
    ensures dcf77 { run_of (codes "encode dcf77 2099-12-31T22:59Z") ≡ Err (BadMinute Minute) }
    ensures jjy { run_of (codes "encode jjy 2099-12-31T15:00Z") ≡ Err (BadMinute Minute) }
{}

/// Words that don't follow the grammar, whatever their values are.
pub fn usage()
    ensures nothing { order_of run_commands [] ≡ Err Usage }
    ensures place_left_out { run_of (codes "decode") ≡ Err Usage }
    ensures second_place_left_out { run_of (codes "check k.toml --seconds 60") ≡ Err Usage }
    ensures place_too_many { run_of (codes "decode k.toml x.cert") ≡ Err Usage }
    ensures empty_place { run_of (codes "decode ") ≡ Err Usage }
    ensures option_at_a_place { run_of (codes "decode --seconds 60") ≡ Err Usage }
    ensures value_left_out { run_of (codes "decode k.toml --seconds") ≡ Err Usage }
    ensures empty_value { run_of (codes "decode k.toml --seconds ") ≡ Err Usage }
    ensures value_that_begins_like_an_option { run_of (codes "decode k.toml --start -1") ≡ Err Usage }
    ensures equals { run_of (codes "decode k.toml --seconds=60") ≡ Err Usage }
    ensures two_hyphens { run_of (codes "decode -- k.toml") ≡ Err Usage }
    ensures twice { run_of (codes "decode k.toml --seconds 60 --workers 4 --seconds 61") ≡ Err Usage }
    ensures option_of_another { run_of (codes "decode k.toml --step 60") ≡ Err Usage }
    ensures unknown_station { run_of (codes "encode bpc 1") ≡ Err Usage }
    ensures unknown_command { run_of (codes "Decode k.toml") ≡ Err Usage }
    ensures beyond_a_run { run_of (codes "follow k.toml --seconds 59") ≡ Err Usage }
    ensures not_beyond_a_run { reach_of (codes "decode k.toml") ≡ Err Usage }
    ensures before_a_bad_value { run_of (codes "decode k.toml --seconds 59 --what 1") ≡ Err Usage }
{}

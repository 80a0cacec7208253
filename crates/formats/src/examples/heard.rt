//! What was heard of windows, spelled out. The costs of the three receivers were worked out by hand.
#![tactic(auto, unfolding(crate::specs::Examples::digits, crate::specs::Heard::slots_lines, definitions::specs::heard::Costs::sum_below, definitions::specs::heard::Logs::low_count, definitions::specs::sequences::Walks::place_at, definitions::specs::time::Calendar::day_at, definitions::specs::time::Summer::eu_change_within, definitions::specs::time::Summer::season_at, signal_base::specs::Table::difference_table))]

ghost use Rattle.std.specs.Prelude.{◌≡◌, ◌∷◌, ◌++◌, [], None, Some, codes, sum_by};
ghost use Rattle.signal_base.specs.declared.station.Station.TheVariants.{Dcf77, Jjy, Msf};
ghost use Rattle.definitions.specs.heard.Costs.{sequence_cost};
ghost use Rattle.definitions.specs.examples.Receivers.{heard};
ghost use Rattle.definitions.specs.examples.Sequences.{from_place};
ghost use Rattle.formats.specs.Bytes.{line};
ghost use Rattle.formats.specs.Heard.{costs_of, heard_text, receiver_sums};
ghost use Rattle.formats.specs.HeardExamples.{line_by_ones, line_by_symbol, three_receivers, two_seconds};

/// Seconds that carry one symbol, that may carry a 0 or a 1, and that aren't scored. Of symbols that cost the same the first
/// is told.
pub fn slots_by_their_sets()
    ensures scored { line_by_symbol (1 ∷ 3 ∷ 7 ∷ []) (from_place 720 0) 20 Dcf77 ≡ line (codes "slot 20 2000-01-01T12:00Z 20 dcf77 sent 1 cost 3 best 0 cost 1") }
    ensures unreduced { line_by_symbol (1 ∷ 3 ∷ 7 ∷ []) (from_place 720 30) 29 Dcf77 ≡ line (codes "slot 29 2000-01-01T12:00Z 59 dcf77 sent - cost 7 best 0 cost 1") }
    ensures marker { line_by_symbol (9 ∷ 8 ∷ 7 ∷ 6 ∷ 5 ∷ []) (from_place 720 0) 0 Msf ≡ line (codes "slot 0 2000-01-01T12:00Z 0 msf sent M cost 5 best M cost 5") }
    ensures free { line_by_symbol (7 ∷ 6 ∷ 3 ∷ []) (from_place 720 0) 5 Dcf77 ≡ line (codes "slot 5 2000-01-01T12:00Z 5 dcf77 sent 1 cost 6 best - cost 3") }
    ensures equal { line_by_symbol (4 ∷ 4 ∷ 4 ∷ []) (from_place 720 0) 5 Dcf77 ≡ line (codes "slot 5 2000-01-01T12:00Z 5 dcf77 sent 0 cost 4 best 0 cost 4") }
    ensures not_scored { line_by_symbol (4 ∷ 2 ∷ 9 ∷ []) (from_place 705 0) 40 Jjy ≡ line (codes "slot 40 2000-01-01T11:45Z 40 jjy sent * cost 0 best 1 cost 2") }
{}

/// Seconds that tell DUT1: of -3 tenths, where another second was disturbed; of -2, which fits as well as 0 and comes first;
/// of 0, where one second alone tells otherwise, and over a midnight, where each is free.
pub fn slots_by_their_dut1()
    ensures told { line_by_ones (9 ∷ 10 ∷ 11 ∷ 16 ∷ []) (from_place 720 0) 11 ≡ line (codes "slot 11 2000-01-01T12:00Z 11 msf sent 1 cost 0 best 1 cost 0") }
    ensures disturbed { line_by_ones (9 ∷ 10 ∷ 11 ∷ 16 ∷ []) (from_place 720 0) 16 ≡ line (codes "slot 16 2000-01-01T12:00Z 16 msf sent 0 cost 100 best 1 cost 0") }
    ensures tied { line_by_ones (10 ∷ []) (from_place 720 0) 9 ≡ line (codes "slot 9 2000-01-01T12:00Z 9 msf sent 1 cost 100 best 0 cost 0") }
    ensures one_day { line_by_ones (11 ∷ []) (from_place 720 0) 11 ≡ line (codes "slot 11 2000-01-01T12:00Z 11 msf sent 0 cost 100 best 1 cost 0") }
    ensures two_days { line_by_ones (41 ∷ []) (from_place 1439 30) 41 ≡ line (codes "slot 41 2000-01-02T00:00Z 11 msf sent 1 cost 0 best 1 cost 0") }
{}

/// A whole text, of two seconds that three receivers heard: in each second station by station, with the tenth of a second
/// that one of them didn't hear, and at its end what the next sequence costs.
pub fn text_of_two_seconds()
    ensures { heard_text (two_seconds 9 (Some 600) three_receivers)
        ≡ line (codes "slot 0 2000-01-01T12:00Z 15 dcf77 sent 0 cost 115 best 0 cost 115")
        ++ line (codes "receiver 1 unknown 0 cost 105") ++ line (codes "receiver 3 unknown 0 cost 10")
        ++ line (codes "slot 0 2000-01-01T12:00Z 15 jjy sent 0 cost 0 best 0 cost 0") ++ line (codes "receiver 2 unknown 0 cost 0")
        ++ line (codes "slot 1 2000-01-01T12:00Z 16 dcf77 sent 0 cost 25 best 0 cost 25")
        ++ line (codes "receiver 1 unknown 0 cost 5") ++ line (codes "receiver 3 unknown 1 cost 20")
        ++ line (codes "slot 1 2000-01-01T12:00Z 16 jjy sent 0 cost 300 best 1 cost 0") ++ line (codes "receiver 2 unknown 0 cost 300")
        ++ line (codes "sum receiver 1 unknown 0 cost 110") ++ line (codes "sum receiver 2 unknown 0 cost 300")
        ++ line (codes "sum receiver 3 unknown 1 cost 30") ++ line (codes "next 600") }
{}

/// The sums of the three receivers add up to what the sequence costs.
pub fn sums_of_two_seconds()
    ensures sum { sum_by (λ r. r.cost) (receiver_sums (two_seconds 9 (Some 600) three_receivers)) ≡ 440 }
    ensures cost { sequence_cost (costs_of (two_seconds 9 (Some 600) three_receivers)) (two_seconds 9 (Some 600) three_receivers).window (two_seconds 9 (Some 600) three_receivers).sequence ≡ 440 }
{}

/// The text of one receiver that heard nothing: all its tenths are unknown and cost nothing, and there is no next sequence.
pub fn text_of_silence()
    ensures { heard_text (two_seconds 1 None (heard Dcf77 0 1 [] ∷ []))
        ≡ line (codes "slot 0 2000-01-01T12:00Z 15 dcf77 sent 0 cost 0 best 0 cost 0") ++ line (codes "receiver 1 unknown 10 cost 0")
        ++ line (codes "slot 1 2000-01-01T12:00Z 16 dcf77 sent 0 cost 0 best 0 cost 0") ++ line (codes "receiver 1 unknown 10 cost 0")
        ++ line (codes "sum receiver 1 unknown 20 cost 0") ++ line (codes "next none") }
{}

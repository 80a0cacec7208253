//! Worked examples of what receivers heard.

ghost use Rattle.std.specs.Prelude.{◌≡◌, ◌-◌, ◌∷◌, ◌++◌, [], map, pos, negsuc};
ghost use Rattle.std.specs.List.{range_with_len};
ghost use Rattle.signal_base.specs.declared.station.Station.TheVariants.{Dcf77, Msf, Wwvb, Jjy};
ghost use Rattle.signal_base.specs.declared.dut.Dut.TheVariants.{Absent, Free, Tied, Tenths};
ghost use Rattle.signal_base.specs.Table.{difference_table};
ghost use Rattle.definitions.specs.time.Calendar.{century_minutes};
ghost use Rattle.definitions.specs.declared.level.Level.TheVariants.{High, Low, Unknown};
ghost use Rattle.definitions.specs.heard.Dut1.{dut1_values};
ghost use Rattle.definitions.specs.heard.Logs.{level_at};
ghost use Rattle.definitions.specs.heard.Phase.{phase_of, start_edges};
ghost use Rattle.definitions.specs.heard.Costs.{bank_costs, sequence_cost, set_cost, station_cost};
ghost use Rattle.definitions.specs.codes.Allowed.{stations_of};
ghost use Rattle.definitions.specs.codes.Vocabulary.{free};
ghost use Rattle.definitions.specs.examples.Receivers.{at_odds, broken_off, costs_in, dut_heard, each_change, ones_heard, rises_at, silence, two_pulses};
ghost use Rattle.definitions.specs.examples.Sequences.{from_place, window_of};

/// The levels before the first record, from it on, and from the last record on.
pub fn levels_of_a_log()
    ensures records { map (level_at ((3, High) ∷ (5, Low) ∷ (7, High) ∷ [])) (2 ∷ 3 ∷ 4 ∷ 5 ∷ 6 ∷ 7 ∷ [])
        ≡ Unknown ∷ High ∷ High ∷ Low ∷ Low ∷ Unknown ∷ [] }
    ensures none { level_at [] 0 ≡ Unknown }
{}

/// A pulse that is 5 ms too short or too long costs 5, and 100 more under the other bit.
pub fn two_pulses_cost()
    ensures zero { costs_in two_pulses Dcf77 0 (0 ∷ 1 ∷ 2 ∷ []) ≡ 5 ∷ 105 ∷ 95 ∷ [] }
    ensures one { costs_in two_pulses Dcf77 1 (0 ∷ 1 ∷ 2 ∷ []) ≡ 105 ∷ 5 ∷ 205 ∷ [] }
    ensures later { map (bank_costs difference_table two_pulses 1000 Dcf77 0) (0 ∷ 1 ∷ 2 ∷ []) ≡ 105 ∷ 5 ∷ 205 ∷ [] }
    ensures other { costs_in two_pulses Jjy 0 (0 ∷ 1 ∷ 2 ∷ []) ≡ 0 ∷ 0 ∷ 0 ∷ [] }
{}

/// A second without a pulse costs each low tenth of a symbol, the last one too.
pub fn silence_costs()
    ensures { costs_in silence Jjy 0 (0 ∷ 1 ∷ 2 ∷ []) ≡ 200 ∷ 500 ∷ 800 ∷ [] }
{}

/// A tenth of which a millisecond is unknown costs nothing.
pub fn unknown_tenths_cost_nothing()
    ensures { costs_in broken_off Wwvb 0 (0 ∷ 1 ∷ 2 ∷ []) ≡ 0 ∷ 200 ∷ 200 ∷ [] }
{}

/// Receivers are summed by their weights before a symbol is chosen.
pub fn receivers_at_odds()
    ensures symbols { costs_in at_odds Msf 0 (0 ∷ 1 ∷ []) ≡ 100 ∷ 300 ∷ [] }
    ensures set { set_cost Msf (bank_costs difference_table at_odds 0 Msf 0) free ≡ 100 }
{}

/// A second begins as the carrier falls, and at JJY as it rises; beside a level that isn't known nothing begins.
pub fn edges_that_begin_a_second()
    ensures dcf77 { start_edges Dcf77 each_change ≡ 300 ∷ [] }
    ensures msf { start_edges Msf each_change ≡ 300 ∷ [] }
    ensures wwvb { start_edges Wwvb each_change ≡ 300 ∷ [] }
    ensures jjy { start_edges Jjy each_change ≡ 200 ∷ [] }
{}

/// A phase is that of the seconds as they were heard, a delay of the receiver aside; two receivers are heard together.
pub fn phase_of_rises()
    ensures plain { phase_of 0 3 (rises_at 0 (237 ∷ 1237 ∷ 2237 ∷ [])) ≡ 237 }
    ensures delayed { phase_of 0 3 (rises_at 237 (237 ∷ 1237 ∷ 2237 ∷ [])) ≡ 0 }
    ensures together { phase_of 0 3 (rises_at 0 (237 ∷ []) ++ rises_at 0 (1260 ∷ 2260 ∷ [])) ≡ 260 }
{}

/// Which edges a phase is of: those that fall at DCF77, and in a window of so many seconds, from its first millisecond
/// up to, and without, the one after its last.
pub fn edges_of_a_phase()
    ensures falls { phase_of 0 3 two_pulses ≡ 0 }
    ensures inside { phase_of 1000 1 (rises_at 0 (500 ∷ 1237 ∷ 2000 ∷ 3000 ∷ [])) ≡ 237 }
    ensures first { phase_of 1000 3 (rises_at 0 (1000 ∷ 1500 ∷ 2000 ∷ 2500 ∷ [])) ≡ 0 }
{}

/// An edge counts for a phase where it is less than 50 ms away, on the circle of a second.
pub fn edges_near_a_phase()
    ensures near { phase_of 1000 3 (rises_at 0 (1000 ∷ 2049 ∷ 3098 ∷ [])) ≡ 49 }
    ensures not_near { phase_of 1000 3 (rises_at 0 (1000 ∷ 2050 ∷ 3100 ∷ [])) ≡ 0 }
    ensures round { phase_of 1000 3 (rises_at 0 (1990 ∷ 3010 ∷ [])) ≡ 0 }
    ensures not_quite_round { phase_of 1000 3 (rises_at 0 (1999 ∷ 3049 ∷ [])) ≡ 0 }
{}

/// DUT1 as a minute tells it: of MSF two negative tenths, a tie of -2 and 0, and none; of WWVB -3; the most and the fewest
/// tenths of each; and what isn't told. A minute up to midnight, the last of its day, tells one value.
pub fn dut1_heard()
    ensures negative { dut_heard Msf (9 ∷ 10 ∷ []) (from_place 720 0) ≡ Tenths (negsuc 1) }
    ensures tied { dut_heard Msf (10 ∷ []) (from_place 720 0) ≡ Tied }
    ensures nought { dut_heard Msf [] (from_place 720 0) ≡ Tenths (pos 0) }
    ensures wwvb { dut_heard Wwvb (37 ∷ 42 ∷ 43 ∷ []) (from_place 720 0) ≡ Tenths (negsuc 2) }
    ensures most { dut_heard Msf (1 ∷ 2 ∷ 3 ∷ 4 ∷ 5 ∷ 6 ∷ 7 ∷ 8 ∷ []) (from_place 720 0) ≡ Tenths (pos 8) }
    ensures beyond { dut_heard Msf (1 ∷ 2 ∷ 3 ∷ 4 ∷ 5 ∷ 6 ∷ 7 ∷ 8 ∷ 9 ∷ []) (from_place 720 0) ≡ Tenths (pos 8) }
    ensures fewest { dut_heard Msf (9 ∷ 10 ∷ 11 ∷ 12 ∷ 13 ∷ 14 ∷ 15 ∷ 16 ∷ []) (from_place 720 0) ≡ Tenths (negsuc 7) }
    ensures wwvb_most { dut_heard Wwvb (36 ∷ 38 ∷ 40 ∷ 43 ∷ []) (from_place 720 0) ≡ Tenths (pos 9) }
    ensures wwvb_fewest { dut_heard Wwvb (37 ∷ 40 ∷ 43 ∷ []) (from_place 720 0) ≡ Tenths (negsuc 8) }
    ensures two_days { dut_heard Msf [] (from_place 1439 30) ≡ Free }
    ensures to_midnight { dut_heard Msf [] (from_place 1439 0) ≡ Tenths (pos 0) }
    ensures two_hours { dut_heard Msf [] (from_place 779 30) ≡ Tenths (pos 0) }
    ensures not_sent { dut_heard Jjy [] (from_place 720 0) ≡ Absent }
{}

/// Two ones behind second 8 of MSF fit a value of DUT1; the second of them alone fits none, and costs what it differs. From
/// 23:59:30 on, over the end of a UTC day, it costs nothing.
pub fn dut1_costs()
    ensures fits { station_cost Msf (ones_heard 1 16 (9 ∷ 10 ∷ [])) 60 (from_place 720 0) ≡ 0 }
    ensures differs { station_cost Msf (ones_heard 1 16 (10 ∷ [])) 60 (from_place 720 0) ≡ 100 }
    ensures two_days { station_cost Msf (ones_heard 31 46 (40 ∷ [])) 60 (from_place 1439 30) ≡ 0 }
{}

/// The values of DUT1 that a station can tell, in tenths: -8 to 8 at MSF, -9 to 9 at WWVB.
pub fn values_of_dut1()
    ensures msf { dut1_values Msf ≡ map negsuc (7 ∷ 6 ∷ 5 ∷ 4 ∷ 3 ∷ 2 ∷ 1 ∷ 0 ∷ []) ++ map pos (range_with_len 0 9) }
    ensures wwvb { dut1_values Wwvb ≡ map negsuc (8 ∷ 7 ∷ 6 ∷ 5 ∷ 4 ∷ 3 ∷ 2 ∷ 1 ∷ 0 ∷ []) ++ map pos (range_with_len 0 10) }
    ensures dcf77 { dut1_values Dcf77 ≡ [] }
    ensures jjy { dut1_values Jjy ≡ [] }
{}

/// The stations of a bank, in their order, by the bits of its mask.
pub fn stations_are_listed()
    ensures all { stations_of (record { mask = 15 }) ≡ Dcf77 ∷ Msf ∷ Wwvb ∷ Jjy ∷ [] }
    ensures some { stations_of (record { mask = 6 }) ≡ Msf ∷ Wwvb ∷ [] }
{}

/// At one for each second, a minute costs 60 for each station, and at JJY 9 less where it isn't scored.
pub fn stations_are_summed()
    ensures two { sequence_cost (λ station k x. 1) (window_of 3 0 century_minutes) (from_place 705 0) ≡ 120 }
    ensures jjy { sequence_cost (λ station k x. 1) (window_of 8 0 century_minutes) (from_place 705 0) ≡ 51 }
    ensures four { sequence_cost (λ station k x. 1) (window_of 15 0 century_minutes) (from_place 705 0) ≡ 231 }
{}

//! Worked examples of seconds that cost so much at the most, and of receivers with tables of their own.

ghost use Rattle.std.specs.Prelude.{◌≡◌, ◌-◌, ◌*◌, ◌∷◌, [], map, Some};
ghost use Rattle.signal_base.specs.declared.station.Station.TheVariants.{Dcf77, Msf, Wwvb, Jjy};
ghost use Rattle.signal_base.specs.Table.{difference_table};
ghost use Rattle.definitions.specs.codes.Vocabulary.{free, unscored};
ghost use Rattle.definitions.specs.examples.Receivers.{at_most, at_odds, broken_off, capped_in, double_table, heard_one, heard_zero, short_marker, silence, two_pulses, with_table};
ghost use Rattle.definitions.specs.heard.Costs.{bank_costs, counted, set_cost};

/// Symbols that cost 5, 105 and 95 come to 5, 100 and 95 where a second costs 100 at the most, and to 5 less since the
/// cheapest counts nothing.
pub fn capped_pulses()
    ensures zero { capped_in 100 two_pulses Dcf77 0 (0 ∷ 1 ∷ 2 ∷ []) ≡ 0 ∷ 95 ∷ 90 ∷ [] }
    ensures one { capped_in 100 two_pulses Dcf77 1 (0 ∷ 1 ∷ 2 ∷ []) ≡ 95 ∷ 0 ∷ 95 ∷ [] }
{}

/// The cheapest symbol may be the station's last one: DCF77's second without a pulse costs 100, 150 and 0, and MSF's second 0,
/// 20 ms too short, costs 250, 250, 250, 180 and 20. It is one of the station's, of which DCF77 has three.
pub fn the_cheapest_of_a_station()
    ensures dcf77 { capped_in 150 two_pulses Dcf77 2 (0 ∷ 1 ∷ 2 ∷ []) ≡ 100 ∷ 150 ∷ 0 ∷ [] }
    ensures msf { capped_in 250 short_marker Msf 0 (0 ∷ 1 ∷ 2 ∷ 3 ∷ 4 ∷ []) ≡ 230 ∷ 230 ∷ 230 ∷ 160 ∷ 0 ∷ [] }
    ensures three { map (counted (Some 100) Dcf77 (λ x. 90 - 20 * x)) (0 ∷ 1 ∷ 2 ∷ []) ≡ 40 ∷ 20 ∷ 0 ∷ [] }
{}

/// A second that fits no symbol counts nothing, whichever is sent.
pub fn a_second_that_fits_nothing()
    ensures silence { capped_in 150 silence Jjy 0 (0 ∷ 1 ∷ 2 ∷ []) ≡ 0 ∷ 0 ∷ 0 ∷ [] }
    ensures fits { capped_in 250 silence Jjy 0 (0 ∷ 1 ∷ 2 ∷ []) ≡ 0 ∷ 50 ∷ 50 ∷ [] }
{}

/// A tenth of which a millisecond is unknown costs nothing, and the second costs no more than its others.
pub fn a_capped_second_that_breaks_off()
    ensures { capped_in 150 broken_off Wwvb 0 (0 ∷ 1 ∷ 2 ∷ []) ≡ 0 ∷ 150 ∷ 150 ∷ [] }
{}

/// Each receiver's second costs so much at the most, before it is counted by the receiver's weight.
pub fn each_receiver_is_capped_by_itself()
    ensures { capped_in 60 at_odds Msf 0 (0 ∷ 1 ∷ []) ≡ 60 ∷ 180 ∷ [] }
{}

/// JJY's call sign costs nothing, as the cheapest symbol of a capped second does, which alone would cost 200.
pub fn a_capped_second_beside_the_call_sign()
    ensures scored { set_cost Jjy (bank_costs (at_most 800) silence 0 Jjy 0) free ≡ 0 }
    ensures not_scored { set_cost Jjy (bank_costs (at_most 800) silence 0 Jjy 0) unscored ≡ 0 }
    ensures uncapped { set_cost Jjy (bank_costs difference_table silence 0 Jjy 0) free ≡ 200 }
{}

/// A receiver's own table is in force in place of the bank's, and the other receiver keeps the bank's.
pub fn a_table_of_its_own()
    ensures capped { map (bank_costs difference_table (with_table (at_most 60) heard_zero ∷ heard_one ∷ []) 0 Msf 0) (0 ∷ 1 ∷ []) ≡ 100 ∷ 180 ∷ [] }
    ensures doubled { map (bank_costs difference_table (with_table double_table heard_zero ∷ heard_one ∷ []) 0 Msf 0) (0 ∷ 1 ∷ []) ≡ 100 ∷ 600 ∷ [] }
    ensures single { map (bank_costs double_table (with_table difference_table heard_zero ∷ heard_one ∷ []) 0 Msf 0) (0 ∷ 1 ∷ []) ≡ 200 ∷ 300 ∷ [] }
    ensures uncapped { map (bank_costs (at_most 60) (with_table difference_table heard_zero ∷ heard_one ∷ []) 0 Msf 0) (0 ∷ 1 ∷ []) ≡ 60 ∷ 300 ∷ [] }
{}

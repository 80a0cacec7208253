//! Worked examples of telegrams, computed from the definitions alone. A minute is named by its date, hour and minute, in
//! UTC.

ghost use Rattle.std.specs.Prelude.{◌≡◌, ◌+◌, ◌*◌, ◌==◌, ◌∷◌, ◌++◌, [], codes, filter, map, true, false};
ghost use Rattle.std.specs.List.{range_with_len};
ghost use Rattle.signal_base.specs.declared.station.Station.TheVariants.{Dcf77, Msf, Wwvb, Jjy};
ghost use Rattle.signal_base.specs.Mask.{has_bit};
ghost use Rattle.definitions.specs.codes.Allowed.{allowed, dcf_facts, msf_facts, wwvb_facts, jjy_facts};
ghost use Rattle.definitions.specs.codes.Dcf77.{dcf_second};
ghost use Rattle.definitions.specs.codes.Jjy.{jjy_second};
ghost use Rattle.definitions.specs.codes.Msf.{msf_second};
ghost use Rattle.definitions.specs.codes.Wwvb.{wwvb_second};
ghost use Rattle.definitions.specs.codes.Vocabulary.{free, no_second, only, unscored};
ghost use Rattle.definitions.specs.codes.Listing.{characters, characters_of};
ghost use Rattle.definitions.specs.examples.Dates.{at, on};

/// The symbols of a set: of one symbol, of 0 and 1 alike, and of a second that the minute doesn't have.
pub fn symbols_of_a_set()
    ensures one { map (λ x. filter (has_bit (only x)) (0 ∷ 1 ∷ 2 ∷ 3 ∷ 4 ∷ [])) (0 ∷ 2 ∷ 4 ∷ []) ≡ (0 ∷ []) ∷ (2 ∷ []) ∷ (4 ∷ []) ∷ [] }
    ensures two { filter (has_bit free) (0 ∷ 1 ∷ 2 ∷ 3 ∷ 4 ∷ []) ≡ 0 ∷ 1 ∷ [] }
    ensures none { filter (has_bit no_second) (0 ∷ 1 ∷ 2 ∷ 3 ∷ 4 ∷ []) ≡ [] }
{}

/// DCF77 at 2005-12-31T23:59Z, the minute with the leap second: 01:00 on Sunday 2006-01-01 follows.
pub fn dcf77_with_a_leap_second()
    ensures facts { dcf_facts true (at (on 2005 12 31) 23 59)
        ≡ record { minute = 0; hour = 1; day = 1; weekday = 0; month = 1; year = 6; summer = false; change = false; leap = true; long = true } }
    ensures characters { characters Dcf77 true (at (on 2005 12 31) 23 59)
        ≡ codes "0???????????????00111000000001000001100000111100000110000010-" }
{}

/// DCF77 at 2001-03-25T00:59Z, the minute before summer time: 03:00 on that Sunday follows.
pub fn dcf77_in_spring()
    ensures facts { dcf_facts false (at (on 2001 3 25) 0 59)
        ≡ record { minute = 0; hour = 3; day = 25; weekday = 0; month = 3; year = 1; summer = true; change = true; leap = false; long = false } }
    ensures characters { characters Dcf77 false (at (on 2001 3 25) 0 59)
        ≡ codes "0???????????????1100100000000110000010100111111000100000001-" }
{}

/// MSF at 2005-12-31T23:59Z, the minute with the leap second: 00:00 on Sunday 2006-01-01 follows.
pub fn msf_with_a_leap_second()
    ensures facts { msf_facts true (at (on 2005 12 31) 23 59)
        ≡ record { minute = 0; hour = 0; day = 1; weekday = 0; month = 1; year = 6; summer = false; change = false; long = true } }
    ensures characters { characters Msf true (at (on 2005 12 31) 23 59)
        ≡ codes "M????????????????00000022000002000002000000000000000002333320" }
{}

/// MSF at 2001-07-16T12:00Z, in summer time: 13:01 on that Monday follows.
pub fn msf_in_summer()
    ensures facts { msf_facts false (at (on 2001 7 16) 12 0)
        ≡ record { minute = 1; hour = 13; day = 16; weekday = 1; month = 7; year = 1; summer = true; change = false; long = false } }
    ensures characters { characters Msf false (at (on 2001 7 16) 12 0)
        ≡ codes "M????????????????0000000200222020220002020022000000202232330" }
{}

/// WWVB at 2004-02-29T12:34Z, day 60 of a leap year.
pub fn wwvb_on_a_leap_day()
    ensures facts { wwvb_facts false (at (on 2004 2 29) 12 34)
        ≡ record { minute = 34; hour = 12; day_of_year = 60; year = 4; us_code = 0; leap = false; long = false } }
    ensures characters { characters Wwvb false (at (on 2004 2 29) 12 34)
        ≡ codes "M01100100M000100010M000000110M000000???M????00000M010001000M" }
{}

/// JJY at 2002-06-10T06:45Z, in Japan 15:45 on Monday, day 161.
pub fn jjy_at_quarter_to_four()
    ensures facts { jjy_facts false (at (on 2002 6 10) 6 45)
        ≡ record { minute = 45; hour = 15; day_of_year = 161; year = 2; weekday = 1; leap = false; long = false } }
    ensures characters { characters Jjy false (at (on 2002 6 10) 6 45)
        ≡ codes "M10000101M000100101M000100110M000100110M*********M??????000M" }
{}

/// JJY's call sign in the minutes 15 and 45 of the hour: what the seconds 40, 48 and 50 may carry at 2002-06-10T06:15Z, and
/// at 06:16Z; and in which minutes of the first hour second 40 isn't scored.
pub fn jjy_with_its_call_sign()
    ensures sent { map (λ s. allowed Jjy false (at (on 2002 6 10) 6 15, s)) (40 ∷ 48 ∷ 50 ∷ []) ≡ unscored ∷ unscored ∷ free ∷ [] }
    ensures minutes { filter (λ t. allowed Jjy false (t, 40) == unscored) (range_with_len 0 60) ≡ 15 ∷ 45 ∷ [] }
    ensures not_sent { map (λ s. allowed Jjy false (at (on 2002 6 10) 6 16, s)) (40 ∷ 48 ∷ 50 ∷ []) ≡ only 0 ∷ only 0 ∷ only 0 ∷ [] }
{}

/// MSF at 2085-12-31T23:59Z, with a leap second: the seconds about the one that the minute has more, and a year of the
/// eighties, 2086.
pub fn msf_longer_by_second_17()
    ensures { map (msf_second (record { minute = 0; hour = 0; day = 1; weekday = 2; month = 1; year = 86; summer = false; change = false; long = true })) (16 ∷ 17 ∷ 18 ∷ []) ≡ free ∷ only 0 ∷ only 2 ∷ [] }
{}

/// WWVB at 2005-12-31T23:59Z, the minute with the leap second: day 365, the last of its year.
pub fn wwvb_with_a_leap_second()
    ensures facts { wwvb_facts true (at (on 2005 12 31) 23 59)
        ≡ record { minute = 59; hour = 23; day_of_year = 365; year = 5; us_code = 0; leap = true; long = true } }
    ensures characters { characters Wwvb true (at (on 2005 12 31) 23 59)
        ≡ codes "M10101001M001000011M001100110M010100???M????00000M010100100MM" }
{}

/// JJY at 2005-12-31T23:59Z, the minute with the leap second: in Japan 08:59 on Sunday, day 1 of 2006.
pub fn jjy_with_a_leap_second()
    ensures facts { jjy_facts true (at (on 2005 12 31) 23 59)
        ≡ record { minute = 59; hour = 8; day_of_year = 1; year = 6; weekday = 0; leap = true; long = true } }
    ensures characters { characters Jjy true (at (on 2005 12 31) 23 59)
        ≡ codes "M10101001M000001000M000000000M000100100M000000110M0001100000M" }
{}

/// Facts of DCF77 that, with those above, tell any two weights of a field apart.
pub fn dcf77_weights()
    ensures of_2085 { characters_of Dcf77 false 0 (dcf_second (record { minute = 47; hour = 18; day = 14; weekday = 4; month = 6; year = 85; summer = true; change = false; leap = false; long = false }))
        ≡ codes "0???????????????0100111100010000110000101000101100101000010-" }
    ensures of_2047 { characters_of Dcf77 false 0 (dcf_second (record { minute = 15; hour = 16; day = 9; weekday = 5; month = 8; year = 47; summer = true; change = false; leap = false; long = false }))
        ≡ codes "0???????????????0100110101001011010110010010100010111000101-" }
    ensures of_2059 { characters_of Dcf77 false 0 (dcf_second (record { minute = 59; hour = 16; day = 26; weekday = 6; month = 4; year = 59; summer = true; change = false; leap = false; long = false }))
        ≡ codes "0???????????????0100110011010011010101100101100100100110100-" }
    ensures of_2071 { characters_of Dcf77 false 0 (dcf_second (record { minute = 38; hour = 22; day = 17; weekday = 2; month = 11; year = 71; summer = false; change = false; leap = false; long = false }))
        ≡ codes "0???????????????0010100011101010001011101001010001100011101-" }
{}

/// Facts of MSF that, with those above, tell any two weights of a field apart.
pub fn msf_weights()
    ensures of_2056 { characters_of Msf false 0 (msf_second (record { minute = 38; hour = 21; day = 6; weekday = 3; month = 12; year = 56; summer = false; change = false; long = false }))
        ≡ codes "M????????????????0202022020020000220022200002022200002333220" }
    ensures of_2018 { characters_of Msf false 0 (msf_second (record { minute = 52; hour = 19; day = 21; weekday = 4; month = 6; year = 18; summer = true; change = false; long = false }))
        ≡ codes "M????????????????0002200000220200002200022002202002002332330" }
    ensures of_2024 { characters_of Msf false 0 (msf_second (record { minute = 58; hour = 19; day = 7; weekday = 6; month = 9; year = 24; summer = true; change = false; long = false }))
        ≡ codes "M????????????????0020020002002000222220022002202200002323330" }
    ensures of_2092 { characters_of Msf false 0 (msf_second (record { minute = 34; hour = 6; day = 29; weekday = 2; month = 7; year = 92; summer = true; change = false; long = false }))
        ≡ codes "M????????????????2002002000222202002020000220022020002232230" }
{}

/// Facts of WWVB that, with those above, tell any two weights of a field apart.
pub fn wwvb_weights()
    ensures of_2071 { characters_of Wwvb false 0 (wwvb_second (record { minute = 7; hour = 9; day_of_year = 233; year = 71; us_code = 3; leap = false; long = false }))
        ≡ codes "M00000111M000001001M001000011M001100???M????00111M000100011M" }
    ensures of_2085 { characters_of Wwvb false 0 (wwvb_second (record { minute = 9; hour = 18; day_of_year = 338; year = 85; us_code = 0; leap = false; long = false }))
        ≡ codes "M00001001M000101000M001100011M100000???M????01000M010100000M" }
    ensures of_2038 { characters_of Wwvb false 0 (wwvb_second (record { minute = 5; hour = 17; day_of_year = 147; year = 38; us_code = 3; leap = false; long = false }))
        ≡ codes "M00000101M000100111M000100100M011100???M????00011M100000011M" }
    ensures of_2013 { characters_of Wwvb false 0 (wwvb_second (record { minute = 45; hour = 3; day_of_year = 190; year = 13; us_code = 3; leap = false; long = false }))
        ≡ codes "M10000101M000000011M000101001M000000???M????00001M001100011M" }
{}

/// Facts of JJY that, with those above, tell any two weights of a field apart.
pub fn jjy_weights()
    ensures of_2099 { characters_of Jjy false 0 (jjy_second (record { minute = 29; hour = 3; day_of_year = 331; year = 99; weekday = 5; leap = false; long = false }))
        ≡ codes "M01001001M000000011M001100011M000100010M010011001M101000000M" }
    ensures of_2032 { characters_of Jjy false 0 (jjy_second (record { minute = 57; hour = 7; day_of_year = 117; year = 32; weekday = 1; leap = false; long = false }))
        ≡ codes "M10100111M000000111M000100001M011100110M000110010M001000000M" }
    ensures of_2095 { characters_of Jjy false 0 (jjy_second (record { minute = 17; hour = 14; day_of_year = 179; year = 95; weekday = 2; leap = false; long = false }))
        ≡ codes "M00100111M000100100M000100111M100100000M010010101M010000000M" }
    ensures of_2079 { characters_of Jjy false 0 (jjy_second (record { minute = 52; hour = 21; day_of_year = 284; year = 79; weekday = 3; leap = false; long = false }))
        ≡ codes "M10100010M001000001M001001000M010000010M001111001M011000000M" }
{}

/// MSF at 2001-03-25T00:59Z, the minute before summer time, which it announces: 02:00 on that Sunday follows.
pub fn msf_in_spring()
    ensures facts { msf_facts false (at (on 2001 3 25) 0 59)
        ≡ record { minute = 0; hour = 2; day = 25; weekday = 0; month = 3; year = 1; summer = true; change = true; long = false } }
    ensures characters { characters Msf false (at (on 2001 3 25) 0 59)
        ≡ codes "M????????????????0000000200022200202000000020000000003223230" }
{}

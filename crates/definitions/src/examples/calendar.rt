//! Dates that the public knows, computed from the definitions alone. A day is named by its date, and a minute by its
//! day, hour and minute.

ghost use Rattle.std.specs.Prelude.{◌≡◌, ◌∷◌, ◌-◌, ◌+◌, ◌*◌, [], map, is_some, true, false, None};
ghost use Rattle.std.specs.List.{range_with_len};
ghost use Rattle.signal_base.specs.declared.station.Station.TheVariants.{Dcf77, Msf, Wwvb, Jjy};
ghost use Rattle.definitions.specs.time.Calendar.{day_at, century_minutes, is_leap_end, minute_length, utc_fields};
ghost use Rattle.definitions.specs.declared.zone.Zone.TheVariants.{CentralEurope, Japan, Uk, Utc};
ghost use Rattle.definitions.specs.time.Zones.{local_fields};
ghost use Rattle.definitions.specs.codes.Allowed.{dcf_facts, encoded_year, jjy_facts, msf_facts, telegram_of, wwvb_facts};
ghost use Rattle.definitions.specs.codes.Vocabulary.{only};
ghost use Rattle.definitions.specs.examples.Dates.{at, dcf77_around, eu_around, months_of_leap_seconds, msf_around, on, us_around, us_seconds};

/// Weekdays and days of the year, from 2000 to 2099.
pub fn known_weekdays()
    ensures of_2000_01_01 { day_at (on 2000 1 1) ≡ record { year = 2000; month = 1; day = 1; weekday = 6; day_of_year = 1 } }
    ensures of_2000_02_29 { day_at (on 2000 2 29) ≡ record { year = 2000; month = 2; day = 29; weekday = 2; day_of_year = 60 } }
    ensures of_2004_07_04 { day_at (on 2004 7 4) ≡ record { year = 2004; month = 7; day = 4; weekday = 0; day_of_year = 186 } }
    ensures of_2010_10_10 { day_at (on 2010 10 10) ≡ record { year = 2010; month = 10; day = 10; weekday = 0; day_of_year = 283 } }
    ensures of_2016_12_31 { day_at (on 2016 12 31) ≡ record { year = 2016; month = 12; day = 31; weekday = 6; day_of_year = 366 } }
    ensures of_2020_02_29 { day_at (on 2020 2 29) ≡ record { year = 2020; month = 2; day = 29; weekday = 6; day_of_year = 60 } }
    ensures of_2024_12_25 { day_at (on 2024 12 25) ≡ record { year = 2024; month = 12; day = 25; weekday = 3; day_of_year = 360 } }
    ensures of_2038_01_19 { day_at (on 2038 1 19) ≡ record { year = 2038; month = 1; day = 19; weekday = 2; day_of_year = 19 } }
    ensures of_2050_05_05 { day_at (on 2050 5 5) ≡ record { year = 2050; month = 5; day = 5; weekday = 4; day_of_year = 125 } }
    ensures of_2099_12_31 { day_at (on 2099 12 31) ≡ record { year = 2099; month = 12; day = 31; weekday = 4; day_of_year = 365 } }
{}

/// The days on which European summer time begins or ends.
pub fn european_changes()
    ensures of_2024 { eu_around (on 2024 3 31) ≡ false ∷ true ∷ true ∷ [] }
    ensures to_2024 { eu_around (on 2024 10 27) ≡ true ∷ true ∷ false ∷ [] }
    ensures of_2030 { eu_around (on 2030 3 31) ≡ false ∷ true ∷ true ∷ [] }
    ensures to_2030 { eu_around (on 2030 10 27) ≡ true ∷ true ∷ false ∷ [] }
    ensures of_2096 { eu_around (on 2096 3 25) ≡ false ∷ true ∷ true ∷ [] }
    ensures to_2096 { eu_around (on 2096 10 28) ≡ true ∷ true ∷ false ∷ [] }
{}

/// The days on which summer time of the United States begins or ends.
pub fn american_changes()
    ensures of_2000 { us_around (on 2000 4 2) ≡ 0 ∷ 2 ∷ 3 ∷ [] }
    ensures to_2000 { us_around (on 2000 10 29) ≡ 3 ∷ 1 ∷ 0 ∷ [] }
    ensures of_2006 { us_around (on 2006 4 2) ≡ 0 ∷ 2 ∷ 3 ∷ [] }
    ensures to_2006 { us_around (on 2006 10 29) ≡ 3 ∷ 1 ∷ 0 ∷ [] }
    ensures of_2007 { us_around (on 2007 3 11) ≡ 0 ∷ 2 ∷ 3 ∷ [] }
    ensures to_2007 { us_around (on 2007 11 4) ≡ 3 ∷ 1 ∷ 0 ∷ [] }
    ensures of_2099 { us_around (on 2099 3 8) ≡ 0 ∷ 2 ∷ 3 ∷ [] }
    ensures to_2099 { us_around (on 2099 11 1) ≡ 3 ∷ 1 ∷ 0 ∷ [] }
{}

/// WWVB's seconds 57 and 58 around the changes of 2000.
pub fn american_seconds()
    ensures spring { us_seconds (on 2000 4 2) ≡ (only 0, only 0) ∷ (only 1, only 0) ∷ (only 1, only 1) ∷ [] }
    ensures autumn { us_seconds (on 2000 10 29) ≡ (only 1, only 1) ∷ (only 0, only 1) ∷ (only 0, only 0) ∷ [] }
{}

/// DCF77's minutes around the changes of 2000: 03:00 follows 01:59, and 02:00 comes twice.
pub fn dcf77_around_its_changes()
    ensures spring { dcf77_around (on 2000 3 26) ≡ (1, 59, false, true) ∷ (3, 0, true, true) ∷ (3, 1, true, false) ∷ [] }
    ensures autumn { dcf77_around (on 2000 10 29) ≡ (2, 59, true, true) ∷ (2, 0, false, true) ∷ (2, 1, false, false) ∷ [] }
{}

/// MSF's minutes around the changes of 2000: 02:00 follows 00:59, and 01:00 comes twice.
pub fn msf_around_its_changes()
    ensures spring { msf_around (on 2000 3 26) ≡ (0, 59, false, true) ∷ (2, 0, true, true) ∷ (2, 1, true, false) ∷ [] }
    ensures autumn { msf_around (on 2000 10 29) ≡ (1, 59, true, true) ∷ (1, 0, false, true) ∷ (1, 1, false, false) ∷ [] }
{}

/// The fields of 2002-06-10T06:16Z, a Monday.
pub fn fields_of_a_minute()
    ensures { utc_fields (at (on 2002 6 10) 6 16)
        ≡ record { year = 2002; month = 6; day = 10; weekday = 1; day_of_year = 161; hour = 6; minute = 16 } }
{}

/// The end of 2005, whose last minute had a leap second.
pub fn leap_second_of_2005()
    ensures before { is_leap_end (at (on 2005 12 31) 23 58) ≡ false }
    ensures last { is_leap_end (at (on 2005 12 31) 23 59) ≡ true }
    ensures after { is_leap_end (at (on 2006 1 1) 0 0) ≡ false }
    ensures long { minute_length true (at (on 2005 12 31) 23 59) ≡ 61 }
    ensures plain { minute_length false (at (on 2005 12 31) 23 59) ≡ 60 }
{}

/// From when on a change of summer time is announced: DCF77 an hour before it, MSF 61 minutes.
pub fn announced_changes()
    ensures dcf77 { (dcf_facts false (at (on 2000 3 26) 0 0)).change ≡ true }
    ensures dcf77_before { (dcf_facts false (at (on 2000 3 25) 23 59)).change ≡ false }
    ensures msf { (msf_facts false (at (on 2000 3 25) 23 59)).change ≡ true }
    ensures msf_before { (msf_facts false (at (on 2000 3 25) 23 58)).change ≡ false }
{}

/// From when on the leap second of 2005 was announced: by DCF77 in the hour before it, by WWVB in its whole month, by JJY
/// from the second UTC day of the month on. In the middle of each month of 2000 both announce one in June and December
/// alone.
pub fn announced_leap_seconds()
    ensures dcf77 { (dcf_facts true (at (on 2005 12 31) 23 0)).leap ≡ true }
    ensures dcf77_before { (dcf_facts true (at (on 2005 12 31) 22 59)).leap ≡ false }
    ensures wwvb { (wwvb_facts true (at (on 2005 12 1) 0 0)).leap ≡ true }
    ensures wwvb_before { (wwvb_facts true (at (on 2005 11 30) 23 59)).leap ≡ false }
    ensures jjy { (jjy_facts true (at (on 2005 12 2) 0 0)).leap ≡ true }
    ensures jjy_before { (jjy_facts true (at (on 2005 12 1) 23 59)).leap ≡ false }
    ensures wwvb_months { map (λ month. (wwvb_facts true (at (on 2000 month 15) 0 0)).leap) (range_with_len 1 12) ≡ months_of_leap_seconds }
    ensures jjy_months { map (λ month. (jjy_facts true (at (on 2000 month 15) 0 0)).leap) (range_with_len 1 12) ≡ months_of_leap_seconds }
    ensures not_announced { (jjy_facts false (at (on 2005 12 2) 0 0)).leap ≡ false }
{}

/// The first minute of each zone's year 2100 isn't told, and the minute before it is.
pub fn local_years_end()
    ensures utc { map (λ t. is_some (local_fields Utc t)) ((century_minutes - 1) ∷ century_minutes ∷ []) ≡ true ∷ false ∷ [] }
    ensures europe { map (λ t. is_some (local_fields CentralEurope t)) ((century_minutes - 61) ∷ (century_minutes - 60) ∷ []) ≡ true ∷ false ∷ [] }
    ensures uk { map (λ t. is_some (local_fields Uk t)) ((century_minutes - 1) ∷ century_minutes ∷ []) ≡ true ∷ false ∷ [] }
    ensures japan { map (λ t. is_some (local_fields Japan t)) ((century_minutes - 541) ∷ (century_minutes - 540) ∷ []) ≡ true ∷ false ∷ [] }
{}

/// The last minute in which each station can encode the year, and the minute after it, which has no telegram.
pub fn last_minutes()
    ensures dcf77 { encoded_year Dcf77 (century_minutes - 62) ≡ 2099 }
    ensures dcf77_after { encoded_year Dcf77 (century_minutes - 61) ≡ 2100 }
    ensures msf { encoded_year Msf (century_minutes - 2) ≡ 2099 }
    ensures msf_after { encoded_year Msf (century_minutes - 1) ≡ 2100 }
    ensures wwvb { encoded_year Wwvb (century_minutes - 1) ≡ 2099 }
    ensures wwvb_after { encoded_year Wwvb century_minutes ≡ 2100 }
    ensures jjy { encoded_year Jjy (century_minutes - 541) ≡ 2099 }
    ensures jjy_after { encoded_year Jjy (century_minutes - 540) ≡ 2100 }
    ensures none { telegram_of Jjy false (century_minutes - 540) ≡ None }
{}

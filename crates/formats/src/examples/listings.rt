//! Listings of minutes and sentences of a feed, spelled out. The checksum of a sentence is the exclusive or of the bytes
//! between `$` and `*`, worked out apart from these definitions.
#![tactic(auto, unfolding(crate::specs::Examples::digits, definitions::specs::time::Calendar::day_at, definitions::specs::sequences::Walks::place_at, crate::specs::Reports::at_minutes))]

ghost use Rattle.std.specs.Prelude.{◌≡◌, ◌∷◌, ◌++◌, [], codes, true, false};
ghost use Rattle.signal_base.specs.declared.station.Station.TheVariants.{Dcf77, Jjy};
ghost use Rattle.definitions.specs.examples.Dates.{at, on};
ghost use Rattle.definitions.specs.examples.Sequences.{from_place};
ghost use Rattle.formats.specs.Bytes.{carriage_return, line, line_feed};
ghost use Rattle.formats.specs.Examples.{announced_from};
ghost use Rattle.formats.specs.Feed.{feed, zda_sentence};
ghost use Rattle.formats.specs.Listing.{listing, listing_head};

/// A minute of JJY, and the first line of a minute with a leap second.
pub fn listed_minutes()
    ensures jjy { listing Jjy false (at (on 2024 6 10) 6 45)
        ≡ line (codes "encode jjy 2024-06-10T06:45Z 60") ++ line (codes "M10000101M000100101M000100110M001000110M*********M??????000M") }
    ensures long { listing_head Dcf77 true (at (on 2000 12 31) 23 59) ≡ line (codes "encode dcf77 2000-12-31T23:59Z 61") }
{}

/// Single sentences: the last minute before European summer time in 2024 and the first of it in 2000, which UTC passes over, on a leap
/// day, and the last of a year.
pub fn sentences()
    ensures before { zda_sentence (at (on 2024 3 31) 0 59) ≡ codes "$GPZDA,005900.00,31,03,2024,00,00*6F" ++ carriage_return ∷ line_feed ∷ [] }
    ensures after { zda_sentence (at (on 2000 3 26) 1 0) ≡ codes "$GPZDA,010000.00,26,03,2000,00,00*62" ++ carriage_return ∷ line_feed ∷ [] }
    ensures leap_day { zda_sentence (at (on 2000 2 29) 0 0) ≡ codes "$GPZDA,000000.00,29,02,2000,00,00*6D" ++ carriage_return ∷ line_feed ∷ [] }
    ensures last { zda_sentence (at (on 2001 12 31) 23 59) ≡ codes "$GPZDA,235900.00,31,12,2001,00,00*69" ++ carriage_return ∷ line_feed ∷ [] }
{}

/// Feeds over a midnight, over a year's end, and over a year's end with a leap second.
pub fn feeds()
    ensures one_slot { feed (from_place (at (on 2000 6 10) 23 59) 59) 1 ≡ [] }
    ensures two_slots { feed (from_place (at (on 2000 6 10) 23 59) 59) 2 ≡ codes "$GPZDA,000000.00,11,06,2000,00,00*62" ++ carriage_return ∷ line_feed ∷ [] }
    ensures two_minutes { feed (from_place (at (on 2000 6 10) 23 59) 0) 61
        ≡ codes "$GPZDA,235900.00,10,06,2000,00,00*6E" ++ carriage_return ∷ line_feed ∷ []
        ++ codes "$GPZDA,000000.00,11,06,2000,00,00*62" ++ carriage_return ∷ line_feed ∷ [] }
    ensures new_year { feed (from_place (at (on 2000 12 31) 23 59) 59) 2 ≡ codes "$GPZDA,000000.00,01,01,2001,00,00*65" ++ carriage_return ∷ line_feed ∷ [] }
    ensures leap { feed (announced_from (at (on 2000 12 31) 23 59) 59) 2 ≡ [] }
    ensures after_leap { feed (announced_from (at (on 2000 12 31) 23 59) 59) 3 ≡ codes "$GPZDA,000000.00,01,01,2001,00,00*65" ++ carriage_return ∷ line_feed ∷ [] }
{}

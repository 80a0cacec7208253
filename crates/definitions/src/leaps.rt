//! What follows of leap years and leap seconds: the day that a station tells, and the minute that may have 61 seconds.

ghost use Rattle.std.specs.Prelude.{ℕ, ◌≡◌, ◌<◌, ◌+◌, Bool, if◌then◌else◌};
ghost use Rattle.signal_base.specs.declared.station.Station.TheVariants.{Wwvb};
ghost use Rattle.definitions.specs.time.Calendar.{century_minutes, is_leap_end, is_leap_year, utc_fields};
ghost use Rattle.definitions.specs.codes.Allowed.{allowed};
ghost use Rattle.definitions.specs.codes.Vocabulary.{only};
ghost use Rattle.definitions.specs.examples.Dates.{begins_half_year};

/// WWVB's second 55 is a 1 in leap years, and a 0 in all others.
pub fn leap_years_show()
    ensures { (announced : Bool) (t : ℕ) → t < century_minutes
        → allowed Wwvb announced (t, 55) ≡ only (if is_leap_year (utc_fields t).year then 1 else 0) }
{}

/// A leap second can come in a minute behind which January or July begins, and in no other.
pub fn leap_seconds_end_half_years()
    ensures { (t : ℕ) → is_leap_end t ≡ begins_half_year (t + 1) }
{}

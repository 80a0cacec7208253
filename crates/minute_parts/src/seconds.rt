//! What seconds carry, by the facts of the date and the time of day.

ghost use Rattle.std.specs.Prelude.{◌≡◌, ◌/◌, ◌%◌, ◌<◌, ℕ, slice_index};
ghost use Rattle.signal_base.specs.declared.station.Station.TheVariants.{Dcf77, Jjy, Msf, Wwvb};
ghost use Rattle.definitions.specs.time.Calendar.{minutes_per_day, minutes_per_hour};
ghost use Rattle.minute_parts.specs.Dates.{AreInRange, dcf_facts_by, jjy_facts_by, msf_facts_by, set_by, wwvb_facts_by};

use crate::dates::DateFacts;
use definitions::{DcfFacts, JjyFacts, MINUTES_PER_HOUR, MsfFacts, WwvbFacts};
use signal_base::Station;

/// What the seconds of a minute of 60 may carry, where the minute `u` of a day with these facts is encoded.
pub fn sets_by(station: Station, date: &DateFacts, u: u16) -> [u8; 61]
    requires time { u < minutes_per_day }
    requires date { AreInRange date.now }
    ensures { (s : ℕ) → s < 60 → slice_index result s ≡ set_by station date.now u s }
{
    match station {
        Station::Dcf77 => dcf_sets(date, u),
        Station::Msf => msf_sets(date, u),
        Station::Wwvb => wwvb_sets(date, u),
        Station::Jjy => jjy_sets(date, u),
    }
}

fn dcf_sets(date: &DateFacts, u: u16) -> [u8; 61]
    requires time { u < minutes_per_day }
    requires date { AreInRange date.now }
    ensures { (s : ℕ) → s < 60 → slice_index result s ≡ set_by Dcf77 date.now u s }
{
    dcf_code::telegram(&dcf_facts(date, u))
}

fn msf_sets(date: &DateFacts, u: u16) -> [u8; 61]
    requires time { u < minutes_per_day }
    requires date { AreInRange date.now }
    ensures { (s : ℕ) → s < 60 → slice_index result s ≡ set_by Msf date.now u s }
{
    msf_code::telegram(&msf_facts(date, u))
}

fn wwvb_sets(date: &DateFacts, u: u16) -> [u8; 61]
    requires time { u < minutes_per_day }
    requires date { AreInRange date.now }
    ensures { (s : ℕ) → s < 60 → slice_index result s ≡ set_by Wwvb date.now u s }
{
    wwvb_code::telegram(&wwvb_facts(date, u))
}

fn jjy_sets(date: &DateFacts, u: u16) -> [u8; 61]
    requires time { u < minutes_per_day }
    requires date { AreInRange date.now }
    ensures { (s : ℕ) → s < 60 → slice_index result s ≡ set_by Jjy date.now u s }
{
    jjy_code::telegram(&jjy_facts(date, u))
}

// The facts of a minute of each station, from the facts of its date and the minute of the local day.
fn dcf_facts(date: &DateFacts, u: u16) -> DcfFacts
    requires { u < minutes_per_day }
    ensures { result ≡ dcf_facts_by date.now u }
{
    let day = date.day;
    DcfFacts {
        minute: minute_of(u),
        hour: hour_of(u),
        day: day.day,
        weekday: day.weekday,
        month: day.month,
        year: (day.year % 100) as u8,
        summer: date.summer,
        change: date.change,
        leap: date.leap,
        long: false,
    }
}

fn msf_facts(date: &DateFacts, u: u16) -> MsfFacts
    requires { u < minutes_per_day }
    ensures { result ≡ msf_facts_by date.now u }
{
    let day = date.day;
    MsfFacts {
        minute: minute_of(u),
        hour: hour_of(u),
        day: day.day,
        weekday: day.weekday,
        month: day.month,
        year: (day.year % 100) as u8,
        summer: date.summer,
        change: date.change,
        long: false,
    }
}

fn wwvb_facts(date: &DateFacts, u: u16) -> WwvbFacts
    requires { u < minutes_per_day }
    ensures { result ≡ wwvb_facts_by date.now u }
{
    let day = date.day;
    WwvbFacts {
        minute: minute_of(u),
        hour: hour_of(u),
        day_of_year: day.day_of_year,
        year: (day.year % 100) as u8,
        us_code: date.us_code,
        leap: date.leap,
        long: false,
    }
}

fn jjy_facts(date: &DateFacts, u: u16) -> JjyFacts
    requires { u < minutes_per_day }
    ensures { result ≡ jjy_facts_by date.now u }
{
    let day = date.day;
    JjyFacts {
        minute: minute_of(u),
        hour: hour_of(u),
        day_of_year: day.day_of_year,
        year: (day.year % 100) as u8,
        weekday: day.weekday,
        leap: date.leap,
        long: false,
    }
}

fn minute_of(u: u16) -> u8
    ensures { result ≡ u % minutes_per_hour }
{
    (u % MINUTES_PER_HOUR as u16) as u8
}

fn hour_of(u: u16) -> u8
    requires { u < minutes_per_day }
    ensures { result ≡ u / minutes_per_hour }
{
    (u / MINUTES_PER_HOUR as u16) as u8
}

//! What dates tell, put together from what their fields tell: most seconds tell one field of the date, so that there are few
//! parts to be worked out, and not one for each date of the century.

ghost use Rattle.std.specs.Prelude.{◌≡◌, ◌<◌, ℕ, IfOk, bit_xor, slice_index};
ghost use Rattle.minute_parts.specs.Dates.{AreInRange, date_part, some_date};
ghost use Rattle.minute_parts.specs.DateRows.{AreRows, count_of, flags_of, value_of, with_flags, with_value};
ghost use Rattle.minute_parts.specs.declared.date_rows.DateField.TheVariants.{DayOfMonth, DayOfYear, Flags, Month, Weekday, Year};
ghost use Rattle.minute_parts.specs.declared.part.TheConstants.{SECONDS};

use crate::date_parts::date_part;
use crate::dates::DateFacts;
use crate::part::{Part, SECONDS, nothing};
use crate::times::SOME_DATE;
use signal_base::Station;
use std::alloc::{AllocError, Global};

/// A field of the facts of a date.
#[derive(Clone, Copy)]
pub enum DateField {
    /// Summer time, its changes and leap seconds.
    Flags,
    /// The year.
    Year,
    /// The month.
    Month,
    /// The day of the month.
    DayOfMonth,
    /// The weekday.
    Weekday,
    /// The day of the year.
    DayOfYear,
}

/// What some date tells, and what each value of each field changes in it.
#[derive(Drop)]
pub struct DateRows {
    station: Station,
    some: Part,
    flags: Vec<Part>,
    years: Vec<Part>,
    months: Vec<Part>,
    days: Vec<Part>,
    weekdays: Vec<Part>,
    days_of_year: Vec<Part>,
    ghost some_date: { some ≡ date_part station some_date },
    ghost each_flags: { AreRows station Flags flags.items (count_of Flags) },
    ghost each_year: { AreRows station Year years.items (count_of Year) },
    ghost each_month: { AreRows station Month months.items (count_of Month) },
    ghost each_day: { AreRows station DayOfMonth days.items (count_of DayOfMonth) },
    ghost each_weekday: { AreRows station Weekday weekdays.items (count_of Weekday) },
    ghost each_day_of_year: { AreRows station DayOfYear days_of_year.items (count_of DayOfYear) },
}

impl DateRows {
    /// Works out the parts of a station.
    pub fn make(alloc: Global, station: Station) -> Result<DateRows, AllocError>
        ensures { IfOk result (λ rows. rows.station ≡ station) }
    {
        Ok(DateRows {
            station,
            some: date_part(station, &SOME_DATE),
            flags: rows_of(alloc, station, DateField::Flags)?,
            years: rows_of(alloc, station, DateField::Year)?,
            months: rows_of(alloc, station, DateField::Month)?,
            days: rows_of(alloc, station, DateField::DayOfMonth)?,
            weekdays: rows_of(alloc, station, DateField::Weekday)?,
            days_of_year: rows_of(alloc, station, DateField::DayOfYear)?,
        })
    }

    /// What the date tells, by its facts.
    pub fn part_of(&self, date: &DateFacts) -> Part
        requires { AreInRange date.now }
        ensures { result ≡ date_part self.now.station date.now }
    {
        let flags = &self.flags[value_of(DateField::Flags, date)];
        let year = &self.years[value_of(DateField::Year, date)];
        let month = &self.months[value_of(DateField::Month, date)];
        let day = &self.days[value_of(DateField::DayOfMonth, date)];
        let weekday = &self.weekdays[value_of(DateField::Weekday, date)];
        let day_of_year = &self.days_of_year[value_of(DateField::DayOfYear, date)];
        let mut part = nothing();
        for s in 0..SECONDS {
            part[s] = self.some[s]
                ^ flags[s]
                ^ year[s]
                ^ month[s]
                ^ day[s]
                ^ weekday[s]
                ^ day_of_year[s];
        }
        part
    }
}

// What each value of a field changes.
fn rows_of(alloc: Global, station: Station, field: DateField) -> Result<Vec<Part>, AllocError>
    ensures { IfOk result (λ rows. AreRows station field rows.items (count_of field)) }
{
    let some = date_part(station, &SOME_DATE);
    let count = count_of(field);
    let mut rows = Vec::with_capacity(alloc, count as usize)?;
    for k in 0..count {
        let part = date_part(station, &with_value(field, k));
        rows.push(differences(&part, &some))?;
    }
    Ok(rows)
}

// In which symbols two parts differ.
fn differences(a: &Part, b: &Part) -> Part
    ensures { (s : ℕ) → s < SECONDS → slice_index result s ≡ bit_xor (slice_index a.now s) (slice_index b.now s) }
{
    let mut part = nothing();
    for s in 0..SECONDS {
        part[s] = a[s] ^ b[s];
    }
    part
}

// How many values a field has.
fn count_of(field: DateField) -> u16
    ensures { result ≡ count_of field }
{
    match field {
        DateField::Flags => 32,
        DateField::Year => 101,
        DateField::Month => 12,
        DateField::DayOfMonth => 31,
        DateField::Weekday => 7,
        DateField::DayOfYear => 366,
    }
}

// The number of a field's value, counted from 0.
#[inline(always)]
fn value_of(field: DateField, date: &DateFacts) -> usize
    requires { AreInRange date.now }
    ensures value { result ≡ value_of field date.now }
    ensures bound { result < count_of field }
{
    let day = date.day;
    match field {
        DateField::Flags => flags_of(date) as usize,
        DateField::Year => (day.year - 2000) as usize,
        DateField::Month => (day.month - 1) as usize,
        DateField::DayOfMonth => (day.day - 1) as usize,
        DateField::Weekday => day.weekday as usize,
        DateField::DayOfYear => (day.day_of_year - 1) as usize,
    }
}

// A number for the flags.
fn flags_of(date: &DateFacts) -> u8
    requires { AreInRange date.now }
    ensures value { result ≡ flags_of date.now }
    ensures bound { result < 32 }
{
    date.us_code * 8 + date.leap as u8 * 4 + date.change as u8 * 2 + date.summer as u8
}

// Some date, with this value of a field.
fn with_value(field: DateField, k: u16) -> DateFacts
    requires { k < count_of field }
    ensures value { result ≡ with_value field k }
    ensures ranges { AreInRange result }
{
    let mut date = SOME_DATE;
    match field {
        DateField::Flags => return with_flags(k),
        DateField::Year => date.day.year = 2000 + k,
        DateField::Month => date.day.month = 1 + k as u8,
        DateField::DayOfMonth => date.day.day = 1 + k as u8,
        DateField::Weekday => date.day.weekday = k as u8,
        DateField::DayOfYear => date.day.day_of_year = 1 + k,
    }
    date
}

// Some date with these flags.
fn with_flags(k: u16) -> DateFacts
    requires { k < 32 }
    ensures value { result ≡ with_flags k }
    ensures ranges { AreInRange result }
{
    DateFacts {
        day: SOME_DATE.day,
        summer: k % 2 == 1,
        change: k / 2 % 2 == 1,
        us_code: (k / 8) as u8,
        leap: k / 4 % 2 == 1,
    }
}

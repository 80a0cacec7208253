//! The items of a search: the years of a window's range, for each announcement and first second.

ghost use Rattle.std.specs.Prelude.{◌≡◌, ◌++◌, ◌<◌, ◌≤◌, IfOk, false, true};
ghost use Rattle.std.specs.List.{AllByRecursion};
ghost use Rattle.definitions.specs.answers.Blocks.{IsBlock, blocks, items, span_end};
ghost use Rattle.definitions.specs.declared.block.Span.TheVariants.{Year};
ghost use Rattle.definitions.specs.sequences.Windows.{IsWindow};
ghost use Rattle.definitions.specs.time.Calendar.{century_minutes, is_leap_year};

use crate::ItemsFault;
use civil::Civil;
use definitions::{Block, MINUTES_PER_DAY, Span};
use signal_base::Window;
use std::alloc::{AllocError, Global};

// The years of the century.
const MOST_YEARS: u8 = 100;

// The first seconds that a minute can have, and one more where a leap second is inserted.
const SECONDS: u8 = 60;

/// The items of a window, which are searched one after the other: the years of its range, for each first second from 0 to
/// 59 without a leap second, and then for each from 0 to 60 with one.
pub fn items(alloc: Global, civil: &Civil, window: &Window) -> Result<Vec<Block>, ItemsFault>
    requires { IsWindow window.now }
    ensures value { IfOk result (λ list. list.items ≡ items window.now) }
    ensures blocks { IfOk result (λ list. AllByRecursion (IsBlock window.now) list.items) }
{
    let mut list = Vec::new(alloc);
    for second in 0..SECONDS {
        push_years(&mut list, civil, window, false, second)?;
    }
    for second in 0..SECONDS + 1 {
        push_years(&mut list, civil, window, true, second)?;
    }
    Ok(list)
}

// Appends the years of one announcement and one first second.
fn push_years(
    list: &mut Vec<Block>,
    civil: &Civil,
    window: &Window,
    announced: bool,
    second: u8,
) -> Result<(), AllocError>
    requires { IsWindow window.now }
    ensures { IfOk result (λ _. list.new.items ≡ list.old.items ++ blocks announced second Year 100 window.now.from window.now.to) }
{
    let mut lo = window.from;
    for _ in 0..MOST_YEARS {
        if lo >= window.to {
            return Ok(());
        }
        let hi = year_end(civil, lo).min(window.to);
        let year = Block {
            announced,
            second,
            span: Span::Year,
            lo,
            hi,
        };
        list.push(year)?;
        lo = hi;
    }
    Ok(())
}

// The first minute after the UTC year in which the minute lies.
fn year_end(civil: &Civil, t: u32) -> u32
    requires { t < century_minutes }
    ensures { result ≡ span_end Year t }
{
    let fields = civil.utc(t);
    let days: u32 = if is_leap_year(fields.year) { 366 } else { 365 };
    let days_left = days.saturating_sub(fields.day_of_year as u32);
    (t / MINUTES_PER_DAY + days_left + 1) * MINUTES_PER_DAY
}

// The Gregorian rule.
fn is_leap_year(year: u16) -> bool
    ensures { result ≡ is_leap_year year }
{
    year % 4 == 0 && (year % 100 != 0 || year % 400 == 0)
}

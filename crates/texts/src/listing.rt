//! The listing of a minute.

ghost use Rattle.std.specs.Prelude.{◌≡◌, ◌<◌, ◌≤◌, length, All};
ghost use Rattle.bank_files.specs.Told.{output_name};
ghost use Rattle.bank_files.specs.Seen.{Writes};
ghost use Rattle.definitions.specs.time.Calendar.{century_minutes};
ghost use Rattle.definitions.specs.codes.Allowed.{encoded_year};
ghost use Rattle.definitions.specs.codes.Listing.{character_of, characters, listed, symbol_characters};
ghost use Rattle.formats.specs.Bytes.{line};
ghost use Rattle.formats.specs.Listing.{listing, listing_head};

use crate::page::{Line, Page};
use crate::pieces::{name_of, push_ascii, push_minute, push_two_digits};
use bank_files::{Failed, Files};
use civil::Civil;
use sequence::{minute_length, set_in};
use signal_base::{Station, UNSCORED};

// The set of the symbols 0 and 1.
const FREE: u8 = 3;

/// Writes the listing of a minute to standard output, with a leap second in it where `leap` says so and the minute
/// ends a June or December. The station can encode the minute: the year that it sends there is at most 2099.
pub fn write_listing<F: Files>(
    files: &mut F,
    civil: &Civil,
    station: Station,
    minute: u32,
    leap: bool,
) -> Result<(), Failed>
    requires century { minute < century_minutes }
    requires encoded { encoded_year station minute ≤ 2099 }
    ensures { Writes output_name (F.view files.old) (F.view files.new) (listing station leap minute) result }
{
    listing_of(civil, station, minute, leap).write(files)
}

fn listing_of(civil: &Civil, station: Station, minute: u32, leap: bool) -> Page
    requires century { minute < century_minutes }
    requires encoded { encoded_year station minute ≤ 2099 }
    ensures { result.text.bytes ≡ listing station leap minute }
{
    let mut page = Page::new();
    page.push(&head_line(civil, station, minute, leap));
    page.push(&characters_line(civil, station, minute, leap));
    page
}

// The station, the minute and its length.
fn head_line(civil: &Civil, station: Station, minute: u32, leap: bool) -> Line
    requires { minute < century_minutes }
    ensures { result.bytes ≡ listing_head station leap minute }
{
    let mut text = Line::new();
    text.push_str("encode ");
    text.push_str(name_of(station));
    text.push_str(" ");
    push_minute(&mut text, civil, minute);
    text.push_str(" ");
    push_two_digits(&mut text, minute_length(civil, minute, leap) as u16);
    text.push_str("\n");
    text
}

// A character for each second.
fn characters_line(civil: &Civil, station: Station, minute: u32, leap: bool) -> Line
    requires century { minute < century_minutes }
    requires encoded { encoded_year station minute ≤ 2099 }
    ensures { result.bytes ≡ line (characters station leap minute) }
{
    let mut text = Line::new();
    for second in 0..minute_length(civil, minute, leap) {
        let set = set_in(civil, station, leap, (minute, second));
        push_ascii(&mut text, listed(station, set));
    }
    text.push_str("\n");
    text
}

/// The character of a second that may carry this set.
pub fn listed(station: Station, set: u8) -> u8
    ensures character { result ≡ listed station set }
    ensures ascii { result < 128 }
{
    if set == UNSCORED {
        return b'*';
    }
    if set == FREE {
        return b'?';
    }
    character_of(symbol_characters(station), set)
}

// The characters of a station's symbols, in their order.
fn symbol_characters(station: Station) -> &'static [u8]
    ensures characters { result.now ≡ symbol_characters station }
    ensures ascii { All (λ c. c < 128) result.now }
{
    match station {
        Station::Dcf77 => b"01-",
        Station::Msf => b"0123M",
        Station::Wwvb | Station::Jjy => b"01M",
    }
}

// The character of the only symbol of a set, and a space for a set of none of the symbols.
fn character_of(characters: &[u8], set: u8) -> u8
    requires { All (λ c. c < 128) characters.now }
    ensures character { result ≡ character_of characters.now set }
    ensures ascii { result < 128 }
{
    let mut left = set;
    for character in characters {
        if left == 1 {
            return *character;
        }
        left /= 2;
    }
    b' '
}

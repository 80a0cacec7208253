//! The lines of what was heard: of a slot and a station with its receivers, and of the receivers' sums.

ghost use Rattle.std.specs.Prelude.{◌≡◌, ◌+◌, ◌*◌, ◌<◌, ◌≤◌, ◌++◌, ◌∷◌, [], Some, codes, length};
ghost use Rattle.std.specs.Fmt.{decimal};
ghost use Rattle.std.specs.List.{flat_map};
ghost use Rattle.std.specs.Option.{ForSome};
ghost use Rattle.arrayvec.specs.ArrayString.{array_string_len};
ghost use Rattle.bank_files.specs.Told.{output_name};
ghost use Rattle.bank_files.specs.Seen.{Writes};
ghost use Rattle.definitions.specs.time.Calendar.{century_minutes};
ghost use Rattle.definitions.specs.time.Spelling.{minute_text};
ghost use Rattle.definitions.specs.codes.Vocabulary.{only};
ghost use Rattle.formats.specs.Bytes.{line_feed, space, station_name};
ghost use Rattle.formats.specs.Heard.{receiver_line, set_of_symbol, slot_line, sum_line, symbol_text};
ghost use Rattle.formats.specs.Reports.{next_line};
ghost use Rattle.texts.specs.declared.heard.TheConstants.{MOST_SYMBOLS};
ghost use Rattle.texts.specs.declared.page.TheConstants.{LINE_ROOM};

use crate::listing::listed;
use crate::page::{Line, MOST_LINES, Page};
use crate::pieces::{name_of, push_ascii, push_minute};
use crate::report::next_line;
use bank_files::{Failed, Files, push_number};
use civil::Civil;
use formats::{ReceiverHeard, SlotHeard};
use signal_base::{MOST_RECEIVERS, Station, UNSCORED};

/// The most symbols that a station has.
pub const MOST_SYMBOLS: u8 = 5;

/// Writes the lines of a slot and a station to standard output: the slot's own, and that of each of its receivers.
pub fn write_slot_heard<F: Files>(
    files: &mut F,
    civil: &Civil,
    slot: &SlotHeard,
    receivers: &[ReceiverHeard],
) -> Result<(), Failed>
    requires century { slot.now.minute < century_minutes }
    requires sent { ForSome slot.now.sent (λ x. x < MOST_SYMBOLS) }
    requires best { slot.now.best < MOST_SYMBOLS }
    requires few { length receivers.now ≤ MOST_RECEIVERS }
    ensures { Writes output_name (F.view files.old) (F.view files.new) (slot_line slot.now ++ flat_map receiver_line receivers.now) result }
{
    slot_page(civil, slot, receivers).write(files)
}

/// Writes the line of each receiver's sum to standard output, and behind them that of the next cost, as a report says it.
pub fn write_sums_heard<F: Files>(
    files: &mut F,
    sums: &[ReceiverHeard],
    next: Option<u32>,
) -> Result<(), Failed>
    requires { length sums.now ≤ MOST_RECEIVERS }
    ensures { Writes output_name (F.view files.old) (F.view files.new) (flat_map sum_line sums.now ++ next_line next) result }
{
    sums_page(sums, next).write(files)
}

fn slot_page(civil: &Civil, slot: &SlotHeard, receivers: &[ReceiverHeard]) -> Page
    requires century { slot.now.minute < century_minutes }
    requires sent { ForSome slot.now.sent (λ x. x < MOST_SYMBOLS) }
    requires best { slot.now.best < MOST_SYMBOLS }
    requires few { length receivers.now ≤ MOST_RECEIVERS }
    ensures { result.text.bytes ≡ slot_line slot.now ++ flat_map receiver_line receivers.now }
{
    let mut page = Page::new();
    push_slot(&mut page, civil, slot);
    push_receivers(&mut page, receivers);
    page
}

// Adds the line of each receiver in a slot.
fn push_receivers(page: &mut Page, receivers: &[ReceiverHeard])
    requires { page.old.lines + 2 * length receivers.now ≤ MOST_LINES }
    ensures { page.new.text.bytes ≡ page.old.text.bytes ++ flat_map receiver_line receivers.now }
{
    for receiver in receivers {
        push_receiver(page, receiver);
    }
}

fn sums_page(sums: &[ReceiverHeard], next: Option<u32>) -> Page
    requires { length sums.now ≤ MOST_RECEIVERS }
    ensures { result.text.bytes ≡ flat_map sum_line sums.now ++ next_line next }
{
    let mut page = Page::new();
    for sum in sums {
        push_sum(&mut page, sum);
    }
    page.push(&next_line(next));
    page
}

// Adds the line of a slot, which is longer than a line of a page, so that it takes the room of three.
fn push_slot(page: &mut Page, civil: &Civil, slot: &SlotHeard)
    requires room { page.old.lines + 3 ≤ MOST_LINES }
    requires century { slot.now.minute < century_minutes }
    requires sent { ForSome slot.now.sent (λ x. x < MOST_SYMBOLS) }
    requires best { slot.now.best < MOST_SYMBOLS }
    ensures bytes { page.new.text.bytes ≡ page.old.text.bytes ++ slot_line slot.now }
    ensures lines { page.new.lines ≡ page.old.lines + 3 }
{
    page.push(&slot_head(civil, slot));
    page.push(&slot_sent(slot));
    page.push(&slot_best(slot));
}

// Adds the line of a receiver in a slot, which takes the room of two.
fn push_receiver(page: &mut Page, receiver: &ReceiverHeard)
    requires room { page.old.lines + 2 ≤ MOST_LINES }
    ensures bytes { page.new.text.bytes ≡ page.old.text.bytes ++ receiver_line receiver.now }
    ensures lines { page.new.lines ≡ page.old.lines + 2 }
{
    page.push(&receiver_head("", receiver));
    page.push(&receiver_cost(receiver));
}

// Adds the line of a receiver's sum, which takes the room of two.
fn push_sum(page: &mut Page, sum: &ReceiverHeard)
    requires room { page.old.lines + 2 ≤ MOST_LINES }
    ensures bytes { page.new.text.bytes ≡ page.old.text.bytes ++ sum_line sum.now }
    ensures lines { page.new.lines ≡ page.old.lines + 2 }
{
    page.push(&receiver_head("sum ", sum));
    page.push(&receiver_cost(sum));
}

// Which second the slot has.
fn slot_head(civil: &Civil, slot: &SlotHeard) -> Line
    requires { slot.now.minute < century_minutes }
    ensures { result.bytes ≡ codes "slot " ++ decimal slot.now.slot ++ space ∷ minute_text slot.now.minute ++ space ∷ decimal slot.now.second }
{
    let mut text = Line::new();
    text.push_str("slot ");
    push_number(&mut text, slot.slot as u64);
    text.push_str(" ");
    push_minute(&mut text, civil, slot.minute);
    text.push_str(" ");
    push_number(&mut text, slot.second as u64);
    text
}

// What the station sent in it.
fn slot_sent(slot: &SlotHeard) -> Line
    requires { ForSome slot.now.sent (λ x. x < MOST_SYMBOLS) }
    ensures { result.bytes ≡ space ∷ station_name slot.now.station ++ codes " sent " ++ symbol_text slot.now.station slot.now.sent ++ codes " cost " ++ decimal slot.now.cost }
{
    let mut text = Line::new();
    text.push_str(" ");
    text.push_str(name_of(slot.station));
    text.push_str(" sent ");
    push_symbol(&mut text, slot.station, slot.sent);
    text.push_str(" cost ");
    push_number(&mut text, slot.cost as u64);
    text
}

// What was heard best, and the end of the line.
fn slot_best(slot: &SlotHeard) -> Line
    requires { slot.now.best < MOST_SYMBOLS }
    ensures { result.bytes ≡ codes " best " ++ symbol_text slot.now.station (Some slot.now.best) ++ codes " cost " ++ decimal slot.now.best_cost ++ line_feed ∷ [] }
{
    let mut text = Line::new();
    text.push_str(" best ");
    push_symbol(&mut text, slot.station, Some(slot.best));
    text.push_str(" cost ");
    push_number(&mut text, slot.best_cost as u64);
    text.push_str("\n");
    text
}

// Which receiver it is, and how much it doesn't know.
fn receiver_head(word: &str, receiver: &ReceiverHeard) -> Line
    requires { length word.now ≤ 4 }
    ensures { result.bytes ≡ word.now ++ codes "receiver " ++ decimal receiver.now.number ++ codes " unknown " ++ decimal receiver.now.unknown }
{
    let mut text = Line::new();
    text.push_str(word);
    text.push_str("receiver ");
    push_number(&mut text, receiver.number as u64);
    text.push_str(" unknown ");
    push_number(&mut text, receiver.unknown as u64);
    text
}

// What it costs, and the end of the line.
fn receiver_cost(receiver: &ReceiverHeard) -> Line
    ensures { result.bytes ≡ codes " cost " ++ decimal receiver.now.cost ++ line_feed ∷ [] }
{
    let mut text = Line::new();
    text.push_str(" cost ");
    push_number(&mut text, receiver.cost as u64);
    text.push_str("\n");
    text
}

// Adds a symbol as a listing writes it.
fn push_symbol(text: &mut Line, station: Station, symbol: Option<u8>)
    requires known { ForSome symbol (λ x. x < MOST_SYMBOLS) }
    requires room { array_string_len text.old < LINE_ROOM }
    ensures bytes { text.new.bytes ≡ text.old.bytes ++ symbol_text station symbol }
    ensures len { array_string_len text.new ≡ array_string_len text.old + 1 }
{
    push_ascii(text, listed(station, set_of(symbol)));
}

// The set of one symbol, and the one of a second that isn't scored where there is none.
fn set_of(symbol: Option<u8>) -> u8
    requires { ForSome symbol (λ x. x < MOST_SYMBOLS) }
    ensures { result ≡ set_of_symbol symbol }
{
    match symbol {
        None => UNSCORED,
        Some(x) => only(x),
    }
}

fn only(x: u8) -> u8
    requires { x < MOST_SYMBOLS }
    ensures { result ≡ only x }
{
    match x {
        0 => 1,
        1 => 2,
        2 => 4,
        3 => 8,
        _ => 16,
    }
}

//! Writing what is due of `board`. Nothing here reads a file or takes memory.

ghost use Rattle.std.specs.Prelude.{◌≡◌, ◌<◌, ◌≤◌, length, map, slice_index, take};
ghost use Rattle.bank_files.specs.Seen.{Writes};
ghost use Rattle.bank_files.specs.Told.{output_name};
ghost use Rattle.board_entries.specs.Board.{told_of};
ghost use Rattle.board_entries.specs.Plain.{plain};
ghost use Rattle.board_due.specs.BoardAnswers.{at_lines, board_text, live_lines};
ghost use Rattle.board_due.specs.BoardDues.{board_due_text, board_outputs};
ghost use Rattle.board_due.specs.BoardTexts.{at_line, bad_query_line, live_line, told_text, too_large_line};
ghost use Rattle.clock_board.specs.Telling.{IsTold};
ghost use Rattle.bank.specs.Ending.{WritesAll};
ghost use Rattle.board.specs.Finding.{AreAnswerable, CanBeWritten};

use crate::minute::{ToldText, push_minute};
use bank::print;
use bank_files::{Failed, Files, OUTPUT, Text, push_number, write_text};
use board_due::{BoardDue, Entries, Numbers};
use board_entries::{Entry, Told};
use civil::Civil;
use clock_board::told_of;

/// Writes all that `board` writes where this is due: its text, to standard output.
pub fn deliver<F: Files>(files: &mut F, civil: &Civil, due: &BoardDue) -> Result<(), Failed>
    requires { CanBeWritten due.now }
    ensures { WritesAll (board_outputs due.now) (F.view files.old) (F.view files.new) result }
{
    print_due(files, civil, due)
}

// Writes the text of what is due to standard output.
fn print_due<F: Files>(files: &mut F, civil: &Civil, due: &BoardDue) -> Result<(), Failed>
    requires { CanBeWritten due.now }
    ensures { Writes output_name (F.view files.old) (F.view files.new) (board_due_text due.now) result }
{
    match due {
        BoardDue::Told { due } => print(files, civil, due),
        BoardDue::TooLarge => write_text(files, OUTPUT, &too_large()),
        BoardDue::BadLine { line } => write_text(files, OUTPUT, &bad_line(*line)),
        BoardDue::Answers {
            entries,
            queries,
            counts,
        } => write_answers(files, civil, entries, queries, counts),
    }
}

// Writes the answers that were given while entries were published, and then those by all entries.
fn write_answers<F: Files>(
    files: &mut F,
    civil: &Civil,
    entries: &Entries,
    queries: &Numbers,
    counts: &Numbers,
) -> Result<(), Failed>
    requires { AreAnswerable entries.now queries.now counts.now }
    ensures { Writes output_name (F.view files.old) (F.view files.new) (board_text entries.now queries.now counts.now) result }
{
    let entries = entries.as_slice();
    let queries = queries.as_slice();
    let counts = counts.as_slice();
    write_live_lines(files, civil, entries, queries, counts)?;
    write_at_lines(files, civil, entries, queries)
}

fn too_large() -> Text
    ensures { result.bytes ≡ too_large_line }
{
    let mut text = Text::new();
    text.push_str("queries: too large\n");
    text
}

fn bad_line(line: u32) -> Text
    ensures { result.bytes ≡ bad_query_line line }
{
    let mut text = Text::new();
    text.push_str("queries: line ");
    push_number(&mut text, line as u64);
    text.push_str(": shape\n");
    text
}

// Writes the answers that were given while entries were published, one after the other.
fn write_live_lines<F: Files>(
    files: &mut F,
    civil: &Civil,
    entries: &[Entry],
    queries: &[u64],
    counts: &[u64],
) -> Result<(), Failed>
    requires { AreAnswerable (map plain entries.now) queries.now counts.now }
    ensures { Writes output_name (F.view files.old) (F.view files.new) (live_lines (map plain entries.now) queries.now counts.now) result }
{
    for i in 0..queries.len() {
        let ms = number_at(queries, i);
        write_live_line(files, civil, entries, ms, number_at(counts, i))?;
    }
    Ok(())
}

// Writes the answer by the first so many entries.
fn write_live_line<F: Files>(
    files: &mut F,
    civil: &Civil,
    entries: &[Entry],
    ms: u64,
    count: u64,
) -> Result<(), Failed>
    requires { count ≤ length entries.now }
    ensures { Writes output_name (F.view files.old) (F.view files.new) (live_line ms (told_of (take count (map plain entries.now)) ms) count) result }
{
    let told = first_told(civil, entries, count, ms);
    write_text(files, OUTPUT, &live_line(civil, ms, &told, count))
}

// What the first so many entries tell.
fn first_told(civil: &Civil, entries: &[Entry], count: u64, ms: u64) -> Told
    requires { count ≤ length entries.now }
    ensures told { result ≡ told_of (take count (map plain entries.now)) ms }
    ensures century { IsTold result }
{
    told_of(civil, &entries[..count as usize], ms)
}

// The number of this place.
fn number_at(numbers: &[u64], i: usize) -> u64
    requires { i < length numbers.now }
    ensures { result ≡ slice_index numbers.now i }
{
    numbers[i]
}

// Writes the answers by all entries, one after the other.
fn write_at_lines<F: Files>(
    files: &mut F,
    civil: &Civil,
    entries: &[Entry],
    queries: &[u64],
) -> Result<(), Failed>
    ensures { Writes output_name (F.view files.old) (F.view files.new) (at_lines (map plain entries.now) queries.now) result }
{
    for i in 0..queries.len() {
        write_at_line(files, civil, entries, number_at(queries, i))?;
    }
    Ok(())
}

// Writes the answer by all entries.
fn write_at_line<F: Files>(
    files: &mut F,
    civil: &Civil,
    entries: &[Entry],
    ms: u64,
) -> Result<(), Failed>
    ensures { Writes output_name (F.view files.old) (F.view files.new) (at_line ms (told_of (map plain entries.now) ms)) result }
{
    let told = told_of(civil, entries, ms);
    write_text(files, OUTPUT, &at_line(civil, ms, &told))
}

fn live_line(civil: &Civil, ms: u64, told: &Told, count: u64) -> Text
    requires { IsTold told.now }
    ensures { result.bytes ≡ live_line ms told.now count }
{
    let mut text = Text::new();
    text.push_str("live ");
    push_number(&mut text, ms);
    text.push_str(" ");
    text.push_str(told_text(civil, told).as_str());
    text.push_str(" of ");
    push_number(&mut text, count);
    text.push_str("\n");
    text
}

fn at_line(civil: &Civil, ms: u64, told: &Told) -> Text
    requires { IsTold told.now }
    ensures { result.bytes ≡ at_line ms told.now }
{
    let mut text = Text::new();
    text.push_str("at ");
    push_number(&mut text, ms);
    text.push_str(" ");
    text.push_str(told_text(civil, told).as_str());
    text.push_str("\n");
    text
}

// What is told of a millisecond.
fn told_text(civil: &Civil, told: &Told) -> ToldText
    requires { IsTold told.now }
    ensures { result.bytes ≡ told_text told.now }
{
    let mut text = ToldText::new();
    match told {
        Told::Unknown => text.push_str("unknown"),
        Told::At { minute, second } => {
            push_minute(&mut text, civil, *minute);
            text.push_str(" ");
            push_number(&mut text, *second as u64);
        }
    }
    text
}

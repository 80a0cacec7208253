//! The report of an answer.

ghost use Rattle.std.specs.Prelude.{◌≡◌, ◌+◌, ◌<◌, ◌≤◌, ◌++◌, length};
ghost use Rattle.bank_files.specs.Told.{output_name};
ghost use Rattle.bank_files.specs.Seen.{Writes};
ghost use Rattle.definitions.specs.time.Calendar.{century_minutes};
ghost use Rattle.formats.specs.Reports.{dut_line, dut_lines, minute_line, next_line, phase_line, report};
ghost use Rattle.formats.specs.declared.limits.TheConstants.{TIME_LIMIT};
ghost use Rattle.texts.specs.Reportable.{IsReportable};

use crate::lines::{number_line, sequence_line, words_line};
use crate::minutes::{MinuteText, push_minutes};
use crate::page::{Line, MOST_LINES, Page};
use crate::pieces::{name_of, push_minute};
use bank_files::{Failed, Files, push_number};
use civil::Civil;
use itoa::Buffer;
use sequence::Answer;
use signal_base::{Dut, StationDut, Window};

// The most stations of a window.
const MOST_STATIONS: usize = 4;

/// Writes the report of an answer to standard output. The answer's sequences are walkable in the window, and `duts`
/// has what each station of the window tells of DUT1, in the order DCF77, MSF, WWVB, JJY.
pub fn write_report<F: Files>(
    files: &mut F,
    civil: &Civil,
    window: &Window,
    answer: &Answer,
    duts: &[StationDut],
) -> Result<(), Failed>
    requires answer { IsReportable window.now answer.now }
    requires duts { length duts.now ≤ MOST_STATIONS }
    ensures { Writes output_name (F.view files.old) (F.view files.new) (report window.now duts.now answer.now) result }
{
    report_of(civil, window, answer, duts).write(files)
}

fn report_of(civil: &Civil, window: &Window, answer: &Answer, duts: &[StationDut]) -> Page
    requires answer { IsReportable window.now answer.now }
    requires duts { length duts.now ≤ MOST_STATIONS }
    ensures { result.text.bytes ≡ report window.now duts.now answer.now }
{
    let mut page = Page::new();
    match answer {
        Answer::Nothing => {
            page.push(&words_line("none"));
            page.push(&phase_line(window));
        }
        Answer::Decided {
            cost,
            sequence,
            next,
        } => {
            page.push(&number_line("decided ", *cost));
            page.push(&phase_line(window));
            page.push(&sequence_line("sequence ", civil, sequence));
            page.push(&next_line(*next));
            push_duts(&mut page, duts);
            push_minutes(
                &mut page,
                &ReportMinutes { window: *window },
                civil,
                window,
                sequence,
            );
        }
        Answer::Undecided {
            cost,
            sequence,
            other,
        } => {
            page.push(&number_line("undecided ", *cost));
            page.push(&phase_line(window));
            page.push(&sequence_line("sequence ", civil, sequence));
            page.push(&sequence_line("sequence ", civil, other));
        }
    }
    page
}

fn phase_line(window: &Window) -> Line
    ensures { result.bytes ≡ phase_line window.now }
{
    let mut text = Line::new();
    text.push_str("phase ");
    push_number(&mut text, window.phase as u64);
    text.push_str("\n");
    text
}

/// The line of what the next sequence costs.
pub fn next_line(next: Option<u32>) -> Line
    ensures { result.bytes ≡ next_line next }
{
    let mut text = Line::new();
    text.push_str("next ");
    match next {
        None => text.push_str("none"),
        Some(cost) => push_number(&mut text, cost as u64),
    }
    text.push_str("\n");
    text
}

fn push_duts(page: &mut Page, duts: &[StationDut])
    requires { page.old.lines + length duts.now ≤ MOST_LINES }
    ensures bytes { page.new.text.bytes ≡ page.old.text.bytes ++ dut_lines duts.now }
    ensures lines { page.new.lines ≡ page.old.lines + length duts.now }
{
    let several = duts.len() > 1;
    for dut in duts {
        page.push(&dut_line(several, dut));
    }
}

// The line of a station that sends DUT1, and else nothing.
fn dut_line(several: bool, dut: &StationDut) -> Line
    ensures { result.bytes ≡ dut_line several dut.now }
{
    let mut text = Line::new();
    if dut.dut == Dut::Absent {
        return text;
    }
    text.push_str("dut1 ");
    if several {
        text.push_str(name_of(dut.station));
        text.push_str(" ");
    }
    match dut.dut {
        Dut::Absent => {}
        Dut::Free => text.push_str("free"),
        Dut::Tied => text.push_str("undecided"),
        Dut::Tenths(tenths) => text.push_str(Buffer::new().format(tenths)),
    }
    text.push_str("\n");
    text
}

// The minutes of a report.
#[derive(Drop)]
struct ReportMinutes {
    window: Window,
    ghost start: { window.start < TIME_LIMIT },
}

impl MinuteText for ReportMinutes {
    ghost use Rattle.formats.specs.Reports.{minute_line};

    ghost text = { λ minutes. minute_line minutes.window };

    fn line(&self, civil: &Civil, t: u32, slot: u16) -> Line {
        minute_line(civil, &self.window, t, slot)
    }
}

// The line of a minute that begins in a slot.
fn minute_line(civil: &Civil, window: &Window, t: u32, slot: u16) -> Line
    requires century { t < century_minutes }
    requires start { window.now.start < TIME_LIMIT }
    ensures { result.bytes ≡ minute_line window.now t slot }
{
    let mut text = Line::new();
    text.push_str("minute ");
    push_minute(&mut text, civil, t);
    text.push_str(" at ");
    push_number(
        &mut text,
        window.start + window.phase as u64 + 1000 * slot as u64,
    );
    text.push_str("\n");
    text
}

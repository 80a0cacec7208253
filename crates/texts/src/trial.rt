//! The summary of a trial.

ghost use Rattle.std.specs.Prelude.{◌≡◌, ◌+◌, ◌≤◌, ◌++◌, codes};
ghost use Rattle.bank_files.specs.Told.{output_name};
ghost use Rattle.bank_files.specs.Seen.{Writes};
ghost use Rattle.definitions.specs.sequences.Walks.{IsSequence};
ghost use Rattle.formats.specs.Bytes.{line, station_name};
ghost use Rattle.formats.specs.Trials.{trial_answer, trial_summary};
ghost use Rattle.texts.specs.Reportable.{NamesSequences};

use crate::lines::{number_line, sequence_line, words_line};
use crate::page::{Line, MOST_LINES, Page};
use crate::pieces::name_of;
use bank_files::{Failed, Files};
use civil::Civil;
use sequence::{Answer, Sequence};
use signal_base::Station;

/// Writes the summary of a trial to standard output: its number, its station, how many receivers heard it, the sequence
/// that was sent, and the answer that it led to. It takes the parts of a trial, so that this crate needn't stand on the one
/// that makes trials.
pub fn write_trial<F: Files>(
    files: &mut F,
    civil: &Civil,
    number: u32,
    station: Station,
    receivers: u8,
    sent: &Sequence,
    answer: &Answer,
) -> Result<(), Failed>
    requires sent { IsSequence sent.now }
    requires answer { NamesSequences answer.now }
    ensures { Writes output_name (F.view files.old) (F.view files.new) (trial_summary number station receivers sent.now answer.now) result }
{
    summary_of(civil, number, station, receivers, sent, answer).write(files)
}

fn summary_of(
    civil: &Civil,
    number: u32,
    station: Station,
    receivers: u8,
    sent: &Sequence,
    answer: &Answer,
) -> Page
    requires sent { IsSequence sent.now }
    requires answer { NamesSequences answer.now }
    ensures { result.text.bytes ≡ trial_summary number station receivers sent.now answer.now }
{
    let mut page = Page::new();
    page.push(&number_line("trial ", number));
    page.push(&station_line(station));
    page.push(&number_line("receivers ", receivers as u32));
    page.push(&sequence_line("sent ", civil, sent));
    push_answer(&mut page, civil, answer);
    page
}

fn station_line(station: Station) -> Line
    ensures { result.bytes ≡ line (codes "station " ++ station_name station) }
{
    let mut text = Line::new();
    text.push_str("station ");
    text.push_str(name_of(station));
    text.push_str("\n");
    text
}

// Adds the answer, by its sequences alone.
fn push_answer(page: &mut Page, civil: &Civil, answer: &Answer)
    requires room { page.old.lines + 3 ≤ MOST_LINES }
    requires answer { NamesSequences answer.now }
    ensures { page.new.text.bytes ≡ page.old.text.bytes ++ trial_answer answer.now }
{
    match answer {
        Answer::Nothing => page.push(&words_line("none")),
        Answer::Decided { sequence, .. } => {
            page.push(&words_line("decided"));
            page.push(&sequence_line("first ", civil, sequence));
        }
        Answer::Undecided {
            sequence,
            other,
            ..
        } => {
            page.push(&words_line("undecided"));
            page.push(&sequence_line("first ", civil, sequence));
            page.push(&sequence_line("other ", civil, other));
        }
    }
}

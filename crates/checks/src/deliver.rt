//! Writing what is due of `check`. Nothing here reads a file or takes memory.

ghost use Rattle.std.specs.Prelude.{◌≡◌, ◌≤◌, codes, length};
ghost use Rattle.bank_files.specs.Seen.{Writes};
ghost use Rattle.bank_files.specs.Told.{output_name};
ghost use Rattle.formats.specs.Bytes.{line};
ghost use Rattle.formats.specs.Reports.{certified_report};
ghost use Rattle.texts.specs.Reportable.{IsReportable};
ghost use Rattle.due.specs.CheckDues.{check_text};
ghost use Rattle.due.specs.declared.duts.TheConstants.{MOST_STATIONS};
ghost use Rattle.check_due.specs.CheckTexts.{check_outputs, owed_text};
ghost use Rattle.bank.specs.Ending.{WritesAll};
ghost use Rattle.checks.specs.Writable.{CanBeTold, CanBeWritten};

use crate::fault_line::fault_line;
use bank::print;
use bank_files::{Failed, Files, OUTPUT, Text, write_text};
use check_due::CheckOwed;
use civil::Civil;
use due::CheckDue;
use sequence::Answer;
use signal_base::{StationDut, Window};
use texts::write_report;

/// Writes all that `check` writes where this is due: its text, to standard output.
pub fn deliver<F: Files>(files: &mut F, civil: &Civil, owed: &CheckOwed) -> Result<(), Failed>
    requires { CanBeWritten owed.now }
    ensures { WritesAll (check_outputs owed.now) (F.view files.old) (F.view files.new) result }
{
    print_owed(files, civil, owed)
}

fn print_owed<F: Files>(files: &mut F, civil: &Civil, owed: &CheckOwed) -> Result<(), Failed>
    requires { CanBeWritten owed.now }
    ensures { Writes output_name (F.view files.old) (F.view files.new) (owed_text owed.now) result }
{
    match owed {
        CheckOwed::Told { due } => print(files, civil, due),
        CheckOwed::Judged { due } => print_judged(files, civil, due),
    }
}

// What is told of a certificate.
fn print_judged<F: Files>(files: &mut F, civil: &Civil, due: &CheckDue) -> Result<(), Failed>
    requires { CanBeTold due.now }
    ensures { Writes output_name (F.view files.old) (F.view files.new) (check_text due.now) result }
{
    match due {
        CheckDue::Certified {
            window,
            answer,
            duts,
        } => print_certified(files, civil, window, answer, duts.as_slice()),
        CheckDue::NotCertified { fault } => write_text(files, OUTPUT, &fault_line(*fault)),
    }
}

/// Writes that it is certified, and then the report of the answer, to standard output.
pub fn print_certified<F: Files>(
    files: &mut F,
    civil: &Civil,
    window: &Window,
    answer: &Answer,
    duts: &[StationDut],
) -> Result<(), Failed>
    requires answer { IsReportable window.now answer.now }
    requires duts { length duts.now ≤ MOST_STATIONS }
    ensures { Writes output_name (F.view files.old) (F.view files.new) (certified_report window.now duts.now answer.now) result }
{
    write_text(files, OUTPUT, &certified_line())?;
    write_report(files, civil, window, answer, duts)
}

fn certified_line() -> Text
    ensures { result.bytes ≡ line (codes "certified") }
{
    let mut text = Text::new();
    text.push_str("certified\n");
    text
}

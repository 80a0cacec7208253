//! Writing what is due of `follow`. Nothing here reads a file or takes memory.

ghost use Rattle.std.specs.Prelude.{◌≡◌, All};
ghost use Rattle.bank_files.specs.Seen.{Writes};
ghost use Rattle.bank_files.specs.Told.{output_name};
ghost use Rattle.follow_due.specs.FollowDues.{follow_outputs, follow_text, window_line, window_text, windows_text};
ghost use Rattle.bank.specs.Ending.{WritesAll};
ghost use Rattle.follow.specs.Finding.{CanBeReported, CanBeWritten};

use bank::print;
use bank_files::{Failed, Files, OUTPUT, Text, push_number, write_text};
use civil::Civil;
use follow_due::{FollowDue, WindowReport};
use signal_base::Window;
use texts::write_report;

/// Writes all that `follow` writes where this is due: its text, to standard output.
pub fn deliver<F: Files>(files: &mut F, civil: &Civil, due: &FollowDue) -> Result<(), Failed>
    requires { CanBeWritten due.now }
    ensures { WritesAll (follow_outputs due.now) (F.view files.old) (F.view files.new) result }
{
    print_due(files, civil, due)
}

// Writes the text of what is due to standard output.
fn print_due<F: Files>(files: &mut F, civil: &Civil, due: &FollowDue) -> Result<(), Failed>
    requires { CanBeWritten due.now }
    ensures { Writes output_name (F.view files.old) (F.view files.new) (follow_text due.now) result }
{
    match due {
        FollowDue::Told { due } => print(files, civil, due),
        FollowDue::Windows { reports } => write_windows(files, civil, reports.as_slice()),
    }
}

// Writes what is told of windows, one after the other.
fn write_windows<F: Files>(
    files: &mut F,
    civil: &Civil,
    reports: &[WindowReport],
) -> Result<(), Failed>
    requires { All CanBeReported reports.now }
    ensures { Writes output_name (F.view files.old) (F.view files.new) (windows_text reports.now) result }
{
    for i in 0..reports.len() {
        write_window(files, civil, &reports[i])?;
    }
    Ok(())
}

// Writes what is told of a window: its line, and then its report.
fn write_window<F: Files>(files: &mut F, civil: &Civil, told: &WindowReport) -> Result<(), Failed>
    requires { CanBeReported told.now }
    ensures { Writes output_name (F.view files.old) (F.view files.new) (window_text told.now) result }
{
    write_text(files, OUTPUT, &window_line(&told.window))?;
    write_report(
        files,
        civil,
        &told.window,
        &told.answer,
        told.duts.as_slice(),
    )
}

// The line of a window: when it starts.
fn window_line(window: &Window) -> Text
    ensures { result.bytes ≡ window_line window.now }
{
    let mut text = Text::new();
    text.push_str("window ");
    push_number(&mut text, window.start);
    text.push_str("\n");
    text
}

//! Writing what is due of `judge`. Nothing here reads a file or takes memory.

ghost use Rattle.std.specs.Prelude.{◌≡◌, ◌++◌, codes};
ghost use Rattle.std.specs.Fmt.{decimal};
ghost use Rattle.bank_files.specs.Seen.{Writes};
ghost use Rattle.bank_files.specs.Told.{output_name};
ghost use Rattle.formats.specs.Bytes.{line};
ghost use Rattle.formats.specs.Refusals.{certificate_fault_text};
ghost use Rattle.due.specs.CheckDues.{fault_of};
ghost use Rattle.judge_due.specs.JudgeTexts.{judge_outputs, owed_text};
ghost use Rattle.bank.specs.Ending.{WritesAll};
ghost use Rattle.judges.specs.Seen.{CanBeWritten, owed_seen};

use crate::owed::JudgeOwed;
use bank::print;
use bank_files::{Failed, Files, OUTPUT, Text, push_number, write_text};
use checks::{print_certified, push_fault};
use civil::Civil;
use due::CertificateFault;

/// Writes all that `judge` writes where this is due: its text, to standard output.
pub fn deliver<F: Files>(files: &mut F, civil: &Civil, owed: &JudgeOwed) -> Result<(), Failed>
    requires { CanBeWritten owed.now }
    ensures { WritesAll (judge_outputs (owed_seen owed.now)) (F.view files.old) (F.view files.new) result }
{
    print_owed(files, civil, owed)
}

fn print_owed<F: Files>(files: &mut F, civil: &Civil, owed: &JudgeOwed) -> Result<(), Failed>
    requires { CanBeWritten owed.now }
    ensures { Writes output_name (F.view files.old) (F.view files.new) (owed_text (owed_seen owed.now)) result }
{
    match owed {
        JudgeOwed::Told { due } => print(files, civil, due),
        JudgeOwed::Certified {
            window,
            answer,
            duts,
        } => print_certified(files, civil, window, answer, duts.as_slice()),
        JudgeOwed::NotCertified { offset, fault } => {
            write_text(files, OUTPUT, &bad_line(*offset, *fault))
        }
    }
}

// The line of the first certificate that isn't valid.
fn bad_line(offset: u8, fault: CertificateFault) -> Text
    ensures { result.bytes ≡ line (codes "certificate " ++ decimal offset ++ codes ": " ++ certificate_fault_text (fault_of fault)) }
{
    let mut text = Text::new();
    text.push_str("certificate ");
    push_number(&mut text, offset as u64);
    text.push_str(": ");
    push_fault(&mut text, fault);
    text.push_str("\n");
    text
}

//! The line that a certificate gets which isn't valid.

ghost use Rattle.std.specs.Prelude.{◌≡◌, ◌+◌, ◌≤◌, ◌++◌, codes, length};
ghost use Rattle.std.specs.Fmt.{decimal};
ghost use Rattle.arrayvec.specs.ArrayString.{array_string_len};
ghost use Rattle.bank_files.specs.declared.text.TheConstants.{TEXT_ROOM};
ghost use Rattle.formats.specs.Refusals.{at_line, certificate_fault_line, certificate_fault_text, named_key};
ghost use Rattle.due.specs.CheckDues.{fault_of};

use bank_files::{Text, push_number};
use due::CertificateFault;

/// The most bytes that are said of a fault.
pub const FAULT_ROOM: usize = 50;

/// The line of a fault.
pub fn fault_line(fault: CertificateFault) -> Text
    ensures { result.bytes ≡ certificate_fault_line (fault_of fault) }
{
    let mut text = Text::new();
    text.push_str("certificate: ");
    push_fault(&mut text, fault);
    text.push_str("\n");
    text
}

/// Adds what is said of a fault.
pub fn push_fault(text: &mut Text, fault: CertificateFault)
    requires { array_string_len text.old + FAULT_ROOM ≤ TEXT_ROOM }
    ensures bytes { text.new.bytes ≡ text.old.bytes ++ certificate_fault_text (fault_of fault) }
    ensures len { array_string_len text.new ≤ array_string_len text.old + FAULT_ROOM }
{
    match fault {
        CertificateFault::TooLarge => text.push_str("too large"),
        CertificateFault::BadLine { line } => push_at_line(text, line, "shape"),
        CertificateFault::TooManySteps { line } => push_at_line(text, line, "too many steps"),
        CertificateFault::OtherWindow => text.push_str("other window"),
        CertificateFault::Uncovered { step } => push_at_step(text, "uncovered at step ", step),
        CertificateFault::WrongBound { step } => push_at_step(text, "wrong bound at step ", step),
        CertificateFault::NotAbove { step } => push_at_step(text, "not above at step ", step),
        CertificateFault::WrongEnds { key } => push_wrong_ends(text, key),
    }
}

// What is said of a line.
fn push_at_line(text: &mut Text, number: u32, what: &str)
    requires what { length what.now ≤ 20 }
    requires room { array_string_len text.old + FAULT_ROOM ≤ TEXT_ROOM }
    ensures bytes { text.new.bytes ≡ text.old.bytes ++ at_line number what.now }
    ensures len { array_string_len text.new ≤ array_string_len text.old + FAULT_ROOM }
{
    text.push_str("line ");
    push_number(text, number as u64);
    text.push_str(": ");
    text.push_str(what);
}

// What is said of a step: some words, with the space after them, and its number.
fn push_at_step(text: &mut Text, what: &str, step: u32)
    requires what { length what.now ≤ 20 }
    requires room { array_string_len text.old + FAULT_ROOM ≤ TEXT_ROOM }
    ensures bytes { text.new.bytes ≡ text.old.bytes ++ (what.now ++ decimal step) }
    ensures len { array_string_len text.new ≤ array_string_len text.old + FAULT_ROOM }
{
    text.push_str(what);
    push_number(text, step as u64);
}

// Which key it should name.
fn push_wrong_ends(text: &mut Text, key: Option<u64>)
    requires { array_string_len text.old + FAULT_ROOM ≤ TEXT_ROOM }
    ensures bytes { text.new.bytes ≡ text.old.bytes ++ (codes "wrong ends " ++ named_key key) }
    ensures len { array_string_len text.new ≤ array_string_len text.old + FAULT_ROOM }
{
    text.push_str("wrong ends ");
    match key {
        Some(key) => push_number(text, key),
        None => text.push_str("-"),
    }
}

//! A text that is written in pieces: what isn't written yet is held back, until there is no room for more.

ghost use Rattle.std.specs.Prelude.{ℕ, ◌≡◌, ◌+◌, ◌≤◌, ◌++◌, [], List, OnOk, OnErr, length};
ghost use Rattle.arrayvec.specs.ArrayString.{array_string_len};
ghost use Rattle.bank_files.specs.Seen.{Seen, Writes};
ghost use Rattle.certificate_texts.specs.declared.pieces.TheConstants.{HELD_ROOM};
ghost use Rattle.certificate_texts.specs.Sending.{IsSent, WritesFront, WritesWhole};

use arrayvec::ArrayString;
use bank_files::{Failed, Files, write_all};

/// The most bytes that are held back, and so written at once.
pub const HELD_ROOM: usize = 16_384;

/// What is held back of a text.
pub type Held = ArrayString<HELD_ROOM>;

/// Adds to a text. It is held back, or all before it is written first.
pub fn put<F: Files>(files: &mut F, name: &str, held: &mut Held, more: &str) -> Result<(), Failed>
    requires { length more.now ≤ HELD_ROOM }
    ensures sent { (origin : Seen) (text : List ℕ) → IsSent name.now origin (F.view files.old) held.old.bytes text
        → OnOk result (IsSent name.now origin (F.view files.new) held.new.bytes (text ++ more.now)) }
    ensures failed { (origin : Seen) (text : List ℕ) → IsSent name.now origin (F.view files.old) held.old.bytes text
        → OnErr result (WritesFront name.now origin (F.view files.new) (text ++ more.now)) }
{
    make_room(files, name, held, more.len())?;
    held.push_str(more);
    Ok(())
}

// Writes what is held back, unless there is room for so many bytes more.
fn make_room<F: Files>(
    files: &mut F,
    name: &str,
    held: &mut Held,
    more: usize,
) -> Result<(), Failed>
    requires { more ≤ HELD_ROOM }
    ensures room { OnOk result (array_string_len held.new + more ≤ HELD_ROOM) }
    ensures sent { (origin : Seen) (text : List ℕ) → IsSent name.now origin (F.view files.old) held.old.bytes text
        → OnOk result (IsSent name.now origin (F.view files.new) held.new.bytes text) }
    ensures failed { (origin : Seen) (text : List ℕ) → IsSent name.now origin (F.view files.old) held.old.bytes text
        → OnErr result (WritesFront name.now origin (F.view files.new) text) }
{
    if more <= held.remaining_capacity() {
        return Ok(());
    }
    send(files, name, held)?;
    held.clear();
    Ok(())
}

/// Writes what is held back, so that the text is whole.
pub fn flush<F: Files>(files: &mut F, name: &str, held: &Held) -> Result<(), Failed>
    ensures whole { (origin : Seen) (text : List ℕ) → IsSent name.now origin (F.view files.old) held.now.bytes text
        → OnOk result (WritesWhole name.now origin (F.view files.new) text) }
    ensures failed { (origin : Seen) (text : List ℕ) → IsSent name.now origin (F.view files.old) held.now.bytes text
        → OnErr result (WritesFront name.now origin (F.view files.new) text) }
{
    send(files, name, held)?;
    Ok(())
}

fn send<F: Files>(files: &mut F, name: &str, held: &Held) -> Result<(), Failed>
    ensures { Writes name.now (F.view files.old) (F.view files.new) held.now.bytes result }
{
    write_all(files, name, held.as_str().as_bytes())
}

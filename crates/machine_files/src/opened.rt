//! Files that stay open from one call to the next, so that a file in pieces is opened once.
ghost use Rattle.std.specs.Prelude.{◌≡◌, ◌+◌, ◌<◌, ◌≤◌, ◌↔◌, None, Some, length, take, is_ok, true, IfOk, IfSome, IsTrue, OnOk, OnErr};
ghost use Rattle.bank_files.specs.Told.{Finds, Reads};
ghost use Rattle.machine_files.specs.Disk.{told_at};
ghost use Rattle.machine_files.specs.Calls.{Adds, StandsAt, Tries};
ghost use Rattle.machine_files.specs.Opened.{IsOpenedBy, IsNamed, StandsWhere};

use crate::Machine;
use crate::tries::{append_some, read_some};
use std::alloc::Global;
use std::io;

/// An open file and the name that it was opened by.
#[derive(Drop)]
pub struct Opened<F> {
    // Without memory for the name the file serves one call and isn't found again.
    name: Option<String>,
    file: F,
    // Bytes from the file's start to where the next read begins, where that is known.
    place: Option<u64>,
}

impl<F> Opened<F> {
    /// A file that has just been opened, which stands at its start.
    pub fn new(alloc: Global, name: &str, file: F) -> Opened<F>
        ensures name { IsOpenedBy result.name name.now }
        ensures file { result.file ≡ file }
        ensures place { result.place ≡ Some 0 }
    {
        Opened {
            name: String::from_str(alloc, name).ok(),
            file,
            place: Some(0),
        }
    }

    /// Whether the file was opened by this name.
    pub fn is_named(&self, name: &str) -> bool
        ensures { IsTrue result ↔ IsNamed self.now.name name.now }
    {
        match &self.name {
            Some(kept) => kept.as_str() == name,
            None => false,
        }
    }
}

/// Takes the file away that stands open, and hands it on if it was opened by this name.
pub fn take_named<F: Drop>(kept: &mut Option<Opened<F>>, name: &str) -> Option<Opened<F>>
    ensures name { IfSome result (λ opened. IsNamed opened.name name.now) }
    ensures same { IfSome result (λ opened. kept.old ≡ Some opened) }
    ensures other { result ≡ None → IfSome kept.old (λ opened. ¬ (IsNamed opened.name name.now)) }
    ensures taken { kept.new ≡ None }
{
    match kept.take() {
        Some(opened) if opened.is_named(name) => Some(opened),
        _ => None,
    }
}

// Goes to place `at`. It seeks only where the file doesn't stand there already, so what can't seek is read from
// its start on.
fn go_to<M: Machine>(machine: &mut M, opened: &mut Opened<M::File>, at: u64) -> io::Result<()>
    requires { StandsWhere (M.disk machine.old) M.leads M.place opened.old }
    ensures placed { OnOk result (StandsAt (told_at (M.disk machine.old) (M.leads opened.old.file)) (M.place opened.new.file) at) }
    ensures stays { opened.old.place ≡ Some at → is_ok result ≡ true × (opened.new.file ≡ opened.old.file) }
    ensures file { M.leads opened.new.file ≡ M.leads opened.old.file }
    ensures name { opened.new.name ≡ opened.old.name }
    ensures same { M.disk machine.new ≡ M.disk machine.old }
    ensures tries { Tries (M.failures machine.old) (M.failures machine.new) result }
{
    if opened.place == Some(at) {
        return Ok(());
    }
    opened.place = None;
    machine.seek(&mut opened.file, at)
}

/// Reads from place `at`, in bytes from the file's start.
pub fn read_at<M: Machine>(
    machine: &mut M,
    opened: &mut Opened<M::File>,
    at: u64,
    into: &mut [u8],
) -> io::Result<usize>
    requires { StandsWhere (M.disk machine.old) M.leads M.place opened.old }
    ensures length { IfOk result (λ n. n ≤ length into.old) }
    ensures bytes { IfOk result (λ n. Finds (told_at (M.disk machine.old) (M.leads opened.old.file))
        (λ bytes. Reads bytes at n into.new)) }
    ensures next { IfOk result (λ n. IfSome opened.new.place (λ next. next ≡ at + n)) }
    ensures stands { OnOk result (StandsWhere (M.disk machine.new) M.leads M.place opened.new) }
    ensures file { M.leads opened.new.file ≡ M.leads opened.old.file }
    ensures name { opened.new.name ≡ opened.old.name }
    ensures same { M.disk machine.new ≡ M.disk machine.old }
    ensures tries { Tries (M.failures machine.old) (M.failures machine.new) result }
{
    go_to(machine, opened, at)?;
    let count = read_some(machine, &mut opened.file, into)?;
    opened.place = at.checked_add(count as u64);
    Ok(count)
}

/// Appends a front of `bytes`, and answers how many of them: at least one, unless there are none.
pub fn append_to<M: Machine>(
    machine: &mut M,
    opened: &mut Opened<M::File>,
    bytes: &[u8],
) -> io::Result<usize>
    ensures length { IfOk result (λ n. n ≤ length bytes.now) }
    ensures some { IfOk result (λ n. 0 < length bytes.now → 0 < n) }
    ensures appended { IfOk result (λ n.
        Adds (M.disk machine.old) (M.disk machine.new) (M.leads opened.old.file) (take n bytes.now)) }
    ensures file { M.leads opened.new.file ≡ M.leads opened.old.file }
    ensures name { opened.new.name ≡ opened.old.name }
    ensures same { OnErr result (M.disk machine.new ≡ M.disk machine.old) }
    ensures tries { Tries (M.failures machine.old) (M.failures machine.new) result }
{
    append_some(machine, &mut opened.file, bytes)
}

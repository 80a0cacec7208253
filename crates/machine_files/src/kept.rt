//! Reads and writes of files by name. A file stays open from one call to the next.
ghost use Rattle.std.specs.Prelude.{◌≡◌, ◌≢◌, ◌+◌, ◌<◌, ◌≤◌, ◌⊎◌, None, Some, true, length, take, IfOk, IfSome, IsSomeAnd, OnOk, OnErr};
ghost use Rattle.std.specs.Option.{ForSome};
ghost use Rattle.bank_files.specs.Told.{appended, Finds, Reads};
ghost use Rattle.machine_files.specs.Disk.{told_at};
ghost use Rattle.machine_files.specs.Calls.{Adds, Makes, OnlyFile, Stays, Tries};
ghost use Rattle.machine_files.specs.Opened.{IsOpenedBy, IsNamed, IsOpenToRead, IsKeptToRead, IsOpen, IsKeptToAppend};

use crate::Machine;
use crate::opened::{Opened, append_to, read_at, take_named};
use std::alloc::Global;
use std::io;

// The file of that name, open to read. One that stands open from an earlier read is handed on.
fn take_reading<M: Machine>(
    alloc: Global,
    machine: &mut M,
    kept: &mut Option<Opened<M::File>>,
    name: &str,
) -> io::Result<Opened<M::File>>
    requires { ForSome kept.old (IsKeptToRead (M.disk machine.old) M.leads M.place) }
    ensures name { IfOk result (λ opened. IsOpenedBy opened.name name.now) }
    ensures open { IfOk result (IsOpenToRead (M.disk machine.old) M.leads M.place name.now) }
    ensures taken { kept.new ≡ None }
    ensures same { M.disk machine.new ≡ M.disk machine.old }
    ensures tries { Tries (M.failures machine.old) (M.failures machine.new) result }
{
    if let Some(opened) = take_named(kept, name) {
        return Ok(opened);
    }
    let file = machine.open_to_read(name)?;
    Ok(Opened::new(alloc, name, file))
}

/// Reads the file of that name at that place, and keeps it open there.
pub fn read_named<M: Machine>(
    alloc: Global,
    machine: &mut M,
    kept: &mut Option<Opened<M::File>>,
    name: &str,
    at: u64,
    into: &mut [u8],
) -> io::Result<usize>
    requires { ForSome kept.old (IsKeptToRead (M.disk machine.old) M.leads M.place) }
    ensures length { IfOk result (λ n. n ≤ length into.old) }
    ensures bytes { IfOk result (λ n. Finds (told_at (M.disk machine.old) ((M.disk machine.old).entry name.now))
        (λ bytes. Reads bytes at n into.new)) }
    ensures kept { ForSome kept.new (IsKeptToRead (M.disk machine.new) M.leads M.place) }
    ensures stays_open { IfOk result (λ n. IsSomeAnd kept.new (λ opened.
        IsOpenedBy opened.name name.now × IfSome opened.place (λ next. next ≡ at + n))) }
    ensures same { M.disk machine.new ≡ M.disk machine.old }
    ensures tries { Tries (M.failures machine.old) (M.failures machine.new) result }
{
    let mut opened = take_reading(alloc, machine, kept, name)?;
    let count = read_at(machine, &mut opened, at, into)?;
    *kept = Some(opened);
    Ok(count)
}

// Appends a front of `bytes` to a file that is open for that, and keeps it open.
fn append_opened<M: Machine>(
    machine: &mut M,
    kept: &mut Option<Opened<M::File>>,
    opened: Opened<M::File>,
    bytes: &[u8],
) -> io::Result<usize>
    ensures length { IfOk result (λ n. n ≤ length bytes.now) }
    ensures some { IfOk result (λ n. 0 < length bytes.now → 0 < n) }
    ensures appended { IfOk result (λ n.
        Adds (M.disk machine.old) (M.disk machine.new) (M.leads opened.file) (take n bytes.now)) }
    ensures same { OnErr result (M.disk machine.new ≡ M.disk machine.old) }
    ensures kept { OnOk result (IsSomeAnd kept.new (λ now.
        (now.name ≡ opened.name) × (M.leads now.file ≡ M.leads opened.file))) }
    ensures closed { OnErr result (kept.new ≡ kept.old) }
    ensures tries { Tries (M.failures machine.old) (M.failures machine.new) result }
{
    let mut opened = opened;
    let count = append_to(machine, &mut opened, bytes)?;
    *kept = Some(opened);
    Ok(count)
}

/// Appends a front of `bytes` to the file of that name, which is made where it is missing, and keeps it open.
/// Where a file that wasn't open yet takes nothing, files are in doubt, since it may have been made.
pub fn append_named<M: Machine>(
    alloc: Global,
    machine: &mut M,
    kept: &mut Option<Opened<M::File>>,
    in_doubt: &mut bool,
    name: &str,
    bytes: &[u8],
) -> io::Result<usize>
    requires { ForSome kept.old (IsKeptToAppend (M.disk machine.old) M.leads) }
    ensures length { IfOk result (λ n. n ≤ length bytes.now) }
    ensures some { IfOk result (λ n. 0 < length bytes.now → 0 < n) }
    ensures appended { IfOk result (λ n. told_at (M.disk machine.new) ((M.disk machine.new).entry name.now)
        ≡ appended (told_at (M.disk machine.old) ((M.disk machine.old).entry name.now)) (take n bytes.now)) }
    ensures only { OnlyFile (M.disk machine.old) (M.disk machine.new) name.now }
    ensures stays { Stays (M.disk machine.old) (M.disk machine.new) }
    ensures unchanged { OnErr result
        ((in_doubt.new ≡ true) ⊎ (M.disk machine.new ≡ M.disk machine.old)) }
    // Files come into doubt only where the file wasn't open and took nothing, and stay in doubt.
    ensures no_doubt { OnOk result (in_doubt.new ≡ in_doubt.old) }
    ensures was_open { IsSomeAnd kept.old (λ opened. IsNamed opened.name name.now) → in_doubt.new ≡ in_doubt.old }
    ensures doubt { in_doubt.old ≡ true → in_doubt.new ≡ true }
    ensures kept { ForSome kept.new (IsKeptToAppend (M.disk machine.new) M.leads) }
    ensures stays_open { OnOk result (IsSomeAnd kept.new (λ opened. IsOpenedBy opened.name name.now)) }
    ensures tries { Tries (M.failures machine.old) (M.failures machine.new) result }
{
    if let Some(opened) = take_named(kept, name) {
        return append_opened(machine, kept, opened, bytes);
    }
    let file = machine.open_to_append(name)?;
    let appended = append_opened(machine, kept, Opened::new(alloc, name, file), bytes);
    *in_doubt |= appended.is_err();
    appended
}

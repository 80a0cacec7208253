//! Single calls of a machine, tried again where they were interrupted. Each ends with the machine's answer.
ghost use Rattle.std.specs.Prelude.{◌≡◌, ◌≢◌, ◌+◌, ◌<◌, ◌≤◌, length, take, IfOk, IfErr, OnOk, OnErr};
ghost use Rattle.std.specs.IoError.{error_kind};
ghost use Rattle.bank_files.specs.Told.{Finds, Reads};
ghost use Rattle.machine_files.specs.Disk.{told_at};
ghost use Rattle.machine_files.specs.Calls.{Adds, Prints, StandsAt, Tries};

use crate::Machine;
use std::io;
use std::io::ErrorKind;

/// Reads once from where the file stands into the front of `into`, answers how many bytes, and moves the file
/// on by as many.
pub fn read_some<M: Machine>(
    machine: &mut M,
    file: &mut M::File,
    into: &mut [u8],
) -> io::Result<usize>
    ensures length { IfOk result (λ n. n ≤ length into.old) }
    ensures bytes { IfOk result (λ n. Finds (told_at (M.disk machine.old) (M.leads file.old))
        (λ bytes. Reads bytes (M.place file.old) n into.new)) }
    ensures moved { IfOk result (λ n. StandsAt (told_at (M.disk machine.old) (M.leads file.old))
        (M.place file.new) (M.place file.old + n)) }
    ensures file { M.leads file.new ≡ M.leads file.old }
    ensures same { M.disk machine.new ≡ M.disk machine.old }
    ensures tries { Tries (M.failures machine.old) (M.failures machine.new) result }
    ensures again { IfErr result (λ error. error_kind error ≢ ErrorKind.Interrupted) }
{
    for _turn in 0..u64::MAX {
        match machine.read(file, into) {
            Err(error) if error.kind() == ErrorKind::Interrupted => {}
            answer => return answer,
        }
    }
    Err(io::Error::from(ErrorKind::TimedOut))
}

/// Adds a front of `bytes` to the end of the file, and answers how many of them: at least one, unless there
/// are none. Where nothing is taken of bytes that are there, that is an error.
pub fn append_some<M: Machine>(
    machine: &mut M,
    file: &mut M::File,
    bytes: &[u8],
) -> io::Result<usize>
    ensures length { IfOk result (λ n. n ≤ length bytes.now) }
    ensures some { IfOk result (λ n. 0 < length bytes.now → 0 < n) }
    ensures appended { IfOk result (λ n.
        Adds (M.disk machine.old) (M.disk machine.new) (M.leads file.old) (take n bytes.now)) }
    ensures file { M.leads file.new ≡ M.leads file.old }
    ensures same { OnErr result (M.disk machine.new ≡ M.disk machine.old) }
    ensures tries { Tries (M.failures machine.old) (M.failures machine.new) result }
    ensures again { IfErr result (λ error. error_kind error ≢ ErrorKind.Interrupted) }
{
    for _turn in 0..u64::MAX {
        match machine.append(file, bytes) {
            Ok(0) if !bytes.is_empty() => return Err(io::Error::from(ErrorKind::WriteZero)),
            Err(error) if error.kind() == ErrorKind::Interrupted => {}
            answer => return answer,
        }
    }
    Err(io::Error::from(ErrorKind::TimedOut))
}

/// Writes a front of `bytes` to standard output, and answers how many of them: at least one, unless there are
/// none. Where nothing is taken of bytes that are there, that is an error.
pub fn print_some<M: Machine>(machine: &mut M, bytes: &[u8]) -> io::Result<usize>
    ensures length { IfOk result (λ n. n ≤ length bytes.now) }
    ensures some { IfOk result (λ n. 0 < length bytes.now → 0 < n) }
    ensures printed { IfOk result (λ n. Prints (M.disk machine.old) (M.disk machine.new) (take n bytes.now)) }
    ensures same { OnErr result (M.disk machine.new ≡ M.disk machine.old) }
    ensures tries { Tries (M.failures machine.old) (M.failures machine.new) result }
    ensures again { IfErr result (λ error. error_kind error ≢ ErrorKind.Interrupted) }
{
    for _turn in 0..u64::MAX {
        match machine.print(bytes) {
            Ok(0) if !bytes.is_empty() => return Err(io::Error::from(ErrorKind::WriteZero)),
            Err(error) if error.kind() == ErrorKind::Interrupted => {}
            answer => return answer,
        }
    }
    Err(io::Error::from(ErrorKind::TimedOut))
}

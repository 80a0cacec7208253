//! Files by name and number, kept in memory.
ghost use Rattle.std.specs.Prelude.{◌≡◌, ◌-◌, ◌<◌, ◌++◌, [], length, take, drop, min, slice_index_or, IfSome, OnOk, OnErr};
ghost use Rattle.machine_files.specs.Stored.{entry_from, entry_of, names_of, contents_of, planned_in, AddsFile, Writes, SameFiles};

use std::alloc::{AllocError, Global};
use std::io::ErrorKind;

/// A file, whose number is its place in the list of all files.
#[derive(Drop)]
pub struct MemoryFile {
    pub name: String,
    pub bytes: Vec<u8>,
}

/// The kind of the failure that is planned for a call, if any is.
pub fn planned(failing: &[(u64, ErrorKind)], call: u64) -> Option<ErrorKind>
    ensures { result ≡ planned_in failing.now call }
{
    failing
        .iter()
        .find(|plan| plan.0 == call)
        .map(|plan| plan.1)
}

/// The number of the first file of that name.
pub fn find(files: &[MemoryFile], name: &str) -> Option<usize>
    ensures found { entry_of result ≡ entry_from 0 (names_of files.now) name.now }
    ensures within { IfSome result (λ number. number < length files.now) }
{
    for (number, file) in files.iter().enumerate() {
        if file.name.as_str() == name {
            return Some(number);
        }
    }
    None
}

/// Adds an empty file of that name. Without memory all is as before.
pub fn add_file(alloc: Global, files: &mut Vec<MemoryFile>, name: &str) -> Result<(), AllocError>
    ensures ok { OnOk result (AddsFile files.old.items files.new.items name.now) }
    ensures err { OnErr result (SameFiles files.old.items files.new.items) }
{
    let name = String::from_str(alloc, name)?;
    files.push(MemoryFile {
        name,
        bytes: Vec::new(alloc),
    })?;
    Ok(())
}

/// Copies bytes of a file from place `at` into the front of `into`, as many as there are or fit, and answers how
/// many.
pub fn copy_from(file: &[u8], at: u64, into: &mut [u8]) -> usize
    ensures count { result ≡ min (length into.old) (length file.now - at) }
    ensures bytes { into.new ≡ take result (drop at file.now) ++ drop result into.old }
{
    if at >= file.len() as u64 {
        return 0;
    }
    let rest = &file[at as usize..];
    let count = into.len().min(rest.len());
    into[..count].copy_from_slice(&rest[..count]);
    count
}

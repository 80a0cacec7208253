//! Bytes by name, kept in memory.
ghost use Rattle.std.specs.Prelude.{◌≡◌, ◌+◌, ◌-◌, ◌≤◌, [], ◌++◌, length, take, drop, min, OnOk, OnErr, unwrap_or};
ghost use Rattle.bank_files.specs.Stored.{bytes_of, Sets, SameFiles};

use std::alloc::{AllocError, Global};
use std::collections::BTreeMap;

// Gives a file these bytes. Without memory every file is as before.
#[tactic(auto, using(std::proofs::lemmas::Map::Text::text_keys))]
pub(crate) fn set_file(
    alloc: Global,
    files: &mut BTreeMap<String, Vec<u8>>,
    name: &str,
    bytes: Vec<u8>,
) -> Result<(), AllocError>
    ensures ok { OnOk result (Sets (bytes_of files.old) (bytes_of files.new) name.now bytes.items) }
    ensures err { OnErr result (SameFiles (bytes_of files.old) (bytes_of files.new)) }
{
    let key = String::from_str(alloc, name)?;
    files.insert(key, bytes)?;
    Ok(())
}

// Adds these bytes to the end of a file, which is made where it was missing. Without memory every file is
// as before.
#[tactic(auto, using(std::proofs::lemmas::Map::Text::text_keys))]
pub(crate) fn add_to_file(
    alloc: Global,
    files: &mut BTreeMap<String, Vec<u8>>,
    name: &str,
    bytes: &[u8],
) -> Result<(), AllocError>
    ensures ok { OnOk result (Sets (bytes_of files.old) (bytes_of files.new) name.now
        (unwrap_or (bytes_of files.old name.now) [] ++ bytes.now)) }
    ensures err { OnErr result (SameFiles (bytes_of files.old) (bytes_of files.new)) }
{
    if let Some(file) = files.get_mut(name) {
        return file.extend_from_slice(bytes);
    }
    set_file(alloc, files, name, bytes.to_vec(alloc)?)
}

// Copies bytes of a file from place `at` into the front of `into`, as many as there are or fit, and
// answers how many.
pub(crate) fn copy_from(file: &[u8], at: u64, into: &mut [u8]) -> usize
    ensures count { result ≡ min (length into.old) (length file.now - at) }
    ensures bytes { into.new ≡ take result (drop at file.now) ++ drop result into.old }
{
    if at >= file.len() as u64 {
        return 0;
    }
    let rest = &file[at as usize..];
    let count = into.len().min(rest.len());
    into[..count].copy_from_slice(&rest[..count]);
    count
}

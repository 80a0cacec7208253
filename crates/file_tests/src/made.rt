//! Files with a log, and how it is told what files hold and read as.

use bank_files::{Files, GREATEST_LIMIT, MemoryFiles, OUTPUT, ReadWhole, read_whole};
use signal_base::NoMemory;
use std::alloc::Global;

// Files in memory with one log, of ten bytes.
pub(crate) fn files_with_log(alloc: Global) -> Result<MemoryFiles, NoMemory> {
    let mut files = MemoryFiles::make(alloc);
    files.put("a.log", b"0123456789")?;
    Ok(files)
}

pub(crate) fn holds(files: &MemoryFiles, name: &str, bytes: &[u8]) -> bool {
    files.contents(name).is_some_and(|found| found == bytes)
}

// Whether a file, read whole up to that limit, comes to this.
pub(crate) fn reads<F: Files>(
    alloc: Global,
    files: &mut F,
    name: &str,
    limit: u64,
    want: Result<&[u8], ReadWhole>,
) -> bool {
    if name == OUTPUT || limit > GREATEST_LIMIT {
        return false;
    }
    match read_whole(alloc, files, name, limit) {
        Ok(found) => want == Ok(found.as_slice()),
        Err(error) => want == Err(error),
    }
}

//! Files that read and append a byte a call: single calls, and whole files over them.

use crate::made::{files_with_log, holds, reads};
use bank_files::{Failed, Files, MemoryFiles, OneByte, write_all};
use std::alloc::Global;
use std::test::Fail;

#[test]
fn a_byte_a_call(rt: HostRuntime) -> Result<(), Fail> {
    let inner = files_with_log(rt.alloc())?;
    let mut files = OneByte { inner };
    assert!(rt; reads_a_byte(&mut files) && writes_a_byte(&mut files));
    Ok(())
}

fn reads_a_byte(files: &mut OneByte<MemoryFiles>) -> bool {
    let mut room = *b"....";
    files.read_at("a.log", 3, &mut room) == Ok(1)
        && room == *b"3..."
        && files.read_at("a.log", 10, &mut room) == Ok(0)
        && files.read_at("a.log", 3, &mut []) == Ok(0)
}

fn writes_a_byte(files: &mut OneByte<MemoryFiles>) -> bool {
    files.append("-", b"one") == Ok(1)
        && files.append("-", b"") == Ok(0)
        && files.create("b.log") == Ok(())
        && holds(&files.inner, "-", b"o")
        && holds(&files.inner, "b.log", b"")
}

#[test]
fn whole_reads_and_writes(rt: HostRuntime) -> Result<(), Fail> {
    let mut inner = files_with_log(rt.alloc())?;
    // Ten bytes and the end of the file are eleven calls; the third of the writes fails.
    inner.fail(14)?;
    let mut files = OneByte { inner };
    assert!(rt; reads_and_writes(rt.alloc(), &mut files));
    Ok(())
}

fn reads_and_writes(alloc: Global, files: &mut OneByte<MemoryFiles>) -> bool {
    reads(alloc, files, "a.log", 10, Ok(b"0123456789".as_slice()))
        && write_all(files, "-", b"report") == Err(Failed)
        && holds(&files.inner, "-", b"re")
        && write_all(files, "new", b"report") == Ok(())
        && holds(&files.inner, "new", b"report")
}

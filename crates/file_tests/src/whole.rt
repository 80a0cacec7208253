//! Whole files: what a fault in mid-stream leaves of a read.

use crate::made::reads;
use bank_files::{MemoryFiles, ReadWhole};
use signal_base::NoMemory;
use std::alloc::Global;
use std::process::Abort;
use std::test::Fail;

// Files with this log, which fail twice.
fn failing_files(alloc: Global, log: &[u8]) -> Result<MemoryFiles, NoMemory> {
    let mut files = MemoryFiles::make(alloc);
    files.put("a.log", log)?;
    // Reading the whole log takes five calls, the last of which finds its end.
    files.fail(3)?;
    files.fail(13)?;
    Ok(files)
}

#[test]
fn a_fault_in_mid_stream(rt: HostRuntime) -> Result<(), Fail> {
    let log = vec![in rt.alloc(); b'x'; 200_000]?;
    let mut files = failing_files(rt.alloc(), &log)?;
    read_between_faults(&rt, &mut files, &log);
    Ok(())
}

fn read_between_faults(rt: &(impl Abort + AllocGlobal), files: &mut MemoryFiles, log: &[u8]) {
    for want in [Err(ReadWhole::Failed), Ok(log), Err(ReadWhole::Failed)] {
        assert!(rt; reads(rt.alloc(), files, "a.log", 200_000, want));
    }
}

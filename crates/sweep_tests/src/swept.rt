//! Certificates that a sweep wrote, judged by the same files in memory. The texts are worked out from docs/FORMATS.md and the code
//! descriptions, by hand and by a program that tries one sequence after the other at each phase.

use crate::made::{
    JJY, JJY_WAVES, LATE_RISES, MINUTES, SWEPT, files_of, heard, judgement_tells, printed, words,
};
use bank_files::MemoryFiles;
use std::alloc::Global;
use std::test::Fail;
use std::thread::Threads;
use sweep::sweep;
use workers::NoGate;

// A decode finds the phase 30, so that the phases 0 to 80 are swept, which are the offsets 2 to 10. The sweep, a judgement, and one
// without the certificate of offset 2.
#[test]
fn certifies_what_a_sweep_writes(rt: HostRuntime) -> Result<(), Fail> {
    let log = heard(rt.alloc(), &JJY_WAVES, &MINUTES, LATE_RISES)?;
    let mut files = files_of(rt.alloc(), JJY, &log)?;
    let line =
        "sweep k.toml --seconds 120 --from 2024-06-10T06:00Z --to 2024-06-10T06:59Z --certificate s";
    assert!(rt; sweeps(&rt, &mut files, line, 0, SWEPT)?);
    assert!(rt; certifies_and_refuses(rt.alloc(), &mut files)?);
    Ok(())
}

// Whether a judgement certifies the files, and refuses them once the one of offset 2 is empty.
fn certifies_and_refuses(alloc: Global, files: &mut MemoryFiles) -> Result<bool, Fail> {
    let line = "judge k.toml s --seconds 120 --from 2024-06-10T06:00Z --to 2024-06-10T06:59Z";
    let both = format!(in alloc; "{SWEPT}certified\n{SWEPT}")?;
    if !judgement_tells(alloc, files, line, 0, &both)? {
        return Ok(false);
    }
    files.put("s.2", b"")?;
    let all = format!(in alloc; "{both}certificate 2: line 1: shape\n")?;
    judgement_tells(alloc, files, line, 8, &all)
}

// Whether a sweep ends with this status, and this was printed.
fn sweeps<R: Threads + Sync + AllocGlobal>(
    rt: &R,
    files: &mut MemoryFiles,
    line: &str,
    status: u8,
    text: &str,
) -> Result<bool, Fail> {
    let words = words(rt.alloc(), line)?;
    let ended = sweep(rt, rt.alloc(), &words, files, &NoGate);
    Ok(ended == status && printed(files, text))
}

// A receiver of each station, in another order than that of stations.
const FOUR: &str =
    "station = \"wwvb\"\n[[receiver]]\nname = \"w\"\nlog = \"a.log\"\n[[receiver]]\nname = \"j\"\nlog = \"a.log\"\nstation = \"jjy\"\n[[receiver]]\nname = \"m\"\nlog = \"a.log\"\nstation = \"msf\"\n[[receiver]]\nname = \"d\"\nlog = \"a.log\"\nstation = \"dcf77\"\n";

const UNDECIDED: &str =
    "undecided 0\nphase 0\nsequence 2099-12-31T14:59Z 0 no\nsequence 2099-12-31T14:59Z 0 yes\n";

const HEAD: &str =
    "tsbank certificate 2\nstations dcf77 msf wwvb jjy\nstart 0\nphase 50\nseconds 60\nfrom 52595459\nto 52596000\nceiling 1920000000\nfirst 52595459\nsecond 3260951459\nworker 0\n";

// Nothing was heard. From 15:00 on JJY would tell the year 2100, so that a walk of 60 seconds can begin with 14:59 alone; a leap second is
// announced there by WWVB and JJY.
#[test]
fn certifies_four_stations(rt: HostRuntime) -> Result<(), Fail> {
    let mut files = files_of(rt.alloc(), FOUR, "")?;
    let line = "sweep k.toml --seconds 60 --from 2099-12-31T14:59Z --workers 1 --certificate s";
    assert!(rt; sweeps(&rt, &mut files, line, 1, UNDECIDED)?);
    let last = files.contents("s.10").unwrap_or(b"");
    assert!(rt; last.starts_with(HEAD.as_bytes()));
    let line = "judge k.toml s --seconds 60 --from 2099-12-31T14:59Z";
    let both = format!(in rt.alloc(); "{UNDECIDED}certified\n{UNDECIDED}")?;
    assert!(rt; judgement_tells(rt.alloc(), &mut files, line, 0, &both)?);
    Ok(())
}

//! Certificates that decodes write, over files in memory. The steps are those of the published example: of a receiver of DCF77
//! that heard nothing, a walk of 60 seconds can begin in one of the century's last minutes alone.

use crate::made::{DCF77, files_of, status_of};
use bank::CertificateGate;
use bank_files::MemoryFiles;
use std::alloc::{AllocError, Global};
use std::process::Abort;
use std::sync::atomic::{AtomicU64, Ordering};
use std::test::Fail;
use std::thread::Threads;
use workers::{Gate, NoGate};

// The decode, without a certificate and with one.
const ALONE: &str = "decode k.toml --seconds 60 --from 2099-12-31T22:58Z --workers 2";

const CERTIFIED: &str =
    "decode k.toml --seconds 60 --from 2099-12-31T22:58Z --workers 2 --certificate x.cert";

// The certificate's head, and the steps of the walks that begin in second 0: the first where no leap second is announced, the
// second where one is.
const HEAD: &str =
    "tsbank certificate 1\nstation dcf77\nstart 0\nphase 0\nseconds 60\nfrom 52595938\nto 52596000\nceiling 1920000000\nfirst 52595938\nsecond -\nworker 0\n";

const FIRST_STEPS: &str =
    "O Y 0 0 52595938 52596000 0\nO D 0 0 52595938 52596000 0\nO H 0 0 52595938 52595940 0\nL M 0 0 52595938 52595939 0\nE M 0 0 52595939 52595940 -\nE H 0 0 52595940 52596000 -\n";

const SECOND_STEPS: &str =
    "O Y 1 0 52595938 52596000 0\nO D 1 0 52595938 52596000 0\nO H 1 0 52595938 52595940 0\nE M 1 0 52595938 52595939 -\nE M 1 0 52595939 52595940 -\nE H 1 0 52595940 52596000 -\n";

// The certificate, of two parts.
fn certificate(alloc: Global) -> Result<String, AllocError> {
    let mut text = String::new(alloc);
    push_certificate(&mut text)?;
    Ok(text)
}

fn push_certificate(text: &mut String) -> Result<(), AllocError> {
    text.push_str(HEAD)?;
    text.push_str(FIRST_STEPS)?;
    push_ended(text, 0, 60)?;
    text.push_str(SECOND_STEPS)?;
    push_ended(text, 1, 61)?;
    text.push_str("worker 1\nend\n")
}

// Adds the steps of the later seconds, in which no walk of 60 seconds begins.
fn push_ended(text: &mut String, announced: u8, seconds: u8) -> Result<(), AllocError> {
    for second in 1..seconds {
        write!(text, "E Y {announced} {second} 52595938 52596000 -\n")?;
    }
    Ok(())
}

// Adds up the steps of the certificates that it is told of.
#[derive(Drop)]
struct Steps {
    told: AtomicU64,
}

impl Gate for Steps {
    fn pass(&self, _worker: u32, _number: u64) {}
}

impl CertificateGate for Steps {
    fn wrote(&self, steps: u64) {
        self.told.fetch_add(steps, Ordering::SeqCst);
    }
}

// A configuration, an empty log and a file where the certificate is asked for.
fn files_before(alloc: Global, config: &str) -> Result<MemoryFiles, Fail> {
    let mut files = files_of(alloc, config, "")?;
    files.put("x.cert", b"what was there")?;
    Ok(files)
}

// The status that a decode with a certificate ends with, and how many steps the gate is told of.
fn decode_certified<R: Threads + Sync + AllocGlobal>(
    rt: &R,
    files: &mut MemoryFiles,
) -> Result<(u8, u64), Fail> {
    let steps = Steps {
        told: AtomicU64::new(0),
    };
    let status = status_of(rt, files, CERTIFIED, &steps)?;
    Ok((status, steps.told.load(Ordering::SeqCst)))
}

// What is told is the same with a certificate and without, and the gate is told of 65 and 66 steps.
#[test]
fn writes_a_certificate(rt: HostRuntime) -> Result<(), Fail> {
    let mut files = files_before(rt.alloc(), DCF77)?;
    assert_eq!(rt; decode_certified(&rt, &mut files)?, (0, 131));
    holds_the_certificate(&rt, &files)?;
    prints_as_without_one(&rt, &files)
}

fn holds_the_certificate(rt: &(impl Abort + AllocGlobal), files: &MemoryFiles) -> Result<(), Fail> {
    let text = certificate(rt.alloc())?;
    assert!(rt; files.contents("x.cert") == Some(text.as_bytes()));
    Ok(())
}

fn prints_as_without_one<R: Threads + Abort + Sync + AllocGlobal>(
    rt: &R,
    files: &MemoryFiles,
) -> Result<(), Fail> {
    let mut alone = files_of(rt.alloc(), DCF77, "")?;
    assert_eq!(rt; status_of(rt, &mut alone, ALONE, &NoGate)?, 0);
    assert!(rt; files.contents("-") == alone.contents("-"));
    Ok(())
}

// A certificate is owed where the bank is loaded, and else its file stays as it is.
#[test]
fn leaves_the_file_of_a_refused_bank(rt: HostRuntime) -> Result<(), Fail> {
    let mut files = files_before(rt.alloc(), "station = 1\n")?;
    assert_eq!(rt; decode_certified(&rt, &mut files)?, (4, 0));
    assert!(rt; is_as_before(&files));
    Ok(())
}

fn is_as_before(files: &MemoryFiles) -> bool {
    files
        .contents("x.cert")
        .is_some_and(|found| found == b"what was there".as_slice())
}

//! Reads and writes of files of this machine. What they hold is written and read by `fs` beside them.
use crate::machine::HostMachine;
use crate::progress::Progress;
use bank_files::{Failed, Files, OUTPUT, read_whole, write_all};
use machine_files::RealFiles;
use std::alloc::{AllocError, Global};
use std::io::Write;
use std::os::fd::AsRawFd;
use std::process::Abort;
use std::test::Fail;
use std::{env, fs, io, process};

// A path that no other run has. All of them have one length.
fn own_path(rt: &HostRuntime, letter: char) -> io::Result<String> {
    let folder = env::temp_dir(rt)?;
    let number = process::id(rt.process());
    let path = format!(in rt.alloc(); "{}/tsbank-{number}-{letter}", folder.as_path().as_str());
    path.map_err(|_: AllocError| io::Error::from(AllocError))
}

type HostFiles<'a> = RealFiles<HostMachine<'a, HostRuntime, HostRuntime>>;

fn host_files<'a>(rt: &'a HostRuntime, progress: &'a Progress<'a, HostRuntime>) -> HostFiles<'a> {
    RealFiles::new(rt.alloc(), HostMachine::new(rt, progress))
}

// Reads that file whole, and tells whether it has these bytes.
fn reads(files: &mut HostFiles<'_>, alloc: Global, name: &str, bytes: &[u8]) -> bool {
    name != OUTPUT
        && read_whole(alloc, files, name, 8_000_000).is_ok_and(|found| found.as_slice() == bytes)
}

// Whether so many bytes are read from this place on, and they are these.
fn reads_at(files: &mut HostFiles<'_>, name: &str, at: u64, bytes: &[u8]) -> bool {
    let mut room = *b"........";
    let count = bytes.len();
    name != OUTPUT
        && count <= 8
        && files.read_at(name, at, &mut room) == Ok(count)
        && &room[..count] == bytes
}

// Whether all of these bytes are appended at once.
fn appends(files: &mut HostFiles<'_>, name: &str, bytes: &[u8]) -> bool {
    files.append(name, bytes) == Ok(bytes.len())
}

// Tells whether the file holds these bytes, by `fs` alone.
fn holds(rt: &HostRuntime, name: &str, bytes: &[u8]) -> bool {
    fs::read(rt, name).is_ok_and(|found| found.as_slice() == bytes)
}

// What is checked of the files of this machine. They are made in one place, since what owns them takes long to prove.
#[derive(Clone, Copy)]
enum Check<'a> {
    Keeps,
    ReadsWhereAsked,
    ReadsWhole(&'a [u8]),
    WritesWhole(&'a [u8]),
    TwoApart(&'a str),
    AppendsToWhatWasThere,
    CreatesAnew(&'a str),
    CountsFaults,
    OneNameOfOutput,
    TellsTheLatestFault,
}

// Whether that holds of a file of this name.
fn is_so(rt: &HostRuntime, name: &str, check: Check<'_>) -> bool {
    let progress = Progress::new(rt, false);
    let mut files = host_files(rt, &progress);
    match check {
        Check::Keeps => keeps(&mut files, name),
        Check::ReadsWhereAsked => reads_where_asked(&mut files, name),
        Check::ReadsWhole(bytes) => reads(&mut files, rt.alloc(), name, bytes),
        Check::WritesWhole(bytes) => {
            write_all(&mut files, name, bytes) == Ok(()) && holds(rt, name, bytes)
        }
        Check::TwoApart(other) => keeps_apart(rt, &mut files, name, other),
        Check::AppendsToWhatWasThere => adds_to_what_was_there(rt, &mut files, name),
        Check::CreatesAnew(other) => creates_anew(rt, &mut files, name, other),
        Check::CountsFaults => counts_faults(&mut files),
        Check::OneNameOfOutput => knows_one_name(&mut files),
        Check::TellsTheLatestFault => tells_faults(rt, &mut files),
    }
}

#[test]
fn keeps_what_is_written(rt: HostRuntime) -> Result<(), Fail> {
    let path = own_path(&rt, 'k')?;
    assert!(rt; is_so(&rt, &path, Check::Keeps));
    fs::remove_file(&rt, &path)?;
    Ok(())
}

fn keeps(files: &mut HostFiles<'_>, name: &str) -> bool {
    name != OUTPUT
        && appends(files, name, b"012")
        && appends(files, name, b"345")
        && reads_at(files, name, 0, b"012345")
        && reads_at(files, name, 6, b"")
        && appends(files, name, b"67")
        && reads_at(files, name, 6, b"67")
        && reads_at(files, name, 1, b"1234567")
        && files.create(name) == Ok(())
        && reads_at(files, name, 0, b"")
        && appends(files, name, b"8")
        && reads_at(files, name, 0, b"8")
        && files.faults() == 0
}

#[test]
fn reads_where_it_is_asked(rt: HostRuntime) -> Result<(), Fail> {
    let path = own_path(&rt, 'p')?;
    fs::write(&rt, &path, b"0123456789")?;
    assert!(rt; is_so(&rt, &path, Check::ReadsWhereAsked));
    fs::remove_file(&rt, &path)?;
    Ok(())
}

fn reads_where_asked(files: &mut HostFiles<'_>, name: &str) -> bool {
    reads_at(files, name, 0, b"01234567")
        && reads_at(files, name, 8, b"89")
        && reads_at(files, name, 2, b"23456789")
        && reads_at(files, name, 9, b"9")
        && reads_at(files, name, 10, b"")
        && reads_at(files, name, 20, b"")
}

// 200,000 bytes, of which no two places that lie apart by less than that look alike.
fn counted_bytes(alloc: Global) -> Result<Vec<u8>, AllocError> {
    let mut bytes = Vec::new(alloc);
    for number in 0..50_000u32 {
        bytes.extend_from_slice(&number.to_be_bytes())?;
    }
    Ok(bytes)
}

// A whole read takes four pieces of it.
#[test]
fn reads_a_long_file_whole(rt: HostRuntime) -> Result<(), Fail> {
    let path = own_path(&rt, 'l')?;
    let bytes = counted_bytes(rt.alloc())?;
    fs::write(&rt, &path, &bytes)?;
    assert!(rt; is_so(&rt, &path, Check::ReadsWhole(&bytes)));
    fs::remove_file(&rt, &path)?;
    Ok(())
}

#[test]
fn writes_a_long_text_whole(rt: HostRuntime) -> Result<(), Fail> {
    let path = own_path(&rt, 'w')?;
    let bytes = counted_bytes(rt.alloc())?;
    assert!(rt; is_so(&rt, &path, Check::WritesWhole(&bytes)));
    fs::remove_file(&rt, &path)?;
    Ok(())
}

#[test]
fn keeps_two_files_apart(rt: HostRuntime) -> Result<(), Fail> {
    let (path, other) = (own_path(&rt, 'a')?, own_path(&rt, 'b')?);
    assert!(rt; is_so(&rt, &path, Check::TwoApart(&other)));
    fs::remove_file(&rt, &path)?;
    fs::remove_file(&rt, &other)?;
    Ok(())
}

fn keeps_apart(rt: &HostRuntime, files: &mut HostFiles<'_>, a: &str, b: &str) -> bool {
    appends(files, a, b"01")
        && appends(files, b, b"xy")
        && appends(files, a, b"23")
        && appends(files, b, b"z")
        && holds(rt, a, b"0123")
        && holds(rt, b, b"xyz")
        && reads(files, rt.alloc(), a, b"0123")
        && reads(files, rt.alloc(), b, b"xyz")
        && reads(files, rt.alloc(), a, b"0123")
}

#[test]
fn appends_to_what_was_there(rt: HostRuntime) -> Result<(), Fail> {
    let path = own_path(&rt, 't')?;
    fs::write(&rt, &path, b"012")?;
    assert!(rt; is_so(&rt, &path, Check::AppendsToWhatWasThere));
    fs::remove_file(&rt, &path)?;
    Ok(())
}

fn adds_to_what_was_there(rt: &HostRuntime, files: &mut HostFiles<'_>, name: &str) -> bool {
    appends(files, name, b"345")
        && appends(files, name, b"")
        && appends(files, name, b"67")
        && holds(rt, name, b"01234567")
}

// While the file was open, another program gave it another name.
#[test]
fn creates_anew_what_was_renamed(rt: HostRuntime) -> Result<(), Fail> {
    let (path, other) = (own_path(&rt, 'n')?, own_path(&rt, 'o')?);
    assert!(rt; is_so(&rt, &path, Check::CreatesAnew(&other)));
    fs::remove_file(&rt, &path)?;
    fs::remove_file(&rt, &other)?;
    Ok(())
}

fn creates_anew(rt: &HostRuntime, files: &mut HostFiles<'_>, name: &str, other: &str) -> bool {
    name != OUTPUT
        && appends(files, name, b"012")
        && reads(files, rt.alloc(), name, b"012")
        && fs::rename(rt, name, other).is_ok()
        && files.create(name) == Ok(())
        && appends(files, name, b"3")
        && reads(files, rt.alloc(), name, b"3")
        && holds(rt, name, b"3")
        && holds(rt, other, b"012")
}

// A pipe can't seek, and what was read of it doesn't come again.
#[test]
fn reads_a_pipe_to_its_end(rt: HostRuntime) -> Result<(), Fail> {
    let (reader, mut writer) = io::pipe(&rt)?;
    writer.write_all(b"0 H\n200 L\n")?;
    drop(writer);
    let path = format!(in rt.alloc(); "/proc/self/fd/{}", reader.as_raw_fd())?;
    assert!(rt; is_so(&rt, &path, Check::ReadsWhole(b"0 H\n200 L\n")));
    Ok(())
}

#[test]
fn counts_each_fault(rt: HostRuntime) {
    assert!(rt; is_so(&rt, "", Check::CountsFaults));
}

fn counts_faults(files: &mut HostFiles<'_>) -> bool {
    let mut room = [0u8; 8];
    files.read_at("/dev/null/none", 0, &mut room) == Err(Failed)
        && files.create("/dev/null/none") == Err(Failed)
        && files.append("/dev/null/none", b"1") == Err(Failed)
        && files.read_at("/", 0, &mut room) == Err(Failed)
        && files.append("/dev/full", b"1") == Err(Failed)
        && appends(files, "/dev/null", b"1")
        && files.faults() == 5
}

#[test]
fn only_one_name_is_standard_output(rt: HostRuntime) {
    assert!(rt; is_so(&rt, "", Check::OneNameOfOutput));
}

// The folder `-` isn't there. Standard output would take the byte.
fn knows_one_name(files: &mut HostFiles<'_>) -> bool {
    files.append("-/none", b"1") == Err(Failed)
        && files.append("./-/none", b"1") == Err(Failed)
        && files.append("", b"1") == Err(Failed)
}

// What standard error would say of the latest fault.
fn says(rt: &HostRuntime, files: &HostFiles<'_>, text: &str) -> bool {
    files.failure().is_some_and(|failure| failure
        .to_string(rt.alloc())
        .is_ok_and(|t| t.as_str() == text))
}

#[test]
fn tells_the_latest_fault(rt: HostRuntime) {
    assert!(rt; is_so(&rt, "", Check::TellsTheLatestFault));
}

fn tells_faults(rt: &HostRuntime, files: &mut HostFiles<'_>) -> bool {
    let mut room = [0u8; 8];
    files.failure().is_none()
        && files.read_at("/dev/null/none", 0, &mut room) == Err(Failed)
        && says(rt, files, "/dev/null/none: Not a directory (os error 20)")
        && files.read_at("/", 0, &mut room) == Err(Failed)
        && says(rt, files, "/: Is a directory (os error 21)")
        && files.append("/dev/full", b"1") == Err(Failed)
        && says(
            rt,
            files,
            "/dev/full: No space left on device (os error 28)",
        )
}

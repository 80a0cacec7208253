//! Runs over a machine in memory, of which the clauses don't say that memory is found, nor how often it is asked.

use crate::made::reads;
use bank_files::{Files, write_all};
use machine_files::{MemoryMachine, RealFiles};
use std::alloc::{AllocError, Global};
use std::io::ErrorKind;
use std::test::Fail;

// A machine that moves at most that many bytes a call, and has a log.
fn make_machine(alloc: Global, most: usize) -> Result<MemoryMachine, AllocError> {
    let mut machine = MemoryMachine::new(alloc, most);
    machine.put("a.log", b"0123456789")?;
    Ok(machine)
}

fn make_files(alloc: Global, most: usize) -> Result<RealFiles<MemoryMachine>, AllocError> {
    Ok(RealFiles::new(alloc, make_machine(alloc, most)?))
}

fn holds(machine: &MemoryMachine, name: &str, bytes: &[u8]) -> bool {
    machine.contents(name).is_some_and(|found| found == bytes)
}

#[test]
fn moves_whole_files_in_pieces(rt: HostRuntime) -> Result<(), Fail> {
    for most in [1, 3, 10, 11, 1000] {
        assert!(rt; moves_and_empties(rt.alloc(), most)?, "{most}");
    }
    Ok(())
}

fn moves_and_empties(alloc: Global, most: usize) -> Result<bool, AllocError> {
    Ok(moves_whole_files(alloc, most)? && empties_what_was_written(alloc, most)?)
}

// Reads the log whole, adds to it and to standard output, and makes another file. It tells whether all of that succeeded.
fn move_files(alloc: Global, files: &mut RealFiles<MemoryMachine>) -> bool {
    reads(alloc, files, "a.log", 10, Ok(b"0123456789".as_slice()))
        && write_all(files, "a.log", b"abcd").is_ok()
        && write_all(files, "b.log", b"xyz").is_ok()
        && write_all(files, "-", b"report").is_ok()
}

fn moves_whole_files(alloc: Global, most: usize) -> Result<bool, AllocError> {
    let mut files = make_files(alloc, most)?;
    let is_moved = move_files(alloc, &mut files);
    let machine = files.into_machine();
    Ok(is_moved && holds_what_was_moved(&machine))
}

fn holds_what_was_moved(machine: &MemoryMachine) -> bool {
    holds(machine, "a.log", b"0123456789abcd")
        && holds(machine, "b.log", b"xyz")
        && machine.printed() == b"report".as_slice()
}

// The same, and then the log is emptied and written anew. No fault is counted.
fn empties_what_was_written(alloc: Global, most: usize) -> Result<bool, AllocError> {
    let mut files = make_files(alloc, most)?;
    let is_written = move_files(alloc, &mut files) && write_anew(&mut files);
    let machine = files.into_machine();
    Ok(is_written && holds(&machine, "a.log", b"!"))
}

fn write_anew(files: &mut RealFiles<MemoryMachine>) -> bool {
    files.create("a.log").is_ok() && write_all(files, "a.log", b"!").is_ok() && files.faults() == 0
}

#[test]
fn asks_no_more_than_it_must(rt: HostRuntime) -> Result<(), Fail> {
    let places = [0, 4, 8, 10, 3, 7];
    // The file is opened once, and sought only where a read doesn't go on.
    for (reads, appends, calls) in [
        (1, 0, 2),
        (2, 0, 3),
        (3, 0, 4),
        (4, 0, 5),
        (5, 0, 7),
        (6, 0, 8),
        (6, 1, 10),
        (6, 2, 11),
        (6, 3, 12),
    ] {
        let asked = calls_after(rt.alloc(), &places, reads, appends)?;
        assert_eq!(rt; asked, (true, calls), "{reads} and {appends}");
    }
    Ok(())
}

// Whether reads at the first so many of these places and then so many appends succeed, and how often the machine was asked by them.
fn calls_after(
    alloc: Global,
    places: &[u64],
    reads: usize,
    appends: u8,
) -> Result<(bool, u64), AllocError> {
    let mut files = make_files(alloc, 1000)?;
    let succeed = reads_at(&mut files, places, reads) && appends_two(&mut files, appends);
    Ok((succeed, files.into_machine().calls()))
}

fn reads_at(files: &mut RealFiles<MemoryMachine>, places: &[u64], reads: usize) -> bool {
    let mut room = *b"....";
    for at in places.iter().take(reads) {
        if files.read_at("a.log", *at, &mut room).is_err() {
            return false;
        }
    }
    true
}

// Appends two bytes so many times.
fn appends_two(files: &mut RealFiles<MemoryMachine>, appends: u8) -> bool {
    for _append in 0..appends {
        if files.append("a.log", b"12") != Ok(2) {
            return false;
        }
    }
    true
}

// A machine of which five calls are interrupted.
fn interrupted_machine(alloc: Global) -> Result<MemoryMachine, AllocError> {
    let mut machine = make_machine(alloc, 1000)?;
    for call in [2, 3, 6, 8, 9] {
        machine.fail_at(call, ErrorKind::Interrupted)?;
    }
    Ok(machine)
}

#[test]
fn tries_again_what_was_interrupted(rt: HostRuntime) -> Result<(), Fail> {
    let machine = interrupted_machine(rt.alloc())?;
    let mut files = RealFiles::new(rt.alloc(), machine);
    assert!(rt; moves_once(&mut files));
    assert!(rt; was_asked_again(&files.into_machine()));
    Ok(())
}

fn moves_once(files: &mut RealFiles<MemoryMachine>) -> bool {
    let mut room = *b"....";
    files.read_at("a.log", 0, &mut room) == Ok(4)
        && room == *b"0123"
        && files.append("a.log", b"ab") == Ok(2)
        && files.append("-", b"cd") == Ok(2)
        && files.faults() == 0
}

fn was_asked_again(machine: &MemoryMachine) -> bool {
    machine.calls() == 10
        && holds(machine, "a.log", b"0123456789ab")
        && machine.printed() == b"cd".as_slice()
}

// What standard error would say of the latest fault.
fn says(alloc: Global, files: &RealFiles<MemoryMachine>, text: &str) -> bool {
    files.failure().is_some_and(|failure| {
        failure
            .to_string(alloc)
            .is_ok_and(|said| said.as_str() == text)
    })
}

#[test]
fn counts_and_names_each_failure(rt: HostRuntime) -> Result<(), Fail> {
    // Calls 1 to 8: each of five reads and writes asks the machine once or twice.
    for (call, text) in [
        (1, "a.log: quota exceeded"),
        (2, "a.log: quota exceeded"),
        (3, "b.log: quota exceeded"),
        (4, "b.log: quota exceeded"),
        (5, "b.log: quota exceeded"),
        (6, "standard output: quota exceeded"),
        (7, "a.log: quota exceeded"),
    ] {
        assert_eq!(rt;
            failures_of(rt.alloc(), call, text)?,
            (1, 1, true),
            "{call}"
        );
    }
    Ok(())
}

// How many reads and writes fail where that call of the machine does, how many faults are counted, and whether the
// latest of them is named so.
fn failures_of(alloc: Global, call: u64, text: &str) -> Result<(usize, u64, bool), AllocError> {
    let mut machine = make_machine(alloc, 1000)?;
    machine.fail_at(call, ErrorKind::QuotaExceeded)?;
    let mut files = RealFiles::new(alloc, machine);
    let failed = how_many_fail(&mut files);
    Ok((failed, files.faults(), says(alloc, &files, text)))
}

// How many of the five fail.
fn how_many_fail(files: &mut RealFiles<MemoryMachine>) -> usize {
    let mut room = *b"....";
    let answers = [
        files.read_at("a.log", 0, &mut room).is_ok(),
        files.append("b.log", b"1").is_ok(),
        files.append("b.log", b"2").is_ok(),
        files.append("-", b"3").is_ok(),
        files.create("a.log").is_ok(),
    ];
    answers.iter().filter(|ok| !**ok).count()
}

// A name may hold what would end the line or move a terminal's cursor.
#[test]
fn escapes_control_characters_of_names(rt: HostRuntime) -> Result<(), Fail> {
    let mut files = make_files(rt.alloc(), 1000)?;
    assert!(rt; misses_an_odd_name(&mut files));
    assert!(rt;
        says(
            rt.alloc(),
            &files,
            "é\\\\n\\u{1b}[2J\\u{9b}\\u{7f}.log: entity not found"
        )
    );
    Ok(())
}

fn misses_an_odd_name(files: &mut RealFiles<MemoryMachine>) -> bool {
    let mut room = *b"....";
    files
        .read_at("é\\\n\u{1b}[2J\u{9b}\u{7f}.log", 0, &mut room)
        .is_err()
}

//! A machine in memory, for tests. It moves few bytes a call, and is told which of its calls fail.
ghost use Rattle.std.specs.Prelude.{◌≡◌, ◌-◌, ◌<◌, ◌≤◌, ◌++◌, ◌∷◌, [], None, Some, length, take, drop, min, slice_index_or, vec_len, is_err, true, IfOk, IfSome, OnOk, OnErr, MatchResult};
ghost use Rattle.std.specs.Option.{option_copied};
ghost use Rattle.std.specs.IoError.{error_kind};
ghost use Rattle.machine_files.specs.Disk.{Inode};
ghost use Rattle.machine_files.specs.Calls.{Counts, Empties};

use crate::machine::{Machine, count_answer};
use crate::store::{MemoryFile, add_file, copy_from, find, planned};
use std::alloc::{AllocError, Global};
use std::io;
use std::io::ErrorKind;

/// A machine in memory, which tells all. A call moves only so many bytes, and calls whose numbers are on a list
/// fail. The first call has the number 1.
#[derive(Drop)]
pub struct MemoryMachine {
    alloc: Global,
    files: Vec<MemoryFile>,
    printed: Vec<u8>,
    most: usize,
    failing: Vec<(u64, ErrorKind)>,
    calls: u64,
    failures: u64,
    ghost moves: { 0 < most },
}

/// A file of a machine in memory that is open, and where it stands.
#[derive(Clone, Copy)]
pub struct MemoryHandle {
    number: usize,
    place: u64,
}

impl MemoryMachine {
    ghost use Rattle.bank_files.specs.Memory.{told_of};
    ghost use Rattle.bank_files.specs.Told.{Holds};
    ghost use Rattle.machine_files.specs.Disk.{told_at};
    ghost use Rattle.machine_files.specs.Memory.{disk_in, calls_made, failing_calls, next_call, IsFresh, Puts};
    ghost use Rattle.machine_files.specs.Stored.{contents_of, planned_in, SameFiles, Writes};

    /// A machine without files, of which a call moves at most that many bytes, and at least one.
    pub fn new(alloc: Global, most: usize) -> MemoryMachine
        ensures { IsFresh result }
    {
        MemoryMachine {
            alloc,
            files: Vec::new(alloc),
            printed: Vec::new(alloc),
            most: most.max(1),
            failing: Vec::new(alloc),
            calls: 0,
            failures: 0,
        }
    }

    /// Gives a file these bytes, whether it was there or not. Without memory it may be left empty.
    pub fn put(&mut self, name: &str, bytes: &[u8]) -> Result<(), AllocError>
        ensures ok { OnOk result (Puts (disk_in self.old) (disk_in self.new) name.now bytes.now) }
        ensures failing { failing_calls self.new ≡ failing_calls self.old }
    {
        let number = self.make(name)?;
        self.extend_file(number, bytes)?;
        Ok(())
    }

    /// Lets the call of that number fail in that way. Where several are asked for one call, the first counts.
    pub fn fail_at(&mut self, call: u64, kind: ErrorKind) -> Result<(), AllocError>
        ensures ok { OnOk result (failing_calls self.new ≡ failing_calls self.old ++ (call, kind) ∷ []) }
        ensures err { OnErr result (failing_calls self.new ≡ failing_calls self.old) }
        ensures disk { disk_in self.new ≡ disk_in self.old }
    {
        self.failing.push((call, kind))?;
        Ok(())
    }

    /// What a file holds, or None where there is no such file.
    pub fn contents(&self, name: &str) -> Option<&[u8]>
        ensures { told_of (option_copied result) ≡ told_at (disk_in self.now) ((disk_in self.now).entry name.now) }
    {
        let number = find(&self.files, name)?;
        Some(&self.files[number].bytes)
    }

    /// What was printed.
    pub fn printed(&self) -> &[u8]
        ensures { Holds result.now ≡ (disk_in self.now).output }
    {
        &self.printed
    }

    /// How many calls were made.
    pub fn calls(&self) -> u64
        ensures { result ≡ calls_made self.now }
    {
        self.calls
    }

    // Counts a call, which fails where that is planned.
    fn begin(&mut self) -> io::Result<()>
        ensures planned { MatchResult result
            (λ _. planned_in (failing_calls self.old) (next_call self.old) ≡ None)
            (λ error. planned_in (failing_calls self.old) (next_call self.old) ≡ Some (error_kind error)) }
        ensures calls { calls_made self.new ≡ next_call self.old }
        ensures files { self.new.files ≡ self.old.files }
        ensures printed { self.new.printed ≡ self.old.printed }
        ensures counted { Counts self.old.failures self.new.failures (is_err result) }
    {
        self.calls = self.calls.saturating_add(1);
        match planned(&self.failing, self.calls) {
            Some(kind) => self.fail(kind),
            None => Ok(()),
        }
    }

    // Counts a failure, and answers it.
    fn fail<T>(&mut self, kind: ErrorKind) -> io::Result<T>
        ensures kind { MatchResult result (λ _. ⊥) (λ error. error_kind error ≡ kind) }
        ensures calls { calls_made self.new ≡ calls_made self.old }
        ensures files { self.new.files ≡ self.old.files }
        ensures printed { self.new.printed ≡ self.old.printed }
        ensures counted { Counts self.old.failures self.new.failures true }
    {
        count_answer(&mut self.failures, Err(io::Error::from(kind)))
    }

    // Makes a file of that name empty, whether it was there or not, and answers its number.
    fn make(&mut self, name: &str) -> Result<usize, AllocError>
        ensures emptied { OnOk result (Empties (disk_in self.old) (disk_in self.new) name.now) }
        ensures within { IfOk result (λ number. number < vec_len self.new.files) }
        ensures number { IfOk result (λ number. (disk_in self.new).entry name.now ≡ Inode number) }
        ensures empty { IfOk result (λ number. slice_index_or (contents_of self.new.files.items) number [] ≡ []) }
        ensures same { OnErr result (disk_in self.new ≡ disk_in self.old) }
        ensures printed { self.new.printed ≡ self.old.printed }
        ensures failing { self.new.failing ≡ self.old.failing }
        ensures failures { self.new.failures ≡ self.old.failures }
    {
        if let Some(number) = find(&self.files, name) {
            self.clear_file(number);
            return Ok(number);
        }
        let number = self.files.len();
        add_file(self.alloc, &mut self.files, name)?;
        Ok(number)
    }

    // Makes the file of that number empty.
    fn clear_file(&mut self, number: usize)
        requires { number < vec_len self.old.files }
        ensures files { Writes self.old.files.items self.new.files.items number [] }
        ensures printed { self.new.printed ≡ self.old.printed }
        ensures failing { self.new.failing ≡ self.old.failing }
        ensures failures { self.new.failures ≡ self.old.failures }
    {
        let file = &mut self.files[number];
        file.bytes.clear();
    }

    // Adds bytes to the end of the file of that number. Without memory all files are as before.
    fn extend_file(&mut self, number: usize, bytes: &[u8]) -> Result<(), AllocError>
        requires { number < vec_len self.old.files }
        ensures ok { OnOk result (Writes self.old.files.items self.new.files.items number
            (slice_index_or (contents_of self.old.files.items) number [] ++ bytes.now)) }
        ensures err { OnErr result (SameFiles self.old.files.items self.new.files.items) }
        ensures printed { self.new.printed ≡ self.old.printed }
        ensures failing { self.new.failing ≡ self.old.failing }
        ensures failures { self.new.failures ≡ self.old.failures }
    {
        let file = &mut self.files[number];
        file.bytes.extend_from_slice(bytes)
    }
}

impl Machine for MemoryMachine {
    ghost use Rattle.machine_files.specs.Memory.{disk_in};
    ghost use Rattle.machine_files.specs.Stored.{names_of, entry_apart};

    type File = MemoryHandle;

    ghost disk = { disk_in };

    ghost leads = { λ file. Inode file.number };

    ghost place = { λ file. file.place };

    ghost failures = { λ m. m.failures };

    ghost apart = { λ m. entry_apart 0 (names_of m.files.items) };

    ghost output_is_there = { λ m h. Prim.cc };

    fn open_to_read(&mut self, name: &str) -> io::Result<MemoryHandle> {
        self.begin()?;
        match find(&self.files, name) {
            Some(number) => Ok(MemoryHandle { number, place: 0 }),
            None => self.fail(ErrorKind::NotFound),
        }
    }

    fn open_to_append(&mut self, name: &str) -> io::Result<MemoryHandle> {
        self.begin()?;
        if let Some(number) = find(&self.files, name) {
            return Ok(MemoryHandle { number, place: 0 });
        }
        let number = self.files.len();
        match add_file(self.alloc, &mut self.files, name) {
            Ok(()) => Ok(MemoryHandle { number, place: 0 }),
            Err(_) => self.fail(ErrorKind::OutOfMemory),
        }
    }

    fn make_empty(&mut self, name: &str) -> io::Result<()> {
        self.begin()?;
        match self.make(name) {
            Ok(_) => Ok(()),
            Err(_) => self.fail(ErrorKind::OutOfMemory),
        }
    }

    fn read(&mut self, file: &mut MemoryHandle, into: &mut [u8]) -> io::Result<usize> {
        self.begin()?;
        if file.number >= self.files.len() {
            return self.fail(ErrorKind::InvalidInput);
        }
        let room = into.len().min(self.most);
        let count = copy_from(
            &self.files[file.number].bytes,
            file.place,
            &mut into[..room],
        );
        file.place += count as u64;
        Ok(count)
    }

    fn seek(&mut self, file: &mut MemoryHandle, to: u64) -> io::Result<()> {
        self.begin()?;
        file.place = to;
        Ok(())
    }

    fn append(&mut self, file: &mut MemoryHandle, bytes: &[u8]) -> io::Result<usize> {
        self.begin()?;
        if file.number >= self.files.len() {
            return self.fail(ErrorKind::InvalidInput);
        }
        let count = bytes.len().min(self.most);
        match self.extend_file(file.number, &bytes[..count]) {
            Ok(()) => Ok(count),
            Err(_) => self.fail(ErrorKind::OutOfMemory),
        }
    }

    fn print(&mut self, bytes: &[u8]) -> io::Result<usize> {
        self.begin()?;
        let count = bytes.len().min(self.most);
        match self.printed.extend_from_slice(&bytes[..count]) {
            Ok(()) => Ok(count),
            Err(_) => self.fail(ErrorKind::OutOfMemory),
        }
    }
}

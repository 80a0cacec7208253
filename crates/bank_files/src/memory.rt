//! Files in memory, for tests: they are given their contents, told which calls are to fail, handed to the
//! code under test, and looked at afterwards. So a test can fail the first call, then the second, and so on,
//! and see what each fault leaves behind.
//!
//! A call fails where its number is on the list, where it reads a file that isn't there, or where it finds no
//! memory for what is written. The last is counted besides as `starved`, so that a test can tell that the
//! machine was short of memory from a fault that it asked for.
ghost use Rattle.std.specs.Prelude.{◌≡◌, ◌∷◌, ◌++◌, ◌↔◌, ◌⊎◌, ◌≤◌, [], OnOk, OnErr, IsTrue, unwrap_or};
ghost use Rattle.std.specs.Option.{option_copied};
ghost use Rattle.bank_files.specs.Fault.{greatest, raised};
ghost use Rattle.bank_files.specs.Stored.{Sets, SameFiles};

use crate::store::{add_to_file, copy_from, set_file};
use crate::{Failed, Files, OUTPUT};
use signal_base::NoMemory;
use std::alloc::{AllocError, Global};
use std::collections::BTreeMap;

/// Files in memory. They tell all that they hold. Trait calls are numbered from 1, and those whose numbers
/// are on a list fail. One count of faults serves for all names.
#[derive(Drop)]
pub struct MemoryFiles {
    alloc: Global,
    output: Vec<u8>,
    files: BTreeMap<String, Vec<u8>>,
    failing: Vec<u64>,
    calls: u64,
    faults: u64,
    starved: u64,
}

impl MemoryFiles {
    ghost use Rattle.bank_files.specs.Memory.{contents_of, failing_calls, faults_of, starved_of, next_call, IsListed, SameTally, IsFresh};

    /// An empty standard output and no other file. No call is to fail. It takes no memory.
    pub fn make(alloc: Global) -> MemoryFiles
        ensures { IsFresh result }
    {
        MemoryFiles {
            alloc,
            output: Vec::new(alloc),
            files: BTreeMap::new(alloc),
            failing: Vec::new(alloc),
            calls: 0,
            faults: 0,
            starved: 0,
        }
    }

    /// Gives a file these bytes, whether it was there or not. Without memory all is as before.
    pub fn put(&mut self, name: &str, bytes: &[u8]) -> Result<(), NoMemory>
        ensures ok { OnOk result (Sets (contents_of self.old) (contents_of self.new) name.now bytes.now) }
        ensures err { OnErr result (SameFiles (contents_of self.old) (contents_of self.new)) }
        ensures failing { failing_calls self.new ≡ failing_calls self.old }
        ensures counts { SameTally self.old self.new }
    {
        let copy = bytes.to_vec(self.alloc).map_err(|_| NoMemory)?;
        self.set(name, copy).map_err(|_| NoMemory)
    }

    /// Adds a number to the list of the trait calls that fail. The first call has the number 1. Without
    /// memory all is as before.
    pub fn fail(&mut self, call: u64) -> Result<(), NoMemory>
        ensures ok { OnOk result (failing_calls self.new ≡ failing_calls self.old ++ call ∷ []) }
        ensures err { OnErr result (failing_calls self.new ≡ failing_calls self.old) }
        ensures files { SameFiles (contents_of self.old) (contents_of self.new) }
        ensures counts { SameTally self.old self.new }
    {
        self.failing.push(call).map_err(|_| NoMemory)
    }

    /// What a file holds, or None where there is no such file.
    pub fn contents(&self, name: &str) -> Option<&[u8]>
        ensures { option_copied result ≡ contents_of self.now name.now }
    {
        if name == OUTPUT {
            return Some(&self.output);
        }
        self.files.get(name).map(|bytes| bytes.as_slice())
    }

    /// How many trait calls were given up for want of memory.
    pub fn starved(&self) -> u64
        ensures { result ≡ starved_of self.now }
    {
        self.starved
    }

    // Gives a file these bytes.
    fn set(&mut self, name: &str, bytes: Vec<u8>) -> Result<(), AllocError>
        ensures ok { OnOk result (Sets (contents_of self.old) (contents_of self.new) name.now bytes.items) }
        ensures err { OnErr result (SameFiles (contents_of self.old) (contents_of self.new)) }
        ensures failing { failing_calls self.new ≡ failing_calls self.old }
        ensures counts { SameTally self.old self.new }
    {
        if name == OUTPUT {
            self.output = bytes;
            return Ok(());
        }
        set_file(self.alloc, &mut self.files, name, bytes)
    }

    // Adds these bytes to the end of a file.
    fn add(&mut self, name: &str, bytes: &[u8]) -> Result<(), AllocError>
        ensures ok { OnOk result (Sets (contents_of self.old) (contents_of self.new) name.now
            (unwrap_or (contents_of self.old name.now) [] ++ bytes.now)) }
        ensures err { OnErr result (SameFiles (contents_of self.old) (contents_of self.new)) }
        ensures failing { failing_calls self.new ≡ failing_calls self.old }
        ensures counts { SameTally self.old self.new }
    {
        if name == OUTPUT {
            return self.output.extend_from_slice(bytes);
        }
        add_to_file(self.alloc, &mut self.files, name, bytes)
    }

    // Counts a call, and tells whether it is to fail whatever it asks.
    fn is_refused(&mut self) -> bool
        ensures refused { IsTrue result ↔ (IsListed self.old ⊎ (starved_of self.old ≡ greatest)) }
        ensures counted { self.new ≡ record self.old { calls = next_call self.old } }
    {
        self.calls = self.calls.saturating_add(1);
        self.starved == u64::MAX || self.failing.contains(&self.calls)
    }

    // Counts a fault.
    fn fault(&mut self) -> Failed
        ensures counted { self.new ≡ record self.old { faults = raised (faults_of self.old) } }
        ensures no_less { faults_of self.old ≤ faults_of self.new }
    {
        self.faults = self.faults.saturating_add(1);
        Failed
    }

    // Counts a call without memory, which is a fault.
    fn starve(&mut self) -> Failed
        ensures counted { self.new ≡ record self.old {
          faults = raised (faults_of self.old);
          starved = raised (starved_of self.old);
        } }
        ensures no_less { faults_of self.old ≤ faults_of self.new }
    {
        self.starved = self.starved.saturating_add(1);
        self.fault()
    }
}

impl Files for MemoryFiles {
    ghost use Rattle.std.specs.Prelude.{◌≡◌, ◌≢◌, ◌⊎◌, ◌↔◌, ◌++◌, [], None, IfOk, IfSome, OnOk, OnErr, IsErr, is_err, length, unwrap_or};
    ghost use Rattle.bank_files.specs.Told.{output_name};
    ghost use Rattle.bank_files.specs.Stored.{Copies, Sets, SameFiles};
    ghost use Rattle.bank_files.specs.Memory.{contents_of, seen_by, starved_of, IsGivenUp, CountsCall, StarvesOnce, output_told};

    ghost view = { seen_by };

    ghost output_is_there = { output_told };

    fn read_at(&mut self, name: &str, at: u64, into: &mut [u8]) -> Result<usize, Failed>
        requires { name.now ≢ output_name }
        ensures ok { IfOk result (λ n.
            IfSome (contents_of self.old name.now) (λ file. Copies file at n into.old into.new)) }
        ensures err { OnErr result (into.new ≡ into.old) }
        ensures files { SameFiles (contents_of self.old) (contents_of self.new) }
        // It fails exactly where it is given up or the file is missing.
        ensures failed { IsErr result
            ↔ (IsGivenUp self.old self.new ⊎ (contents_of self.old name.now ≡ None)) }
        ensures counted { CountsCall self.old self.new (is_err result) }
        ensures starved { starved_of self.new ≡ starved_of self.old }
    {
        if self.is_refused() {
            return Err(self.fault());
        }
        match self.contents(name) {
            Some(file) => Ok(copy_from(file, at, into)),
            None => Err(self.fault()),
        }
    }

    fn create(&mut self, name: &str) -> Result<(), Failed>
        requires { name.now ≢ output_name }
        ensures ok { OnOk result (Sets (contents_of self.old) (contents_of self.new) name.now []) }
        ensures err { OnErr result (SameFiles (contents_of self.old) (contents_of self.new)) }
        // It fails exactly where it is given up.
        ensures failed { IsErr result ↔ IsGivenUp self.old self.new }
        ensures counted { CountsCall self.old self.new (is_err result) }
        ensures starved { StarvesOnce self.old self.new }
    {
        if self.is_refused() {
            return Err(self.fault());
        }
        match self.set(name, Vec::new(self.alloc)) {
            Ok(()) => Ok(()),
            Err(_) => Err(self.starve()),
        }
    }

    fn append(&mut self, name: &str, bytes: &[u8]) -> Result<usize, Failed>
        ensures whole { IfOk result (λ n. n ≡ length bytes.now) }
        ensures ok { OnOk result (Sets (contents_of self.old) (contents_of self.new) name.now
            (unwrap_or (contents_of self.old name.now) [] ++ bytes.now)) }
        ensures err { OnErr result (SameFiles (contents_of self.old) (contents_of self.new)) }
        // It fails exactly where it is given up.
        ensures failed { IsErr result ↔ IsGivenUp self.old self.new }
        ensures counted { CountsCall self.old self.new (is_err result) }
        ensures starved { StarvesOnce self.old self.new }
    {
        if self.is_refused() {
            return Err(self.fault());
        }
        match self.add(name, bytes) {
            Ok(()) => Ok(bytes.len()),
            Err(_) => Err(self.starve()),
        }
    }
}

//! The files of a machine, as a receiver bank sees them.
ghost use Rattle.std.specs.Prelude.{◌≡◌, ◌≢◌, ◌+◌, ◌≤◌, ◌<◌, true, false, IfOk, IfErr, IfSome, IsSomeAnd, OnOk, OnErr, IsErr, is_ok, if◌then◌else◌, string_bytes};
ghost use Rattle.std.specs.Option.{ForSome};
ghost use Rattle.std.proofs.Props.{props};
ghost use Rattle.bank_files.specs.Fault.{HasFault, raised};
ghost use Rattle.bank_files.specs.Told.{output_name};
ghost use Rattle.machine_files.specs.Opened.{IsKeptToRead, IsKeptToAppend};

use crate::Machine;
use crate::failure::Failure;
use crate::kept::{append_named, read_named};
use crate::opened::Opened;
use crate::tries::print_some;
use bank_files::{Failed, Files, OUTPUT};
use std::alloc::Global;
use std::io;

/// The files of a machine by their names, and its standard output under the name `-`. What is told of a file is
/// what the machine's disk tells. One count of faults serves for all names, for reading and for writing: it is
/// raised at each failure of the machine, and stands still at the greatest u64.
#[derive(Drop)]
pub struct RealFiles<M: Machine> {
    alloc: Global,
    machine: M,
    reading: Option<Opened<M::File>>,
    writing: Option<Opened<M::File>>,
    // Whether a file that had just been opened to append to took nothing. Where it was missing, it was made, and
    // nobody knows.
    in_doubt: bool,
    faults: u64,
    // The latest fault, where there was memory to keep it.
    failure: Option<Failure>,
    // No more faults are counted than the machine has had failures.
    ghost faults_are_failures: { faults ≤ M.failures machine },
    // Files come into doubt by a fault alone.
    ghost doubt_is_a_fault: { in_doubt ≡ true → 0 < faults },
    ghost reading_kept: { ForSome reading (IsKeptToRead (M.disk machine) M.leads M.place) } by { Prim.hlevel props },
    ghost writing_kept: { ForSome writing (IsKeptToAppend (M.disk machine) M.leads) } by { Prim.hlevel props },
}

impl<M: Machine> RealFiles<M> {
    ghost use Rattle.machine_files.specs.Seeing.{IsSeenThrough, seen_of};

    /// The files of this machine, of which none has failed yet.
    pub fn new(alloc: Global, machine: M) -> RealFiles<M>
        ensures { ⟦<RealFiles<M> as Files>⟧.view result ≡ seen_of (M.disk machine) false 0 }
    {
        RealFiles {
            alloc,
            machine,
            reading: None,
            writing: None,
            in_doubt: false,
            faults: 0,
            failure: None,
        }
    }

    /// The machine whose files these are.
    pub fn into_machine(self) -> M
        ensures { IsSeenThrough (M.disk result) (M.failures result) (⟦<RealFiles<M> as Files>⟧.view self) }
    {
        self.machine
    }

    /// How many faults were counted, of reading and of writing.
    pub fn faults(&self) -> u64
        ensures { (⟦<RealFiles<M> as Files>⟧.view self.now).read_faults output_name ≡ result }
    {
        self.faults
    }

    /// The file that failed last, and how, where that is known.
    pub fn failure(&self) -> Option<&Failure> {
        self.failure.as_ref()
    }

    // Hands on what the machine answered for the file of that name. An error is counted and kept.
    fn count_error<T>(&mut self, name: &str, answer: io::Result<T>) -> Result<T, Failed>
        requires { OnErr answer (HasFault self.old.faults (M.failures self.old.machine)) }
        ensures value { IfOk result (λ value. answer ≡ Ok value) }
        ensures error { OnErr result (IsErr answer) }
        ensures counted { self.new.faults
            ≡ (if is_ok answer then self.old.faults else raised self.old.faults) }
        ensures cause { OnErr result (HasFault self.old.faults self.new.faults) }
        ensures same { OnOk result (self.new.faults ≡ self.old.faults) }
        ensures no_less { self.old.faults ≤ self.new.faults }
        ensures failure { IfErr answer (λ error. IfSome self.new.failure (λ failure.
            (string_bytes failure.name ≡ name.now) × (failure.error ≡ error))) }
        ensures machine { self.new.machine ≡ self.old.machine }
        ensures in_doubt { self.new.in_doubt ≡ self.old.in_doubt }
    {
        match answer {
            Ok(value) => Ok(value),
            Err(error) => {
                self.faults = self.faults.saturating_add(1);
                self.failure = Failure::new(self.alloc, name, error);
                Err(Failed)
            }
        }
    }
}

impl<M: Machine> Files for RealFiles<M> {
    ghost use Rattle.machine_files.specs.Seeing.{seen_of};

    ghost view = { λ files. seen_of (M.disk files.machine) files.in_doubt files.faults };

    ghost output_is_there = { λ files. M.output_is_there files.machine };

    fn read_at(&mut self, name: &str, at: u64, into: &mut [u8]) -> Result<usize, Failed> {
        let read = read_named(
            self.alloc,
            &mut self.machine,
            &mut self.reading,
            name,
            at,
            into,
        );
        self.count_error(name, read)
    }

    // What stands open is closed first, since the name may lead to another file afterwards.
    fn create(&mut self, name: &str) -> Result<(), Failed> {
        self.reading = None;
        self.writing = None;
        let created = self.machine.make_empty(name);
        self.count_error(name, created)
    }

    fn append(&mut self, name: &str, bytes: &[u8]) -> Result<usize, Failed> {
        if name == OUTPUT {
            let printed = print_some(&mut self.machine, bytes);
            return self.count_error(name, printed);
        }
        let mut in_doubt = self.in_doubt;
        let appended = append_named(
            self.alloc,
            &mut self.machine,
            &mut self.writing,
            &mut in_doubt,
            name,
            bytes,
        );
        let answer = self.count_error(name, appended);
        self.in_doubt = in_doubt;
        answer
    }
}

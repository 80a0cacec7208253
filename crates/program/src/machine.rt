//! The files of this machine. What stands here is trusted: each method asks the operating system once, and hands on what
//! that answers. All that is made of the answers is proved in `machine_files`.

use crate::progress::Progress;
use machine_files::{Machine, count_answer, count_taking};
use std::fs::OpenOptions;
use std::io::{Read, Seek, SeekFrom, Write};
use std::rt::Clock;
use std::{fs, io, rt};

/// The operating system that the runtime stands for. Nothing is told of its disk, since other programs change it too. A line
/// that shows progress ends before anything is printed, since both may go to one terminal.
#[derive(Drop)]
pub struct HostMachine<'a, R: rt::Files + Print, S: Clock + Eprint> {
    rt: &'a R,
    progress: &'a Progress<'a, S>,
    failures: u64,
}

impl<'a, R: rt::Files + Print, S: Clock + Eprint> HostMachine<'a, R, S> {
    /// The operating system of this runtime, of which no call has failed yet.
    pub fn new(rt: &'a R, progress: &'a Progress<'a, S>) -> HostMachine<'a, R, S> {
        HostMachine {
            rt,
            progress,
            failures: 0,
        }
    }
}

impl<'a, R: rt::Files + Print, S: Clock + Eprint> Machine for HostMachine<'a, R, S> {
    ghost use Rattle.machine_files.specs.Disk.{Unknown};
    ghost use Rattle.program.specs.Host.{untold_disk, untold_is_there};

    type File = R::File;

    ghost disk = { λ _. untold_disk };

    ghost leads = { λ _. Unknown };

    ghost place = { λ _. 0 };

    ghost failures = { λ m. m.failures };

    ghost apart = { λ m a b number h. Prim.cc };

    ghost output_is_there = { λ _. untold_is_there };

    fn open_to_read(&mut self, name: &str) -> io::Result<R::File> {
        count_answer(&mut self.failures, fs::open(self.rt, name))
    }

    fn open_to_append(&mut self, name: &str) -> io::Result<R::File> {
        let opened = OpenOptions::new()
            .append(true)
            .create(true)
            .open(self.rt, name);
        count_answer(&mut self.failures, opened)
    }

    fn make_empty(&mut self, name: &str) -> io::Result<()> {
        let made = fs::create(self.rt, name).map(|_| ());
        count_answer(&mut self.failures, made)
    }

    fn read(&mut self, file: &mut R::File, into: &mut [u8]) -> io::Result<usize> {
        count_answer(&mut self.failures, file.read(into))
    }

    fn seek(&mut self, file: &mut R::File, to: u64) -> io::Result<()> {
        let moved = file.seek(SeekFrom::Start(to)).map(|_| ());
        count_answer(&mut self.failures, moved)
    }

    fn append(&mut self, file: &mut R::File, bytes: &[u8]) -> io::Result<usize> {
        count_taking(&mut self.failures, bytes, file.write(bytes))
    }

    fn print(&mut self, bytes: &[u8]) -> io::Result<usize> {
        self.progress.end();
        count_taking(&mut self.failures, bytes, self.rt.write_some(bytes))
    }
}

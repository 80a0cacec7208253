//! Files that read and append a byte a call, to run code over that must not mind short reads and writes.
use crate::{Failed, Files};

/// The files of `inner`, of which each call reads or appends at most one byte. It tells what they tell, counts
/// what they count, and takes no memory of its own.
#[derive(Drop)]
pub struct OneByte<F: Files> {
    /// The files.
    pub inner: F,
}

impl<F: Files> Files for OneByte<F> {
    ghost use Rattle.std.specs.Prelude.{◌≡◌, ◌≢◌, ◌<◌, ◌≤◌, length, take, IfOk, OnOk, OnErr};
    ghost use Rattle.bank_files.specs.Told.{output_name, appended, Tells, Finds, Reads};
    ghost use Rattle.bank_files.specs.Seen.{SameCounts, ReadFails, WriteFails, OnlyReads, OnlyWrites};

    ghost view = { λ files. F.view files.inner };

    ghost output_is_there = { λ files. F.output_is_there files.inner };

    fn read_at(&mut self, name: &str, at: u64, into: &mut [u8]) -> Result<usize, Failed>
        requires { name.now ≢ output_name }
        ensures one { IfOk result (λ n. n ≤ 1) }
        ensures length { IfOk result (λ n. n ≤ length into.old) }
        ensures bytes { IfOk result (λ n.
            Finds ((F.view self.old.inner).told name.now) (λ file. Reads file at n into.new)) }
        ensures cause { OnErr result (ReadFails name.now (F.view self.old.inner) (F.view self.new.inner)) }
        ensures same_counts { OnOk result (SameCounts (F.view self.old.inner) (F.view self.new.inner)) }
        ensures only { OnlyReads (F.view self.old.inner) (F.view self.new.inner) }
    {
        let count = into.len().min(1);
        self.inner.read_at(name, at, &mut into[..count])
    }

    fn create(&mut self, name: &str) -> Result<(), Failed> {
        self.inner.create(name)
    }

    fn append(&mut self, name: &str, bytes: &[u8]) -> Result<usize, Failed>
        ensures one { IfOk result (λ n. n ≤ 1) }
        ensures length { IfOk result (λ n. n ≤ length bytes.now) }
        ensures some { IfOk result (λ n. 0 < length bytes.now → 0 < n) }
        ensures appended { IfOk result (λ n.
            Tells (appended ((F.view self.old.inner).told name.now) (take n bytes.now)) ((F.view self.new.inner).told name.now)) }
        ensures unchanged { OnErr result
            (Tells ((F.view self.old.inner).told name.now) ((F.view self.new.inner).told name.now)) }
        ensures cause { OnErr result (WriteFails name.now (F.view self.old.inner) (F.view self.new.inner)) }
        ensures same_counts { OnOk result (SameCounts (F.view self.old.inner) (F.view self.new.inner)) }
        ensures only { OnlyWrites name.now (F.view self.old.inner) (F.view self.new.inner) }
    {
        let count = bytes.len().min(1);
        self.inner.append(name, &bytes[..count])
    }
}

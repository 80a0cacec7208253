//! What an operating system gives: files by name that are opened, read and appended to, and standard output.
ghost use Rattle.std.specs.Prelude.{◌≡◌, ◌≢◌, ◌+◌, ◌≤◌, ℕ, List, length, take, IfOk, IfErr, OnOk, OnErr, true, is_err};
ghost use Rattle.std.specs.IoError.{error_kind};
ghost use Rattle.std.specs.declared.io.ErrorKind.TheVariants.{Interrupted};
ghost use Rattle.bank_files.specs.Told.{Missing, Finds, Reads};
ghost use Rattle.machine_files.specs.Disk.{Entry, Inode, Disk, told_at};
ghost use Rattle.machine_files.specs.Calls.{Opens, Makes, Empties, Adds, Prints, StandsAt, Counts, takes_nothing};

use std::io;

/// A machine with a disk and a standard output. It tells where names lead and what files hold, perhaps all of
/// it or nothing, and counts its failures.
///
/// A name leads to an inode, which is the file itself. A file that is open stays the same inode, wherever its
/// name leads later. Nothing is told of a name that leads to the inode of another that is told, and what is
/// told changes by these calls alone: of what other programs change, a machine tells nothing.
///
/// Reads and writes may be short. They may be interrupted, which `ErrorKind::Interrupted` says, and then nothing
/// was done.
pub trait Machine: Drop {
    /// A file that is open.
    type File: Drop;

    /// What is told of the disk and of standard output.
    ghost disk: { Self → Disk };

    /// Where an open file leads.
    ghost leads: { Self.File → Entry };

    /// The place at which the next read of an open file begins, in bytes from its start, where anything is
    /// told of the file.
    ghost place: { Self.File → ℕ };

    /// How many calls have failed, were interrupted, or took nothing of a piece.
    ghost failures: { Self → ℕ };

    /// Opens the file of that name at its start. A missing file is a failure.
    fn open_to_read(&mut self, name: &str) -> io::Result<Self::File>
        ensures opened { IfOk result (λ file. Opens ((disk self.old).entry name.now) (leads file) (place file)) }
        ensures same { disk self.new ≡ disk self.old }
        ensures counted { Counts (failures self.old) (failures self.new) (is_err result) };

    /// Opens the file of that name to write to its end. It is made where it is missing.
    fn open_to_append(&mut self, name: &str) -> io::Result<Self::File>
        ensures opened { IfOk result (λ file. Opens ((disk self.new).entry name.now) (leads file) (place file)) }
        ensures made { OnOk result (Makes (disk self.old) (disk self.new) name.now) }
        ensures same { OnErr result (disk self.new ≡ disk self.old) }
        ensures counted { Counts (failures self.old) (failures self.new) (is_err result) };

    /// Makes the file of that name empty, whether it was there or not. Another inode may get the name.
    fn make_empty(&mut self, name: &str) -> io::Result<()>
        ensures emptied { OnOk result (Empties (disk self.old) (disk self.new) name.now) }
        ensures same { OnErr result (disk self.new ≡ disk self.old) }
        ensures counted { Counts (failures self.old) (failures self.new) (is_err result) };

    /// Reads from where the file stands into the front of `into`, answers how many bytes, and moves the file
    /// on by as many. 0 for an `into` that isn't empty means that the file ends there.
    fn read(&mut self, file: &mut Self::File, into: &mut [u8]) -> io::Result<usize>
        ensures length { IfOk result (λ n. n ≤ length into.old) }
        ensures bytes { IfOk result (λ n. Finds (told_at (disk self.old) (leads file.old))
            (λ bytes. Reads bytes (place file.old) n into.new)) }
        ensures moved { IfOk result (λ n. StandsAt (told_at (disk self.old) (leads file.old))
            (place file.new) (place file.old + n)) }
        ensures interrupted { IfErr result (λ error. error_kind error ≡ Interrupted →
            StandsAt (told_at (disk self.old) (leads file.old)) (place file.new) (place file.old)) }
        ensures file { leads file.new ≡ leads file.old }
        ensures same { disk self.new ≡ disk self.old }
        ensures counted { Counts (failures self.old) (failures self.new) (is_err result) };

    /// Moves an open file to that place, in bytes from its start.
    fn seek(&mut self, file: &mut Self::File, to: u64) -> io::Result<()>
        ensures moved { OnOk result (StandsAt (told_at (disk self.old) (leads file.old)) (place file.new) to) }
        ensures file { leads file.new ≡ leads file.old }
        ensures same { disk self.new ≡ disk self.old }
        ensures counted { Counts (failures self.old) (failures self.new) (is_err result) };

    /// Adds a front of `bytes` to the end of a file that is open for that, and answers how many it took.
    fn append(&mut self, file: &mut Self::File, bytes: &[u8]) -> io::Result<usize>
        ensures length { IfOk result (λ n. n ≤ length bytes.now) }
        ensures appended { IfOk result (λ n.
            Adds (disk self.old) (disk self.new) (leads file.old) (take n bytes.now)) }
        ensures file { leads file.new ≡ leads file.old }
        ensures same { takes_nothing result bytes.now ≡ true → disk self.new ≡ disk self.old }
        ensures counted { Counts (failures self.old) (failures self.new) (takes_nothing result bytes.now) };

    /// Writes a front of `bytes` to standard output, and answers how many bytes it took.
    fn print(&mut self, bytes: &[u8]) -> io::Result<usize>
        ensures length { IfOk result (λ n. n ≤ length bytes.now) }
        ensures printed { IfOk result (λ n. Prints (disk self.old) (disk self.new) (take n bytes.now)) }
        ensures same { takes_nothing result bytes.now ≡ true → disk self.new ≡ disk self.old }
        ensures counted { Counts (failures self.old) (failures self.new) (takes_nothing result bytes.now) };

    /// Two names that are told don't lead to one inode.
    ghost apart: { (machine : Self) (a b : List ℕ) (number : ℕ)
        → (disk machine).entry a ≡ Inode number → (disk machine).entry b ≡ Inode number → a ≡ b };

    /// Standard output is always there.
    ghost output_is_there: { (machine : Self) → (disk machine).output ≢ Missing };
}

/// Hands on the answer of a call. One that failed is counted.
pub fn count_answer<T>(failures: &mut u64, answer: io::Result<T>) -> io::Result<T>
    ensures same { result ≡ answer }
    ensures counted { Counts failures.old failures.new (is_err answer) }
{
    *failures = failures.saturating_add(u64::from(answer.is_err()));
    answer
}

/// Hands on the answer of a call that took a front of `bytes`. One that failed is counted, and one that took
/// nothing of bytes that are there.
pub fn count_taking(
    failures: &mut u64,
    bytes: &[u8],
    answer: io::Result<usize>,
) -> io::Result<usize>
    ensures same { result ≡ answer }
    ensures counted { Counts failures.old failures.new (takes_nothing answer bytes.now) }
{
    let took = answer.is_ok_and(|n| n > 0 || bytes.is_empty());
    *failures = failures.saturating_add(u64::from(!took));
    answer
}

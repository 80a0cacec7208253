//! Files as the program sees them: what is told of each name, and how often reading or writing it failed.
ghost use Rattle.std.specs.Prelude.{◌≡◌, ◌≢◌, ◌<◌, ◌≤◌, length, take, IfOk, OnOk, OnErr};
ghost use Rattle.bank_files.specs.Told.{Missing, output_name, emptied, appended, Tells, Finds, Reads};
ghost use Rattle.bank_files.specs.Seen.{Seen, SameCounts, ReadFails, WriteFails, OnlyReads, OnlyWrites};

/// Reading or writing a file failed.
#[derive(Clone, Copy, Debug, PartialEq, Eq)]
pub struct Failed;

/// The name of standard output, which can only be appended to.
pub const OUTPUT: &str = "-";

/// Files by name. A kind of files tells the contents of some names, perhaps of all or of none, and
/// keeps for each name a count of the faults of reading and one of the faults of writing it. The counts
/// never fall, and a call that succeeds raises none. A call that fails may raise the counts of other names
/// too, so a kind may keep one count for all.
///
/// A name that is told after a call was told before it. What a clause says of a file's contents, it says
/// of a name that is told before and after the call.
pub trait Files {
    /// What is told of each name (its bytes, that there is no such file, or nothing), and the counts of faults.
    ghost view: { Self → Seen };

    /// Reads bytes from place `at` (in bytes from the file's start) into the front of `into`, and answers
    /// how many. 0 for an `into` that isn't empty means that the file ends there. What lies behind the
    /// front afterwards is left open. A missing file is a fault.
    fn read_at(&mut self, name: &str, at: u64, into: &mut [u8]) -> Result<usize, Failed>
        requires { name.now ≢ output_name }
        ensures length { IfOk result (λ n. n ≤ length into.old) }
        ensures bytes { IfOk result (λ n.
            Finds ((view self.old).told name.now) (λ file. Reads file at n into.new)) }
        ensures cause { OnErr result (ReadFails name.now (view self.old) (view self.new)) }
        ensures same_counts { OnOk result (SameCounts (view self.old) (view self.new)) }
        ensures only { OnlyReads (view self.old) (view self.new) };

    /// Makes the file empty, whether it was there or not.
    fn create(&mut self, name: &str) -> Result<(), Failed>
        requires { name.now ≢ output_name }
        ensures emptied { OnOk result
            (Tells (emptied ((view self.old).told name.now)) ((view self.new).told name.now)) }
        ensures unchanged { OnErr result
            (Tells ((view self.old).told name.now) ((view self.new).told name.now)) }
        ensures cause { OnErr result (WriteFails name.now (view self.old) (view self.new)) }
        ensures same_counts { OnOk result (SameCounts (view self.old) (view self.new)) }
        ensures only { OnlyWrites name.now (view self.old) (view self.new) };

    /// Adds a front of `bytes` to the end of the file, which is made where it was missing, also where `bytes`
    /// is empty. It answers how many bytes it took: at least one, unless `bytes` is empty.
    fn append(&mut self, name: &str, bytes: &[u8]) -> Result<usize, Failed>
        ensures length { IfOk result (λ n. n ≤ length bytes.now) }
        ensures some { IfOk result (λ n. 0 < length bytes.now → 0 < n) }
        ensures appended { IfOk result (λ n.
            Tells (appended ((view self.old).told name.now) (take n bytes.now)) ((view self.new).told name.now)) }
        ensures unchanged { OnErr result
            (Tells ((view self.old).told name.now) ((view self.new).told name.now)) }
        ensures cause { OnErr result (WriteFails name.now (view self.old) (view self.new)) }
        ensures same_counts { OnOk result (SameCounts (view self.old) (view self.new)) }
        ensures only { OnlyWrites name.now (view self.old) (view self.new) };

    /// Standard output is always there.
    ghost output_is_there: { (files : Self) → (view files).told output_name ≢ Missing };
}

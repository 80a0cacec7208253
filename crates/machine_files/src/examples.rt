//! What is seen of files through a machine: a law, and worked examples that the checker computes from the definitions alone.

ghost use Rattle.std.specs.Prelude.{ℕ, ◌≡◌, ◌≢◌, [], List, codes, false, true};
ghost use Rattle.bank_files.specs.Seen.{Seen};
ghost use Rattle.bank_files.specs.Told.{output_name};
ghost use Rattle.machine_files.specs.Disk.{Disk, told_at};
ghost use Rattle.machine_files.specs.Examples.{disk_with};
ghost use Rattle.machine_files.specs.Seeing.{IsSeenThrough, seen_of};

/// Where no fault was counted, each file is seen as the disk tells it. So files come into doubt by a fault alone.
pub fn without_a_fault_files_are_as_the_disk_tells()
    ensures { (disk : Disk) (failures : ℕ) (seen : Seen) (name : List ℕ) → IsSeenThrough disk failures seen
        → seen.write_faults name ≡ 0 → name ≢ output_name → seen.told name ≡ told_at disk (disk.entry name) }
{}

/// What is seen of a disk with one file, and what isn't.
pub fn what_is_seen_of_one_file()
    ensures told { IsSeenThrough (disk_with (codes "ab") []) 0 (seen_of (disk_with (codes "ab") []) false 0) }
    ensures in_doubt { IsSeenThrough (disk_with (codes "ab") []) 1 (seen_of (disk_with (codes "ab") []) true 1) }
    ensures doubt_without_a_fault { (failures : ℕ)
        → ¬ (IsSeenThrough (disk_with (codes "ab") []) failures (seen_of (disk_with (codes "ab") []) true 0)) }
    ensures a_fault_without_a_failure { ¬ (IsSeenThrough (disk_with (codes "ab") []) 0 (seen_of (disk_with (codes "ab") []) false 1)) }
    ensures emptied { (failures : ℕ)
        → ¬ (IsSeenThrough (disk_with [] []) failures (seen_of (disk_with (codes "ab") []) false 0)) }
{}

//! What a run does to a machine that tells its files, and what no run does: laws, and worked examples that the checker computes from the
//! definitions alone.

ghost use Rattle.std.specs.Prelude.{ℕ, ◌≡◌, ◌≢◌, ◌∷◌, [], List, Some, codes};
ghost use Rattle.bank_files.specs.Told.{Tells, output_name};
ghost use Rattle.due.specs.HeardRuns.{heard_plan};
ghost use Rattle.due.specs.Outputs.{EachOf};
ghost use Rattle.formats.specs.Bytes.{line};
ghost use Rattle.formats.specs.WordExamples.{words_in};
ghost use Rattle.machine_files.specs.Disk.{Disk, told_at};
ghost use Rattle.machine_files.specs.Examples.{disk_with};
ghost use Rattle.program.specs.Endings.{Ends};
ghost use Rattle.program.specs.Families.{plan_for};
ghost use Rattle.program.specs.HeardRuns.{EndsHeard};
ghost use Rattle.program.specs.Runs.{HasRunOn};

use due::{one_thing_is_owed, words_that_are_refused};

/// A run that ends otherwise than with 6 changes no file but standard output and those that its plan names. `tsheard` names none.
pub fn runs_leave_other_files()
    ensures tsbank { (live : List ℕ) (words : List (List ℕ)) (old new : Disk) (failures status : ℕ)
        → HasRunOn (plan_for live words) old new failures status → status ≢ 6
        → (file : List ℕ) → file ≢ output_name → EachOf (λ name. file ≢ name) (plan_for live words).files
        → Tells (told_at old (old.entry file)) (told_at new (new.entry file)) }
    ensures tsheard { (words : List (List ℕ)) (old new : Disk) (failures status : ℕ)
        → HasRunOn (heard_plan words) old new failures status → status ≢ 6
        → (file : List ℕ) → file ≢ output_name → Tells (told_at old (old.entry file)) (told_at new (new.entry file)) }
{}

/// No run ends with 6 over a machine of which no call failed.
pub fn no_run_fails_without_a_failure()
    ensures tsbank { (live : List ℕ) (words : List (List ℕ)) (old new : Disk) → ¬ (HasRunOn (plan_for live words) old new 0 6) }
    ensures tsheard { (words : List (List ℕ)) (old new : Disk) → ¬ (HasRunOn (heard_plan words) old new 0 6) }
{}

/// A machine that told what its configuration holds, and then tells that it is empty, hasn't run so, nor has the program ended so.
pub fn no_run_empties_its_configuration()
    ensures run { (live : List ℕ) (failures status : ℕ) → status ≢ 6
        → ¬ (HasRunOn (plan_for live (words_in (codes "decode k.toml"))) (disk_with (codes "x") []) (disk_with [] []) failures status) }
    ensures ended { (failures status : ℕ) → status ≢ 6
        → ¬ (Ends (Some (codes "tsbank" ∷ words_in (codes "decode k.toml"))) (disk_with (codes "x") []) (disk_with [] []) failures status) }
    ensures heard { (failures status : ℕ) → status ≢ 6
        → ¬ (HasRunOn (heard_plan (words_in (codes "k.toml"))) (disk_with (codes "x") []) (disk_with [] []) failures status) }
    ensures heard_ended { (failures status : ℕ) → status ≢ 6
        → ¬ (EndsHeard (Some (codes "tsheard" ∷ words_in (codes "k.toml"))) (disk_with (codes "x") []) (disk_with [] []) failures status) }
{}

/// A run without words prints that they are refused, ends with 3, and leaves the file that is there. Not so has it run where that file
/// is empty afterwards. So what a run has done isn't told by what it printed alone.
pub fn what_a_run_without_words_does()
    ensures refused { HasRunOn (plan_for [] []) (disk_with (codes "x") []) (disk_with (codes "x") (line (codes "words: usage"))) 0 3 }
    ensures emptied { ¬ (HasRunOn (plan_for [] []) (disk_with (codes "x") []) (disk_with [] (line (codes "words: usage"))) 0 3) }
    ensures not_by_its_output { ¬ ((words : List (List ℕ)) (old some other : Disk) (failures status : ℕ) → other.output ≡ some.output
        → HasRunOn (plan_for [] words) old some failures status → HasRunOn (plan_for [] words) old other failures status) }
{
    one_thing_is_owed();
    words_that_are_refused();
}

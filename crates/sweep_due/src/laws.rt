//! What follows from the rules of what `sweep` owes.

ghost use Rattle.std.specs.Prelude.{ℕ, ◌≡◌, ◌≢◌, ◌↔◌, List};
ghost use Rattle.due.specs.declared.due.Due.{Due};
ghost use Rattle.due.specs.declared.status.Status.TheVariants.{Failed, NoMemory};
ghost use Rattle.due.specs.Inputs.{Contents, Input};
ghost use Rattle.sweep_due.specs.SweepOwed.{IsSweepOwed, SweepOwed};
ghost use Rattle.sweep_due.specs.SweepPlans.{sweep_plan};
ghost use Rattle.sweep_due.specs.SweepRules.{IsSweepDue, IsSweepRead};

use block_visits::blocks_share_the_sequences;

/// For all words and contents one thing is due of `sweep`, so one text and one status: its refusals exclude one another and every
/// report.
pub fn one_thing_is_due_of_a_sweep()
    ensures some { (words : List (List ℕ)) (contents : Contents) → (due : Due) × IsSweepDue words contents due }
    ensures one { (words : List (List ℕ)) (contents : Contents) (a b : Due) → IsSweepDue words contents a → IsSweepDue words contents b → a ≡ b }
{}

/// All that it owes is one thing too: what is told, and the certificates where words ask for them.
pub fn one_thing_is_owed_of_a_sweep()
    ensures some { (words : List (List ℕ)) (contents : Contents) → (owed : SweepOwed) × IsSweepOwed words contents owed }
    ensures one { (words : List (List ℕ)) (contents : Contents) (a b : SweepOwed) → IsSweepOwed words contents a → IsSweepOwed words contents b → a ≡ b }
{
    blocks_share_the_sequences();
}

/// Where two contents agree on all that is read for the one, the same is due and owed for both, and the same files are read.
pub fn reads_decide_a_sweep()
    ensures due { (words : List (List ℕ)) (some other : Contents)
        → ((input : Input) (file : List ℕ) → IsSweepRead words some input file → some input ≡ other input)
        → (due : Due) → IsSweepDue words some due ↔ IsSweepDue words other due }
    ensures owed { (words : List (List ℕ)) (some other : Contents)
        → ((input : Input) (file : List ℕ) → IsSweepRead words some input file → some input ≡ other input)
        → (owed : SweepOwed) → IsSweepOwed words some owed ↔ IsSweepOwed words other owed }
    ensures reads { (words : List (List ℕ)) (some other : Contents)
        → ((input : Input) (file : List ℕ) → IsSweepRead words some input file → some input ≡ other input)
        → (input : Input) (file : List ℕ) → IsSweepRead words some input file ↔ IsSweepRead words other input file }
{}

/// That a file fails or memory runs out is never due.
pub fn no_failure_is_due_of_a_sweep()
    ensures failed { (words : List (List ℕ)) (owed : SweepOwed) → (sweep_plan words).status owed ≢ Failed }
    ensures memory { (words : List (List ℕ)) (owed : SweepOwed) → (sweep_plan words).status owed ≢ NoMemory }
{}

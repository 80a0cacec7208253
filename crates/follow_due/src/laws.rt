//! What follows from the rules of what `follow` owes.

ghost use Rattle.std.specs.Prelude.{ℕ, ◌≡◌, ◌≢◌, ◌↔◌, List};
ghost use Rattle.due.specs.declared.status.Status.TheVariants.{Failed, NoMemory};
ghost use Rattle.due.specs.Inputs.{Contents, Input};
ghost use Rattle.follow_due.specs.declared.follow_due.FollowDue.{FollowDue};
ghost use Rattle.follow_due.specs.FollowDues.{follow_status};
ghost use Rattle.follow_due.specs.FollowRules.{IsFollowDue, IsFollowRead};

/// For all words and contents one thing is due of `follow`, so one text and one status.
pub fn one_thing_is_due_of_follow()
    ensures some { (words : List (List ℕ)) (contents : Contents) → (due : FollowDue) × IsFollowDue words contents due }
    ensures one { (words : List (List ℕ)) (contents : Contents) (a b : FollowDue)
        → IsFollowDue words contents a → IsFollowDue words contents b → a ≡ b }
{}

/// Where two contents agree on all that is read for the one, the same is due for both, and the same files are read.
pub fn reads_decide_follow()
    ensures due { (words : List (List ℕ)) (some other : Contents)
        → ((input : Input) (file : List ℕ) → IsFollowRead words some input file → some input ≡ other input)
        → (due : FollowDue) → IsFollowDue words some due ↔ IsFollowDue words other due }
    ensures reads { (words : List (List ℕ)) (some other : Contents)
        → ((input : Input) (file : List ℕ) → IsFollowRead words some input file → some input ≡ other input)
        → (input : Input) (file : List ℕ) → IsFollowRead words some input file ↔ IsFollowRead words other input file }
{}

/// That a file fails or memory runs out is never due.
pub fn no_failure_is_due_of_follow()
    ensures failed { (due : FollowDue) → follow_status due ≢ Failed }
    ensures memory { (due : FollowDue) → follow_status due ≢ NoMemory }
{}

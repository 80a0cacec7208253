//! What follows from the rules of a run that shows what was heard: for all words and contents one thing is due, it rests on what is
//! read, and it is what a decode of the same words would tell, whose cost the receivers share.

ghost use Rattle.std.specs.Prelude.{ℕ, ◌≡◌, ◌≢◌, ◌↔◌, List, Option, false, sum_by};
ghost use Rattle.signal_base.specs.declared.dut.StationDut.{StationDut};
ghost use Rattle.definitions.specs.declared.answer.Answer.TheVariants.{Decided};
ghost use Rattle.formats.specs.Heard.{Hearing, receiver_sums};
ghost use Rattle.due.specs.declared.due.Due.{Due};
ghost use Rattle.due.specs.declared.due.Due.TheVariants.{Report};
ghost use Rattle.due.specs.declared.heard_due.HeardDue.{HeardDue};
ghost use Rattle.due.specs.declared.heard_due.HeardDue.TheVariants.{Heard, Told};
ghost use Rattle.due.specs.declared.status.Status.TheVariants.{Failed, NoMemory};
ghost use Rattle.due.specs.HeardRuns.{IsHeardDue, IsHeardRead, decode_words, heard_status, names_left_out};
ghost use Rattle.due.specs.Inputs.{Contents, Input};
ghost use Rattle.due.specs.Rules.{IsDue};

/// For all words and contents of files there is something due, and only one thing. That a file fails or memory runs out is
/// never due.
pub fn one_hearing_is_due()
    ensures some { (words : List (List ℕ)) (contents : Contents) → (due : HeardDue Hearing) × IsHeardDue words contents due }
    ensures one { (words : List (List ℕ)) (contents : Contents) (a b : HeardDue Hearing)
        → IsHeardDue words contents a → IsHeardDue words contents b → a ≡ b }
    ensures failed { (due : HeardDue Hearing) → heard_status due ≢ Failed }
    ensures memory { (due : HeardDue Hearing) → heard_status due ≢ NoMemory }
{}

/// Where two contents agree on all that is read for the one, the same is due for both, and the same files are read.
pub fn reads_decide_what_is_shown()
    ensures due { (words : List (List ℕ)) (some other : Contents)
        → ((input : Input) (file : List ℕ) → IsHeardRead words some input file → some input ≡ other input)
        → (due : HeardDue Hearing) → IsHeardDue words some due ↔ IsHeardDue words other due }
    ensures reads { (words : List (List ℕ)) (some other : Contents)
        → ((input : Input) (file : List ℕ) → IsHeardRead words some input file → some input ≡ other input)
        → (input : Input) (file : List ℕ) → IsHeardRead words some input file ↔ IsHeardRead words other input file }
{}

/// Where the words name no option that is left out, what is told is what a decode of them tells; and where something was
/// heard, the decode decides on its sequence, and the costs of its receivers add up to the cost that the decode tells.
pub fn what_a_decode_would_tell()
    ensures told { (words : List (List ℕ)) (contents : Contents) (due : Due) → names_left_out words ≡ false
        → IsHeardDue words contents (Told due) → IsDue (decode_words words) contents due }
    ensures heard { (words : List (List ℕ)) (contents : Contents) (h : Hearing) → IsHeardDue words contents (Heard h)
        → (cost : ℕ) × (next : Option ℕ) × (duts : List StationDut)
        × IsDue (decode_words words) contents (Report h.window (Decided cost h.sequence next) duts)
        × (sum_by (λ r. r.cost) (receiver_sums h) ≡ cost) }
{}

//! What follows from the rules of what is due: for all words and contents there is one text and one status.

ghost use Rattle.std.specs.Prelude.{ℕ, ◌≡◌, ◌≢◌, ◌⊎◌, ◌↔◌, Bool, List, Ok, Err};
ghost use Rattle.signal_base.specs.declared.station.Station.{Station};
ghost use Rattle.definitions.specs.heard.Logs.{Records};
ghost use Rattle.formats.specs.OrderRanges.{IsAsked};
ghost use Rattle.formats.specs.Orders.{order_of};
ghost use Rattle.formats.specs.Orders.Order.{Check, Encode, Trial};
ghost use Rattle.formats.specs.Words.{run_commands};
ghost use Rattle.formats.specs.declared.refusal.Refusal.{Refusal};
ghost use Rattle.formats.specs.declared.refusal.Refusal.TheVariants.{WordsUsage};
ghost use Rattle.formats.specs.declared.words.Asked.{Asked};
ghost use Rattle.formats.specs.declared.words.WordFault.{WordFault};
ghost use Rattle.bank_config.specs.Configuration.{PlainConfig};
ghost use Rattle.due.specs.declared.due.Due.{Due};
ghost use Rattle.due.specs.declared.due.Due.TheVariants.{Refused};
ghost use Rattle.due.specs.declared.status.Status.TheVariants.{Failed, NoMemory};
ghost use Rattle.due.specs.Configurations.{IsBadConfiguration, IsConfiguration};
ghost use Rattle.due.specs.Dues.{status_of};
ghost use Rattle.due.specs.LogFiles.{AreGood, IsFirstBad, LogFile};
ghost use Rattle.due.specs.Orders.{BankOrder, order_in};
ghost use Rattle.due.specs.Owed.{IsOwed, Owed};
ghost use Rattle.due.specs.Inputs.{Configuration, Contents, Input};
ghost use Rattle.due.specs.Rules.{AsksBank, IsDue, IsRead};

use block_visits::blocks_share_the_sequences;

/// For all words and contents of files there is something due.
pub fn something_is_due()
    ensures { (words : List (List ℕ)) (contents : Contents) → (due : Due) × IsDue words contents due }
{}

/// And there is only one thing due, so one text and one status.
pub fn due_is_one()
    ensures { (words : List (List ℕ)) (contents : Contents) (a b : Due)
        → IsDue words contents a → IsDue words contents b → a ≡ b }
{}

/// All that a run owes is one thing too: what is told, and the certificate where words ask for one.
pub fn one_thing_is_owed()
    ensures some { (words : List (List ℕ)) (contents : Contents) → (owed : Owed) × IsOwed words contents owed }
    ensures one { (words : List (List ℕ)) (contents : Contents) (a b : Owed)
        → IsOwed words contents a → IsOwed words contents b → a ≡ b }
{
    blocks_share_the_sequences();
}

/// Where two contents agree on all that is read for the one, the same is due for both, and the same files are read.
pub fn reads_decide()
    ensures due { (words : List (List ℕ)) (some other : Contents)
        → ((input : Input) (file : List ℕ) → IsRead words some input file → some input ≡ other input)
        → (due : Due) → IsDue words some due ↔ IsDue words other due }
    ensures owed { (words : List (List ℕ)) (some other : Contents)
        → ((input : Input) (file : List ℕ) → IsRead words some input file → some input ≡ other input)
        → (owed : Owed) → IsOwed words some owed ↔ IsOwed words other owed }
    ensures reads { (words : List (List ℕ)) (some other : Contents)
        → ((input : Input) (file : List ℕ) → IsRead words some input file → some input ≡ other input)
        → (input : Input) (file : List ℕ) → IsRead words some input file ↔ IsRead words other input file }
{}

/// Words that ask something of a bank read its configuration first, and as that nothing else; where it is bad, they read no
/// log. Words that are refused, ask for a listing or ask for a trial read no file.
pub fn configuration_is_read_first()
    ensures read { (words : List (List ℕ)) (contents : Contents) (o : BankOrder) → AsksBank words o → IsRead words contents Configuration o.config }
    ensures only { (words : List (List ℕ)) (contents : Contents) (o : BankOrder) (file : List ℕ) → AsksBank words o
        → IsRead words contents Configuration file → file ≡ o.config }
    ensures bad { (words : List (List ℕ)) (contents : Contents) (o : BankOrder) (refusal : Refusal) (input : Input) (file : List ℕ) → AsksBank words o
        → IsBadConfiguration (contents Configuration) refusal → IsRead words contents input file → (input ≡ Configuration) × (file ≡ o.config) }
    ensures refused { (words : List (List ℕ)) (contents : Contents) (fault : WordFault) (input : Input) (file : List ℕ)
        → order_in words ≡ Err fault → ¬ (IsRead words contents input file) }
    ensures listing { (words : List (List ℕ)) (contents : Contents) (station : Station) (minute : ℕ) (announced : Bool) (input : Input) (file : List ℕ)
        → order_in words ≡ Ok (Encode station minute announced) → ¬ (IsRead words contents input file) }
    ensures trial { (words : List (List ℕ)) (contents : Contents) (trial workers : ℕ) (input : Input) (file : List ℕ)
        → order_in words ≡ Ok (Trial trial workers) → ¬ (IsRead words contents input file) }
{}

/// Accepted words that ask something of a bank ask one thing, in its ranges.
pub fn words_ask_one_thing()
    ensures one { (words : List (List ℕ)) (a b : BankOrder) → AsksBank words a → AsksBank words b → a ≡ b }
    ensures in_range { (words : List (List ℕ)) (o : BankOrder) → AsksBank words o → IsAsked o.asked }
{}

/// That a file fails or memory runs out is never due.
pub fn no_failure_is_due()
    ensures failed { (due : Due) → status_of due ≢ Failed }
    ensures memory { (due : Due) → status_of due ≢ NoMemory }
{}

/// Words that ask for the check of a certificate are refused.
pub fn checks_are_refused()
    ensures { (words : List (List ℕ)) (contents : Contents) (config certificate : List ℕ) (asked : Asked)
        → order_of run_commands words ≡ Ok (Check config certificate asked) → IsDue words contents (Refused WordsUsage) }
{}

/// Each text is a configuration, and one only, or it is refused in one way.
pub fn configuration_has_one_outcome()
    ensures some { (bytes : List ℕ)
        → ((config : PlainConfig) × IsConfiguration bytes config) ⊎ ((refusal : Refusal) × IsBadConfiguration bytes refusal) }
    ensures one_configuration { (bytes : List ℕ) (a b : PlainConfig) → IsConfiguration bytes a → IsConfiguration bytes b → a ≡ b }
    ensures one_refusal { (bytes : List ℕ) (a b : Refusal) → IsBadConfiguration bytes a → IsBadConfiguration bytes b → a ≡ b }
    ensures not_both { (bytes : List ℕ) (config : PlainConfig) (refusal : Refusal) → IsConfiguration bytes config → ¬ (IsBadConfiguration bytes refusal) }
{}

/// Logs that are read in their order are all good, of one list of records each, or there is a first bad one, which is
/// refused in one way.
pub fn logs_have_one_outcome()
    ensures some { (contents : Contents) (logs : List LogFile)
        → ((all : List Records) × AreGood contents logs all) ⊎ ((refusal : Refusal) × IsFirstBad contents logs refusal) }
    ensures one_list { (contents : Contents) (logs : List LogFile) (a b : List Records)
        → AreGood contents logs a → AreGood contents logs b → a ≡ b }
    ensures one_refusal { (contents : Contents) (logs : List LogFile) (a b : Refusal)
        → IsFirstBad contents logs a → IsFirstBad contents logs b → a ≡ b }
    ensures not_both { (contents : Contents) (logs : List LogFile) (all : List Records) (refusal : Refusal)
        → AreGood contents logs all → ¬ (IsFirstBad contents logs refusal) }
{}

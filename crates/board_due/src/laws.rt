//! What follows from the rules of what `board` owes.

ghost use Rattle.std.specs.Prelude.{ℕ, ◌≡◌, ◌≢◌, ◌↔◌, ◌⊎◌, List};
ghost use Rattle.due.specs.declared.status.Status.TheVariants.{Failed, NoMemory};
ghost use Rattle.definitions.specs.heard.Logs.{Records};
ghost use Rattle.formats.specs.declared.refusal.Refusal.{Refusal};
ghost use Rattle.bank_config.specs.Configuration.{PlainConfig};
ghost use Rattle.due.specs.Banks.{bank_of};
ghost use Rattle.due.specs.Inputs.{Contents, Input, QueriesText};
ghost use Rattle.due.specs.Loads.{IsBankLoaded, IsBankRead, IsBankRefused};
ghost use Rattle.follow_due.specs.FollowOrders.{first_window};
ghost use Rattle.follow_due.specs.Windows.{StartInTime, StartTooLate};
ghost use Rattle.board_entries.specs.Board.{PlainEntry};
ghost use Rattle.board_due.specs.declared.board_due.BoardDue.{BoardDue};
ghost use Rattle.board_due.specs.declared.board_due.BoardDue.TheVariants.{Answers};
ghost use Rattle.board_due.specs.BoardAnswers.{AreCounts};
ghost use Rattle.board_due.specs.BoardDues.{IsBy, board_status, but_for_counts};
ghost use Rattle.board_due.specs.BoardOrders.{AsksBoard, BoardOrder};
ghost use Rattle.board_due.specs.BoardRules.{IsBoardDue, IsBoardRead};
ghost use Rattle.board_due.specs.Queries.{IsRefused, IsTextOf, IsToldOf, QueriesTold};

/// A text is that of one list of queries, or it is refused for its first bad line, which is one: never both, and always one of them.
/// So one thing is told of each text, the size included.
pub fn queries_have_one_outcome()
    ensures some { (text : List ℕ) → ((queries : List ℕ) × IsTextOf queries text) ⊎ ((number : ℕ) × IsRefused text number) }
    ensures one_list { (text queries others : List ℕ) → IsTextOf queries text → IsTextOf others text → queries ≡ others }
    ensures one_line { (text : List ℕ) (m n : ℕ) → IsRefused text m → IsRefused text n → m ≡ n }
    ensures not_both { (text queries : List ℕ) (number : ℕ) → IsTextOf queries text → ¬ (IsRefused text number) }
    ensures told { (text : List ℕ) → (told : QueriesTold) × IsToldOf text told }
    ensures told_once { (text : List ℕ) (a b : QueriesTold) → IsToldOf text a → IsToldOf text b → a ≡ b }
{}

/// For all words and contents something is due of `board`, and it is one thing but for the numbers of entries by which queries were
/// answered while entries were published. These may be any that may be, and by some such numbers one thing is due.
pub fn one_thing_is_due_of_board()
    ensures some { (words : List (List ℕ)) (contents : Contents) → (due : BoardDue) × IsBoardDue words contents due }
    ensures one { (words : List (List ℕ)) (contents : Contents) (a b : BoardDue)
        → IsBoardDue words contents a → IsBoardDue words contents b → but_for_counts a ≡ but_for_counts b }
    ensures one_by { (words : List (List ℕ)) (contents : Contents) (live : List ℕ) (a b : BoardDue)
        → IsBoardDue words contents a → IsBoardDue words contents b → IsBy live a → IsBy live b → a ≡ b }
    ensures any { (words : List (List ℕ)) (contents : Contents) (o : BoardOrder) (entries : List PlainEntry) (queries counts others : List ℕ)
        → AsksBoard words o → IsBoardDue words contents (Answers entries queries counts)
        → AreCounts o.readers entries queries others → IsBoardDue words contents (Answers entries queries others) }
    ensures counted { (words : List (List ℕ)) (contents : Contents) (o : BoardOrder) (entries : List PlainEntry) (queries counts : List ℕ)
        → AsksBoard words o → IsBoardDue words contents (Answers entries queries counts) → AreCounts o.readers entries queries counts }
{}

/// Where two contents agree on all that is read for the one, the same is due for both, and the same files are read.
pub fn reads_decide_board()
    ensures due { (words : List (List ℕ)) (some other : Contents)
        → ((input : Input) (file : List ℕ) → IsBoardRead words some input file → some input ≡ other input)
        → (due : BoardDue) → IsBoardDue words some due ↔ IsBoardDue words other due }
    ensures reads { (words : List (List ℕ)) (some other : Contents)
        → ((input : Input) (file : List ℕ) → IsBoardRead words some input file → some input ≡ other input)
        → (input : Input) (file : List ℕ) → IsBoardRead words some input file ↔ IsBoardRead words other input file }
{}

/// The queries are read last, from the file that is named for them: where the bank is refused or the last window starts too late, they
/// aren't read. All else is read of the bank, as for a decode of it.
pub fn the_queries_are_read_last()
    ensures refused { (words : List (List ℕ)) (contents : Contents) (refusal : Refusal) (file : List ℕ)
        → IsBankRefused contents refusal → ¬ (IsBoardRead words contents QueriesText file) }
    ensures late { (words : List (List ℕ)) (contents : Contents) (o : BoardOrder) (config : PlainConfig) (records : List Records) (file : List ℕ)
        → AsksBoard words o → IsBankLoaded contents config records → StartTooLate (first_window o.follow (bank_of config records)) o.follow.step o.follow.count
        → ¬ (IsBoardRead words contents QueriesText file) }
    ensures read { (words : List (List ℕ)) (contents : Contents) (o : BoardOrder) (config : PlainConfig) (records : List Records)
        → AsksBoard words o → IsBankLoaded contents config records → StartInTime (first_window o.follow (bank_of config records)) o.follow.step o.follow.count
        → IsBoardRead words contents QueriesText o.queries }
    ensures only { (words : List (List ℕ)) (contents : Contents) (o : BoardOrder) (file : List ℕ)
        → AsksBoard words o → IsBoardRead words contents QueriesText file → file ≡ o.queries }
    ensures bank { (words : List (List ℕ)) (contents : Contents) (o : BoardOrder) (input : Input) (file : List ℕ)
        → AsksBoard words o → input ≢ QueriesText → IsBoardRead words contents input file ↔ IsBankRead o.follow.config contents input file }
{}

/// That a file fails or memory runs out is never due.
pub fn no_failure_is_due_of_board()
    ensures failed { (due : BoardDue) → board_status due ≢ Failed }
    ensures memory { (due : BoardDue) → board_status due ≢ NoMemory }
{}

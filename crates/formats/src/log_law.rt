//! A law of the grammar of logs: what a text is is settled by the text.

ghost use Rattle.std.specs.Prelude.{◌≡◌, ℕ, List};
ghost use Rattle.definitions.specs.heard.Logs.{Records};
ghost use Rattle.formats.specs.declared.fault.LineFault.{LineFault};
ghost use Rattle.formats.specs.LogLines.{HasOutcome, IsLog, IsRefused};
ghost use Rattle.formats.specs.LogOrder.{IsOrderly};

/// Each text has exactly one outcome: it is a log, of one list of records, or it is refused, for one line and in one
/// way. A log's times rise and are small, and its records aren't too many. The call does nothing: its clauses are
/// the law.
pub fn log_has_one_outcome()
    ensures some { (text : List ℕ) → HasOutcome text }
    ensures one_log { (text : List ℕ) (a b : Records) → IsLog text a → IsLog text b → a ≡ b }
    ensures one_fault { (text : List ℕ) (m n : ℕ) (a b : LineFault) →
        IsRefused text m a → IsRefused text n b → (m ≡ n) × (a ≡ b) }
    ensures not_both { (text : List ℕ) (log : Records) (line : ℕ) (fault : LineFault) →
        IsLog text log → ¬ (IsRefused text line fault) }
    ensures orderly { (text : List ℕ) (log : Records) → IsLog text log → IsOrderly log }
{}

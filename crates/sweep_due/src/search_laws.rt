//! What follows from the definition of the swept answer: eleven searches decide it, each of two keys, and most under a low ceiling.

ghost use Rattle.std.specs.Prelude.{ℕ, ◌≡◌, ◌≢◌, ◌⊎◌, ◌<◌, ◌≤◌, ◌%◌, ◌^◌, List, Option, Some};
ghost use Rattle.std.specs.Option.{ForSome};
ghost use Rattle.signal_base.specs.declared.window.Window.{Window};
ghost use Rattle.definitions.specs.declared.answer.Answer.{Answer};
ghost use Rattle.definitions.specs.declared.sequence.Sequence.{Sequence};
ghost use Rattle.definitions.specs.answers.FirstTwo.{AreLeastTwo};
ghost use Rattle.definitions.specs.sequences.Keys.{cost_of, index_end, sequence_of};
ghost use Rattle.definitions.specs.time.Calendar.{century_minutes};
ghost use Rattle.due.specs.Banks.{Bank};
ghost use Rattle.sweep_due.specs.declared.offsets.TheConstants.{PHASE_LIMIT};
ghost use Rattle.sweep_due.specs.declared.standing.Standing.{Standing};
ghost use Rattle.sweep_due.specs.Phases.{IsSwept};
ghost use Rattle.sweep_due.specs.Searches.{AreAllSwept, IsKeyAt, IsSearched};
ghost use Rattle.sweep_due.specs.Standings.{answer_told, first_key, window_told};
ghost use Rattle.sweep_due.specs.Swept.{IsSweptAnswer, IsToldWindow, cost_at, swept_cost};

/// A sequence costs no more in a sweep than at any offset that is swept, and at one of them it costs that.
pub fn a_sweep_costs_the_least()
    ensures below { (window : Window) (bank : Bank) (q : Sequence) (i : ℕ) → IsSwept window.phase i → swept_cost window bank q ≤ cost_at window bank q i }
    ensures reached { (window : Window) (bank : Bank) (q : Sequence) → window.phase < PHASE_LIMIT
        → (i : ℕ) × IsSwept window.phase i × (cost_at window bank q i ≡ swept_cost window bank q) }
{}

/// At each offset, of all keys of sequences other than a given one, the least is among the first two keys.
pub fn another_is_among_the_first_two()
    ensures { (window : Window) (bank : Bank) (ceiling i a b n : ℕ) (q : Sequence) → window.to ≤ century_minutes
        → AreLeastTwo (IsKeyAt window bank ceiling i) (Some a) (Some b) → IsKeyAt window bank ceiling i n → sequence_of n ≢ q
        → ((sequence_of a ≢ q) × (a ≤ n)) ⊎ ((sequence_of b ≢ q) × (b ≤ n)) }
{}

/// Searches at all swept offsets, in whatever order, lead to the swept answer and its window, though each finds two keys alone, and
/// each after the first may have the cost of the second so far as its ceiling: no key above it changes anything.
pub fn searches_decide_a_sweep()
    ensures answer { (window : Window) (bank : Bank) (offsets : List ℕ) (s : Standing) → window.to ≤ century_minutes → window.phase < PHASE_LIMIT
        → AreAllSwept window.phase offsets → IsSearched window bank offsets s → IsSweptAnswer window bank (answer_told s) }
    ensures told { (window : Window) (bank : Bank) (offsets : List ℕ) (s : Standing) → window.to ≤ century_minutes → window.phase < PHASE_LIMIT
        → AreAllSwept window.phase offsets → IsSearched window bank offsets s → IsToldWindow window bank (answer_told s) (window_told window s) }
    ensures keys { (window : Window) (bank : Bank) (offsets : List ℕ) (s : Standing) → window.to ≤ century_minutes → window.phase < PHASE_LIMIT
        → AreAllSwept window.phase offsets → IsSearched window bank offsets s
        → ForSome (first_key s) (λ key. key % 2 ^ 33 < index_end) × ForSome s.second (λ key. key % 2 ^ 33 < index_end) }
    ensures offset { (window : Window) (bank : Bank) (offsets : List ℕ) (s : Standing) → window.to ≤ century_minutes → window.phase < PHASE_LIMIT
        → AreAllSwept window.phase offsets → IsSearched window bank offsets s → ForSome s.first (λ p. IsSwept window.phase p.offset) }
{}

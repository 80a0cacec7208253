//! What follows from the definitions of blocks and bounds.

ghost use Rattle.std.specs.Prelude.{ℕ, ◌≡◌, ◌≢◌, ◌<◌, ◌≤◌, if◌then◌else◌, [], map, Option, Some, None};
ghost use Rattle.std.specs.List.{AllByRecursion};
ghost use Rattle.std.specs.List.Sorted.{IsStrictlyIncreasing};
ghost use Rattle.signal_base.specs.declared.station.Station.{Station};
ghost use Rattle.signal_base.specs.declared.window.Window.{Window};
ghost use Rattle.definitions.specs.declared.block.Block.{Block};
ghost use Rattle.definitions.specs.declared.block.Span.TheVariants.{Year, Minute};
ghost use Rattle.definitions.specs.declared.sequence.Sequence.{Sequence};
ghost use Rattle.definitions.specs.time.Calendar.{century_minutes, utc_fields};
ghost use Rattle.definitions.specs.sequences.Walks.{IsLegal};
ghost use Rattle.definitions.specs.sequences.Keys.{index_of, key_of};
ghost use Rattle.definitions.specs.heard.Costs.{Costs, sequence_cost};
ghost use Rattle.definitions.specs.answers.Blocks.{CoverInOrder, IsBlock, IsBound, IsIn, IsInOne, IsUnion, block_key, children, first_of, items, shorter, span_end};

/// A year's span lasts as long as the calendar's year.
pub fn year_ends_with_its_calendar_year()
    ensures lasts { (t u : ℕ) → t ≤ u → u < span_end Year t → u < century_minutes → (utc_fields u).year ≡ (utc_fields t).year }
    ensures ends { (t u : ℕ) → span_end Year t ≤ u → u < century_minutes → (utc_fields t).year < (utc_fields u).year }
{}

/// Each block has a union of its sets, and a bound or, by the definition, none.
pub fn bound_exists()
    ensures union { (window : Window) (b : Block) (station : Station) (k : ℕ) → (set : ℕ) × IsUnion window b station k set }
    ensures bound { (costs : Costs) (window : Window) (b : Block) → (bound : Option ℕ) × IsBound costs window b bound }
{}

/// There is at most one union of a block's sets, and at most one bound.
pub fn bound_is_one()
    ensures union { (window : Window) (b : Block) (station : Station) (k m n : ℕ) → IsUnion window b station k m → IsUnion window b station k n → m ≡ n }
    ensures bound { (costs : Costs) (window : Window) (b : Block) (m n : Option ℕ) → IsBound costs window b m → IsBound costs window b n → m ≡ n }
{}

/// No legal sequence of a block has a key below the block's, and a block without a bound has no legal sequence.
pub fn bound_is_not_above()
    ensures key { (costs : Costs) (window : Window) (b : Block) (n : ℕ) (q : Sequence) → IsBlock window b → IsBound costs window b (Some n)
        → IsIn b q → IsLegal window q → block_key n b ≤ key_of (sequence_cost costs window q) q }
    ensures none { (costs : Costs) (window : Window) (b : Block) (q : Sequence) → IsBlock window b → IsBound costs window b None
        → IsIn b q → ¬ (IsLegal window q) }
{}

/// The items of a window are blocks of it, each of a year, in the order of their first sequences, and each sequence that can
/// begin in the window is in exactly one of them.
pub fn items_share_the_sequences()
    ensures blocks { (window : Window) → window.to ≤ century_minutes → AllByRecursion (IsBlock window) (items window) }
    ensures years { (window : Window) → window.to ≤ century_minutes → AllByRecursion (λ b. b.span ≡ Year) (items window) }
    ensures in_order { (window : Window) → window.to ≤ century_minutes → IsStrictlyIncreasing (map (λ b. index_of (first_of b)) (items window)) }
    ensures one { (window : Window) (q : Sequence) → window.to ≤ century_minutes → window.from ≤ q.first → q.first < window.to
        → q.second < (if q.announced then 61 else 60) → IsInOne (items window) q }
{}

/// The children of a block are blocks of its window, each of the next shorter span. They have no other sequences than the
/// block, share its minutes in order, and each sequence of it is in exactly one of them. A minute has no children.
pub fn children_share_the_sequences()
    ensures blocks { (window : Window) (b : Block) → window.to ≤ century_minutes → IsBlock window b → AllByRecursion (IsBlock window) (children b) }
    ensures spans { (window : Window) (b : Block) → window.to ≤ century_minutes → IsBlock window b → AllByRecursion (λ c. c.span ≡ shorter b.span) (children b) }
    ensures within { (window : Window) (b : Block) → window.to ≤ century_minutes → IsBlock window b
        → AllByRecursion (λ c. (q : Sequence) → IsIn c q → IsIn b q) (children b) }
    ensures in_order { (window : Window) (b : Block) → window.to ≤ century_minutes → IsBlock window b → b.span ≢ Minute
        → CoverInOrder b.lo b.hi (children b) }
    ensures one { (window : Window) (b : Block) (q : Sequence) → window.to ≤ century_minutes → IsBlock window b → b.span ≢ Minute
        → IsIn b q → IsInOne (children b) q }
    ensures minute { (b : Block) → b.span ≡ Minute → children b ≡ [] }
{}

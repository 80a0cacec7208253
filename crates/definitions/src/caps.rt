//! What a bound on the cost of a second does.

ghost use Rattle.std.specs.Prelude.{ℕ, ◌≡◌, ◌≤◌, ◌+◌, ◌*◌, List, Option, Some};
ghost use Rattle.signal_base.specs.declared.station.Station.{Station};
ghost use Rattle.signal_base.specs.declared.tuning.CostTable.{CostTable};
ghost use Rattle.signal_base.specs.declared.window.Window.{Window};
ghost use Rattle.definitions.specs.declared.sequence.Sequence.{Sequence};
ghost use Rattle.definitions.specs.heard.Costs.{bank_costs, counted, second_cost, sequence_cost, table_of};
ghost use Rattle.definitions.specs.heard.Receivers.{Receiver, Reception};
ghost use Rattle.definitions.specs.heard.Uncapped.{IsScored, NoneIsCapped, uncapped_costs};
ghost use Rattle.definitions.specs.sequences.Walks.{IsWalkable};

/// Where a second costs a receiver so much at the most, no symbol costs it more than its weight times that.
pub fn a_second_costs_at_most_its_bound()
    ensures { (table : CostTable) (r : Reception) (station : Station) (m x most : ℕ) → (table_of table r.tuning).second ≡ Some most
        → second_cost table r station m x ≤ r.tuning.weight * most }
{}

/// What counts of a symbol's cost is never more than the cost.
pub fn no_more_counts_than_it_costs()
    ensures { (second : Option ℕ) (station : Station) (costs : ℕ → ℕ) (x : ℕ) → counted second station costs x ≤ costs x }
{}

/// No symbol costs more with bounds than without.
pub fn a_bound_raises_no_cost()
    ensures { (table : CostTable) (bank : List Receiver) (begin : ℕ) (station : Station) (k x : ℕ)
        → bank_costs table bank begin station k x ≤ uncapped_costs table bank begin station k x }
{}

/// Where no second would cost a receiver more than its bound, two sequences whose slots are all scored differ by as much with
/// bounds as without.
pub fn bounds_out_of_reach_change_no_difference()
    ensures { (table : CostTable) (bank : List Receiver) (begin : ℕ) (window : Window) (q r : Sequence) → NoneIsCapped table bank begin window
        → IsWalkable window q → IsWalkable window r → IsScored window q → IsScored window r
        → sequence_cost (bank_costs table bank begin) window q + sequence_cost (uncapped_costs table bank begin) window r
        ≡ sequence_cost (bank_costs table bank begin) window r + sequence_cost (uncapped_costs table bank begin) window q }
{}

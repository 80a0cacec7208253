//! What walks cost whose first minutes carry one part and whose later minutes another.

ghost use Rattle.std.specs.Prelude.{◌≡◌, ◌+◌, ◌*◌, ◌<◌, ◌≤◌, ◌^◌, ℕ, length, slice_index};
ghost use Rattle.signal_base.specs.declared.limits.TheConstants.{MOST_RECEIVERS};
ghost use Rattle.symbol_cost.specs.Grid.{cost_at};
ghost use Rattle.symbol_cost.specs.declared.limits.TheConstants.{RECEIVER_COST};
ghost use Rattle.slot_columns.specs.Parts.{IsLeastOfChange, split_cost};
ghost use Rattle.slot_columns.specs.Tables.{at_place, in_all, in_front, lesser_in_change};

use crate::columns::SlotColumns;
use crate::limits::{LATER_MINUTES, SECONDS_PER_MINUTE};
use crate::part::Part;
use crate::slots::{SlotCosts, index_of};

/// A walk has no first minutes that carry the one part, or up to 20 of them.
pub const SPLITS: usize = LATER_MINUTES + 1;

/// A cost for each number of first minutes.
pub type SplitCosts = [u32; SPLITS];

impl SlotColumns {
    /// What the window costs where the walk begins in second `p` of a minute, below 60, its first `b` minutes carry the one
    /// part and each later minute the other, at entry `b`. The seconds in which the parts differ are looked up minute by
    /// minute, and the others together.
    pub fn split_costs(&self, p: u8, before: &Part, after: &Part) -> SplitCosts
        requires { p < SECONDS_PER_MINUTE }
        ensures { (b : ℕ) → b < SPLITS → slice_index result b ≡ split_cost self.now.station (cost_at self.now.rows) (length self.now.rows) p b before.now after.now }
    {
        let mut costs = alike(self.part_cost(p, after));
        for s in 0..SECONDS_PER_MINUTE {
            change_second(&mut costs, &self.slots, p as usize, s, before[s], after[s]);
        }
        costs
    }

    /// What a walk from second `p`, below 60, costs at the least whose first minutes, one or more of them, carry one part
    /// and whose later minutes another, where each of the two has in each second what one of two others does. It is the
    /// greatest `u32` where no minute of the window comes after the first.
    pub fn least_of_change(&self, p: u8, one: &Part, other: &Part) -> u32
        requires { p < SECONDS_PER_MINUTE }
        ensures { IsLeastOfChange self.now p one.now other.now result }
    {
        let p = p as usize;
        let minutes = (p + self.slots.seconds()) / SECONDS_PER_MINUTE;
        let mut costs = alike(0);
        for s in 0..SECONDS_PER_MINUTE {
            self.add_lesser(&mut costs, p, s, minutes, one[s], other[s]);
        }
        least_of_first(&costs, minutes)
    }

    // Adds to the costs, by how many first minutes there are, what second `s` costs at the least: the lesser of what two
    // sets cost in these, and the lesser of what they cost in the later minutes.
    fn add_lesser(
        &self,
        costs: &mut SplitCosts,
        p: usize,
        s: usize,
        minutes: usize,
        one: u8,
        other: u8,
    )
        requires first { p < SECONDS_PER_MINUTE }
        requires second { s < SECONDS_PER_MINUTE }
        requires minutes { minutes ≤ LATER_MINUTES }
        requires room { (b : ℕ) → 1 ≤ b → b ≤ minutes → slice_index costs.old b + lesser_in_change self.now p s one other b < 2 ^ 32 }
        ensures { (b : ℕ) → 1 ≤ b → b ≤ minutes → slice_index costs.new b ≡ slice_index costs.old b + lesser_in_change self.now p s one other b }
    {
        // Dates tell nothing in most seconds.
        if one | other == 0 {
            return;
        }
        let mut front = (0, 0);
        let mut behind = (self.in_all(p, s, one), self.in_all(p, s, other));
        for m in 0..minutes {
            let place = SECONDS_PER_MINUTE * m + s;
            let cost = place_cost(&self.slots, p, place, one);
            let other_cost = place_cost(&self.slots, p, place, other);
            front = (front.0 + cost, front.1 + other_cost);
            behind = (behind.0 - cost, behind.1 - other_cost);
            costs[m + 1] += front.0.min(front.1) + behind.0.min(behind.1);
        }
    }

    // What a set costs in second `s` of all minutes.
    fn in_all(&self, p: usize, s: usize, set: u8) -> u32
        requires first { p < SECONDS_PER_MINUTE }
        requires second { s < SECONDS_PER_MINUTE }
        ensures { result ≡ in_all self.now p s set }
    {
        let column = SECONDS_PER_MINUTE * p + s;
        self.first[column][index_of(set)] + self.later[column][index_of(set)]
    }
}

// The least of those for one first minute and for more, up to so many.
fn least_of_first(costs: &SplitCosts, minutes: usize) -> u32
    requires { minutes ≤ LATER_MINUTES }
    ensures least { (b : ℕ) → 1 ≤ b → b ≤ minutes → result ≤ slice_index costs.now b }
    ensures found { 1 ≤ minutes → (b : ℕ) × (1 ≤ b) × (b ≤ minutes) × (result ≡ slice_index costs.now b) }
{
    let mut least = u32::MAX;
    for b in 1..minutes + 1 {
        least = least.min(costs[b]);
    }
    least
}

fn alike(cost: u32) -> SplitCosts
    ensures { (b : ℕ) → b < SPLITS → slice_index result b ≡ cost }
{
    [cost; SPLITS]
}

// Puts the one set in the place of the other, in second `s` of the first minutes.
fn change_second(
    costs: &mut SplitCosts,
    slots: &SlotCosts,
    p: usize,
    s: usize,
    before: u8,
    after: u8,
)
    requires second { s < SECONDS_PER_MINUTE }
    requires counted { (b : ℕ) → b < SPLITS → in_front slots.now p s after b ≤ slice_index costs.old b }
    requires room { (b : ℕ) → b < SPLITS → slice_index costs.old b + in_front slots.now p s before b < 2 ^ 32 }
    ensures { (b : ℕ) → b < SPLITS → slice_index costs.new b + in_front slots.now p s after b ≡ slice_index costs.old b + in_front slots.now p s before b }
{
    if before == after {
        return;
    }
    let mut more = 0;
    let mut less = 0;
    for m in 0..LATER_MINUTES {
        let place = SECONDS_PER_MINUTE * m + s;
        more += place_cost(slots, p, place, before);
        less += place_cost(slots, p, place, after);
        costs[m + 1] = costs[m + 1] + more - less;
    }
}

// What a set costs in the slot at place `i` of a walk that begins in second `p`, and nothing where there is none.
fn place_cost(slots: &SlotCosts, p: usize, i: usize, set: u8) -> u32
    ensures cost { result ≡ at_place slots.now p set i }
    ensures small { result ≤ MOST_RECEIVERS * RECEIVER_COST }
{
    if p <= i && i - p < slots.seconds() {
        slots.cost(i - p, set)
    } else {
        0
    }
}

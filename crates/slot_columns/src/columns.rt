//! What sets cost in the slots of a window, and sums of it.

ghost use Rattle.std.specs.Prelude.{◌≡◌, ◌*◌, ◌<◌, ◌≤◌, IfOk, length};
ghost use Rattle.signal_base.specs.declared.limits.TheConstants.{MOST_RECEIVERS, MOST_SECONDS};
ghost use Rattle.definitions.specs.heard.Costs.{set_cost};
ghost use Rattle.symbol_cost.specs.Grid.{HasCosts, cost_at};
ghost use Rattle.symbol_cost.specs.declared.limits.TheConstants.{RECEIVER_COST};
ghost use Rattle.slot_columns.specs.Parts.{IsLeastOfEither, layered_cost, minute_cost, most_cost, sets_cost};

use crate::limits::{SECONDS_PER_MINUTE, SETS};
use crate::part::Part;
use crate::slots::{Row, SlotCosts, indexes_of};
use crate::tables::{first_columns, later_columns, sum_of_columns, sum_of_lesser};
use signal_base::{MOST_RECEIVERS, MOST_SECONDS, Station};
use std::alloc::{AllocError, Global};
use std::marker::Model;
use symbol_cost::CostGrid;

/// What each set of a station's symbols costs in the slots of a window, added up by seconds for each second in which
/// the walk may begin.
#[derive(Drop)]
pub struct SlotColumns {
    pub(crate) slots: SlotCosts,
    // What the sets cost in walk minute 0, and in all later minutes together.
    pub(crate) first: Vec<Row>,
    pub(crate) later: Vec<Row>,
}

impl Model for SlotColumns {
    ghost use Rattle.symbol_cost.specs.Grid.{Grid};
    ghost use Rattle.slot_columns.specs.Tables.{AreTables};

    ghost Value = { Grid };

    ghost view = { λ c. c.slots };

    ghost invariant = { λ c. AreTables c.slots c.first.items c.later.items };
}

impl SlotColumns {
    /// Adds up the costs of a grid.
    pub fn make(alloc: Global, grid: &CostGrid) -> Result<SlotColumns, AllocError>
        ensures costs { IfOk result (λ columns. HasCosts columns grid.now.station (length grid.now.rows) (cost_at grid.now.rows)) }
        ensures receivers { IfOk result (λ columns. columns.receivers ≡ grid.now.receivers) }
    {
        let slots = SlotCosts::make(alloc, grid)?;
        let first = first_columns(alloc, &slots)?;
        let later = later_columns(alloc, &slots)?;
        Ok(SlotColumns {
            slots,
            first,
            later,
        })
    }

    /// Whose symbols are scored.
    pub fn station(&self) -> Station
        ensures { result ≡ self.now.station }
    {
        self.slots.station()
    }

    /// How many receivers there are, at most 8.
    pub fn receivers(&self) -> u8
        ensures count { result ≡ self.now.receivers }
        ensures bound { result ≤ MOST_RECEIVERS }
    {
        self.slots.receivers()
    }

    /// How many slots there are, at most 1,200.
    pub fn seconds(&self) -> u16
        ensures count { result ≡ length self.now.rows }
        ensures bound { result ≤ MOST_SECONDS }
    {
        self.slots.seconds() as u16
    }

    /// What a set costs in a slot: its cheapest symbol, and nothing where the second isn't scored or the set has none of
    /// the station's symbols. It is at most 200,000 for each receiver.
    pub fn cost(&self, slot: u16, set: u8) -> u32
        requires { slot < length self.now.rows }
        ensures cost { result ≡ set_cost self.now.station (cost_at self.now.rows slot) set }
        ensures bound { result ≤ self.now.receivers * RECEIVER_COST }
    {
        self.slots.cost(slot as usize, set)
    }

    // What the set at an index costs in a slot.
    #[inline(always)]
    fn at(&self, slot: u16, index: u8) -> u32
        requires slot { slot < length self.now.rows }
        requires index { index < SETS }
        ensures cost { result ≡ set_cost self.now.station (cost_at self.now.rows slot) index }
        ensures bound { result ≤ self.now.receivers * RECEIVER_COST }
    {
        self.slots.at(slot as usize, index)
    }

    /// What a set in each slot costs, added up four slots at a time. It is at most 200,000 for each slot and receiver.
    pub fn sets_cost(&self, sets: &[u8; MOST_SECONDS as usize]) -> u32
        ensures cost { result ≡ sets_cost self.now.station (cost_at self.now.rows) (length self.now.rows) sets.now }
        ensures bound { result ≤ most_cost self.now }
    {
        // No columns are made of more, so that no sum is too large.
        prove!(self.receivers() as usize <= MOST_RECEIVERS);
        let indexes = indexes_of(sets);
        let seconds = self.seconds();
        let fours = seconds / 4;
        let mut cost = 0;
        for i in 0..fours {
            let slot = 4 * i;
            cost += self.at(slot, indexes[slot as usize])
                + self.at(slot + 1, indexes[slot as usize + 1])
                + self.at(slot + 2, indexes[slot as usize + 2])
                + self.at(slot + 3, indexes[slot as usize + 3]);
        }
        for slot in 4 * fours..seconds {
            cost += self.at(slot, indexes[slot as usize]);
        }
        cost
    }

    /// What the window costs where the walk begins in second `p` of a minute, below 60, that minute carries the one part
    /// and each later minute the other. It is at most 200,000 for each slot and receiver.
    pub fn layered_cost(&self, p: u8, first: &Part, rest: &Part) -> u32
        requires { p < SECONDS_PER_MINUTE }
        ensures cost { result ≡ layered_cost self.now.station (cost_at self.now.rows) (length self.now.rows) p first.now rest.now }
        ensures bound { result ≤ most_cost self.now }
    {
        sum_of_columns(&self.first, &self.later, p as usize, first, rest)
    }

    /// What it costs where each minute of the walk carries this part.
    pub fn part_cost(&self, p: u8, part: &Part) -> u32
        requires { p < SECONDS_PER_MINUTE }
        ensures cost { result ≡ layered_cost self.now.station (cost_at self.now.rows) (length self.now.rows) p part.now part.now }
        ensures bound { result ≤ most_cost self.now }
    {
        self.layered_cost(p, part, part)
    }

    /// What a part costs at the least that carries in each second what one of two others does, where each minute of the
    /// walk carries it.
    pub fn least_of_either(&self, p: u8, one: &Part, other: &Part) -> u32
        requires { p < SECONDS_PER_MINUTE }
        ensures least { IsLeastOfEither self.now p one.now other.now result }
        ensures bound { result ≤ most_cost self.now }
    {
        sum_of_lesser(&self.first, &self.later, p as usize, one, other)
    }

    /// What the part costs in walk minute `m` alone: in those slots of the window that lie in it. It is at most 200,000
    /// for each of 60 seconds and receiver.
    pub fn minute_cost(&self, p: u8, m: u8, part: &Part) -> u32
        requires { p < SECONDS_PER_MINUTE }
        ensures cost { result ≡ minute_cost self.now.station (cost_at self.now.rows) (length self.now.rows) p m part.now }
        ensures bound { result ≤ SECONDS_PER_MINUTE * (self.now.receivers * RECEIVER_COST) }
    {
        let p = p as usize;
        let begin = SECONDS_PER_MINUTE * m as usize;
        let from = begin.saturating_sub(p);
        let end = self.slots.seconds().min(begin + SECONDS_PER_MINUTE - p);
        let mut cost = 0;
        for k in from..end {
            cost += self.slots.cost(k, part[p + k - begin]);
        }
        cost
    }
}

//! What a search asks of a window's sequences and blocks.

ghost use Rattle.std.specs.Prelude.{◌≡◌, ◌<◌, ◌≤◌, ◌↔◌, IfOk, IfSome, IsTrue, MatchOption, true};
ghost use Rattle.definitions.specs.codes.Allowed.{has_station};
ghost use Rattle.definitions.specs.sequences.Walks.{IsLegal, IsSequence, IsWalkable};
ghost use Rattle.definitions.specs.sequences.Windows.{IsWindow};
ghost use Rattle.definitions.specs.heard.Costs.{sequence_cost, set_cost};
ghost use Rattle.definitions.specs.answers.Blocks.{HasWalk, IsBlock, IsMinuteBound, IsUnion, IsUnionBound};
ghost use Rattle.field_tables.specs.Grids.{AreGrids};
ghost use Rattle.field_tables.specs.Scopes.{scopes_of};
ghost use Rattle.field_tables.specs.Scored.{costs_of};

use crate::parts::StationParts;
use crate::sums::WindowSums;
use civil::Civil;
use definitions::{Block, Sequence};
use plain_costs::{grid_of, has_walk, plain_cost, unions_of};
use signal_base::{GREATEST_COST, Station, Window};
use slot_columns::SECONDS_PER_MINUTE;
use std::alloc::{AllocError, Global};
use std::marker::Model;
use symbol_cost::CostGrid;

/// Why tables can't be made.
#[derive(Clone, Copy, Debug)]
pub enum TablesFault {
    /// Memory wasn't found.
    NoMemory,
}

impl From<AllocError> for TablesFault {
    fn from(_fault: AllocError) -> TablesFault {
        TablesFault::NoMemory
    }
}

/// A window and the costs of its stations' symbols: what each sequence costs, and what the sequences of a block allow
/// together. Contracts see the window and the grids.
#[derive(Drop)]
pub struct Tables<'a> {
    grids: &'a [CostGrid],
    pub(crate) civil: &'a Civil,
    window: Window,
    pub(crate) sums: WindowSums<'a>,
    // For each day the minute in which the first day from it on begins on which an announced sequence may be legal.
    pub(crate) loud: Vec<u32>,
}

impl<'a> Model for Tables<'a> {
    ghost use Rattle.field_tables.specs.Quiet.{AreQuiet};
    ghost use Rattle.field_tables.specs.Scored.{Scored};
    ghost use Rattle.field_tables.specs.Sums.{AreTables};

    ghost Value = { Scored };

    ghost view = { λ t. record { window = t.window; grids = t.grids.now } };

    ghost invariant = { λ t. AreTables t.window t.grids.now t.sums × AreQuiet t.window t.loud.items };
}

impl<'a> Tables<'a> {
    /// Tables of a window, by the parts of its stations (`parts_of`), which may have served for other windows of the same stations
    /// and length. There is one grid for each station of the window, in the order DCF77, MSF, WWVB, JJY, each with the window's
    /// slots, and all made from at most 8 receivers together. `NoMemory` comes only for want of memory.
    pub fn make(
        alloc: Global,
        parts: &'a [StationParts],
        grids: &'a [CostGrid],
        civil: &'a Civil,
        window: &Window,
    ) -> Result<Tables<'a>, TablesFault>
        requires window { IsWindow window.now }
        requires parts { parts.now ≡ scopes_of window.now.stations window.now.seconds }
        requires grids { AreGrids window.now grids.now }
        ensures window { IfOk result (λ tables. tables.window ≡ window.now) }
        ensures grids { IfOk result (λ tables. tables.grids ≡ grids.now) }
    {
        Tables::made(alloc, parts, grids, civil, window, false)
    }

    /// The same for who asks for the bounds of many days: they are found by a few look-ups, for which tables of all days are made.
    pub fn make_with_days(
        alloc: Global,
        parts: &'a [StationParts],
        grids: &'a [CostGrid],
        civil: &'a Civil,
        window: &Window,
    ) -> Result<Tables<'a>, TablesFault>
        requires window { IsWindow window.now }
        requires parts { parts.now ≡ scopes_of window.now.stations window.now.seconds }
        requires grids { AreGrids window.now grids.now }
        ensures window { IfOk result (λ tables. tables.window ≡ window.now) }
        ensures grids { IfOk result (λ tables. tables.grids ≡ grids.now) }
    {
        Tables::made(alloc, parts, grids, civil, window, true)
    }

    fn made(
        alloc: Global,
        parts: &'a [StationParts],
        grids: &'a [CostGrid],
        civil: &'a Civil,
        window: &Window,
        keep_days: bool,
    ) -> Result<Tables<'a>, TablesFault>
        requires window { IsWindow window.now }
        requires parts { parts.now ≡ scopes_of window.now.stations window.now.seconds }
        requires grids { AreGrids window.now grids.now }
        ensures window { IfOk result (λ tables. tables.window ≡ window.now) }
        ensures grids { IfOk result (λ tables. tables.grids ≡ grids.now) }
    {
        let sums = WindowSums::make(alloc, parts, grids, window, keep_days)?;
        let loud = sums.quiet_days(alloc, civil)?;
        Ok(Tables {
            grids,
            civil,
            window: *window,
            sums,
            loud,
        })
    }

    /// The window.
    pub fn window(&self) -> Window
        ensures value { result ≡ self.now.window }
        ensures ranges { IsWindow result }
    {
        self.window
    }

    /// Whether the sequence is legal in the window.
    pub fn legal(&self, q: &Sequence) -> bool
        requires { IsSequence q.now }
        ensures { IsTrue result ↔ IsLegal self.now.window q.now }
    {
        if !q.announced && (q.second as usize) < SECONDS_PER_MINUTE {
            return self.sums.walkable(q);
        }
        sequence::legal(self.civil, &self.window, q)
    }

    /// What a walkable sequence costs, at most 1,920,000,000.
    pub fn cost(&self, q: &Sequence) -> u32
        requires sequence { IsSequence q.now }
        requires walkable { IsWalkable self.now.window q.now }
        ensures cost { result ≡ sequence_cost (costs_of self.now) self.now.window q.now }
        ensures bound { result ≤ GREATEST_COST }
    {
        match self.sums.cost(self.civil, q) {
            Some(cost) => cost,
            None => plain_cost(self.grids, self.civil, &self.window, q),
        }
    }

    /// What a set costs a station of the window in a slot below the window's seconds: its cheapest symbol, and nothing
    /// where it is the set that stands for a second that isn't scored.
    pub fn set_cost(&self, station: Station, slot: u16, set: u8) -> u32
        requires station { has_station self.now.window.stations station ≡ true }
        requires slot { slot < self.now.window.seconds }
        ensures { result ≡ set_cost station (costs_of self.now station slot) set }
    {
        match grid_of(self.grids, station) {
            Some(grid) => grid.cost(slot, set),
            None => unreachable!(),
        }
    }

    /// The union of the sets that the walkable sequences of a block of the window allow a station of the window in a slot
    /// below the window's seconds. None exactly where no sequence of the block is walkable.
    pub fn union_at(&self, station: Station, block: &Block, slot: u16) -> Option<u8>
        requires station { has_station self.now.window.stations station ≡ true }
        requires block { IsBlock self.now.window block.now }
        requires slot { slot < self.now.window.seconds }
        ensures { MatchOption result (¬ (HasWalk self.now.window block.now))
            (λ set. HasWalk self.now.window block.now × IsUnion self.now.window block.now station slot set) }
    {
        if !has_walk(self.civil, &self.window, block) {
            return None;
        }
        Some(unions_of(self.civil, station, &self.window, block)[slot as usize])
    }

    /// What the unions of the sets that the walkable sequences of a block of the window allow cost, over all stations and
    /// slots: no such sequence costs less. It is at most 1,920,000,000. None exactly where no sequence of the block is
    /// walkable.
    pub fn union_bound(&self, block: &Block) -> Option<u32>
        requires { IsBlock self.now.window block.now }
        ensures bound { IsUnionBound (costs_of self.now) self.now.window block.now result }
        ensures small { IfSome result (λ n. n ≤ GREATEST_COST) }
    {
        if self.sums.has_short_walks(self.civil, block) {
            return self.sums.union_bound(block);
        }
        self.sums.leap_bound(self.civil, block)
    }

    /// The bound of a minute of the window: what its sequence costs, at most 1,920,000,000. None exactly where that isn't legal.
    pub fn minute_bound(&self, minute: &Block) -> Option<u32>
        requires { IsBlock self.now.window minute.now }
        ensures bound { IsMinuteBound (costs_of self.now) self.now.window minute.now result }
        ensures small { IfSome result (λ n. n ≤ GREATEST_COST) }
    {
        if self.sums.has_regular_walks(self.civil, minute) {
            return self.sums.minute_bound(minute);
        }
        if minute.announced {
            if let Some(bound) = self.sums.leap_minute_bound(minute) {
                return bound;
            }
        }
        let q = Sequence {
            first: minute.lo,
            second: minute.second,
            announced: minute.announced,
        };
        if self.legal(&q) {
            Some(self.cost(&q))
        } else {
            None
        }
    }
}

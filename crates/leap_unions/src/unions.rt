//! The unions of blocks that announce a leap second.

ghost use Rattle.std.specs.Prelude.{ℕ, ◌≡◌, ◌+◌, ◌-◌, ◌/◌, ◌<◌, ◌≤◌, ◌↔◌, IfOk, IfSome, IsTrue, MatchOption, slice_index, true};
ghost use Rattle.signal_base.specs.declared.limits.TheConstants.{MOST_SECONDS};
ghost use Rattle.definitions.specs.codes.Allowed.{has_station, CanBeEncoded};
ghost use Rattle.definitions.specs.sequences.Windows.{IsWindow};
ghost use Rattle.definitions.specs.answers.Blocks.{HasWalk, IsBlock, IsUnion};
ghost use Rattle.leap_unions.specs.Walks.{AreTogether, IsLeapWalk, ShowsIn};

use crate::pieces::Walks;
use crate::row_maker::{Maker, Rows};
use crate::sets::Sets;
use crate::together::walks_of;
use crate::walk::{LeapWalk, shows, tape_with, walk_of};
use civil::Civil;
use definitions::Block;
use minute_parts::Unions;
use signal_base::{Station, Window};
use std::alloc::{AllocError, Global};
use std::marker::Model;

/// What the blocks of a search allow a station where a leap second is announced, for windows of so many seconds. Contracts
/// see the station and the seconds.
#[derive(Drop)]
pub struct LeapUnions {
    station: Station,
    seconds: u16,
    rows: Rows,
}

impl Model for LeapUnions {
    ghost use Rattle.leap_unions.specs.Scope.{Scope};

    ghost Value = { Scope };

    ghost use Rattle.std.specs.List.{All};
    ghost use Rattle.std.specs.Prelude.{◌≤◌};
    ghost use Rattle.signal_base.specs.declared.limits.TheConstants.{MOST_SECONDS};
    ghost use Rattle.leap_unions.specs.Kept.{IsKept, IsKeptTape};

    ghost view = { λ u. record { station = u.station; seconds = u.seconds } };

    ghost invariant = { λ u. All (IsKept u.station u.seconds) u.rows.nears.items × All (IsKept u.station u.seconds) u.rows.years.items
        × All (IsKeptTape u.station u.seconds) u.rows.tapes.items × (1 ≤ u.seconds) × (u.seconds ≤ MOST_SECONDS) };
}

impl LeapUnions {
    /// Makes ready for windows of `seconds` seconds, of the station that the unions are of. `NoMemory` comes only for want
    /// of memory.
    pub fn make(
        alloc: Global,
        civil: &Civil,
        station: Station,
        unions: &Unions,
        seconds: u16,
    ) -> Result<LeapUnions, AllocError>
        requires station { unions.now.station ≡ station }
        requires some { 1 ≤ seconds }
        requires few { seconds ≤ MOST_SECONDS }
        ensures station { IfOk result (λ u. u.station ≡ station) }
        ensures seconds { IfOk result (λ u. u.seconds ≡ seconds) }
    {
        let maker = Maker {
            civil,
            station,
            unions,
            seconds,
        };
        let rows = maker.rows(alloc)?;
        Ok(LeapUnions {
            station,
            seconds,
            rows,
        })
    }

    /// In each slot the union of the sets that the walkable sequences of a block of the window allow the station. None
    /// exactly where no sequence of the block is walkable. `end` is the first minute that isn't encoded by all stations of
    /// the window.
    pub fn unions_of(
        &self,
        civil: &Civil,
        unions: &Unions,
        window: &Window,
        end: u32,
        block: &Block,
    ) -> Option<Sets>
        requires window { IsWindow window.now }
        requires block { IsBlock window.now block.now }
        requires announced { block.now.announced ≡ true }
        requires station { has_station window.now.stations self.now.station ≡ true }
        requires seconds { window.now.seconds ≡ self.now.seconds }
        requires end { (t : ℕ) → t < end ↔ CanBeEncoded window.now.stations t }
        requires unions { unions.now.station ≡ self.now.station }
        ensures { MatchOption result (¬ (HasWalk window.now block.now)) (λ sets. HasWalk window.now block.now
            × ((k : ℕ) → k < window.now.seconds → IsUnion window.now block.now self.now.station k (slice_index sets k))) }
    {
        let walks = Walks {
            civil,
            station: self.station,
            unions,
            window,
            end,
            second: block.second,
            nears: &self.rows.nears,
            years: &self.rows.years,
        };
        walks.unions(block.lo, block.hi)
    }

    /// The announced walk from second `p`, below 60, of a minute, where that is one of the last before a leap second may be
    /// inserted: from 21 minutes before it on at most. None of other minutes, and near the end of what the station can encode.
    pub fn walk(&self, p: u8, first: u32) -> Option<LeapWalk>
        requires second { p < 60 }
        ensures { IfSome result (IsLeapWalk self.now p first) }
    {
        let kept = tape_with(&self.rows.tapes, self.station, self.seconds, first)?;
        Some(walk_of(kept, self.station, self.seconds, p, first))
    }

    /// What the announced walks from second `p`, below 60, carry together that begin in the minutes from `lo` up to, and without,
    /// `hi`: they may carry less, and nothing else. None where these aren't some of the last ones before a leap second.
    pub fn walks_together(&self, p: u8, lo: u32, hi: u32) -> Option<Sets>
        requires second { p < 60 }
        ensures { IfSome result (AreTogether self.now p lo hi) }
    {
        let kept = tape_with(&self.rows.tapes, self.station, self.seconds, lo)?;
        if kept.hi < hi {
            return None;
        }
        Some(walks_of(kept, self.station, self.seconds, p, lo, hi))
    }

    /// Whether a walk shows the announcement: whether some of its sets is another than without it.
    pub fn shows(&self, unions: &Unions, walk: &LeapWalk, p: u8, first: u32) -> bool
        requires unions { unions.now.station ≡ self.now.station }
        requires walk { IsLeapWalk self.now p first walk.now }
        requires second { p < 60 }
        requires encoded { first + 1 + (p + self.now.seconds - 1) / 60 ≤ unions.now.end }
        ensures { IsTrue result ↔ ShowsIn self.now p first }
    {
        shows(&walk.sets, unions, self.seconds, p, first)
    }
}

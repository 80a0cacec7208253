//! What the sequences of many days cost a station at the least, where they announce no leap second: of a year by what its dates tell
//! together, and day by day only where that doesn't do.

ghost use Rattle.std.specs.Prelude.{◌≡◌, ◌+◌, ◌<◌, ◌≤◌, IfSome, false, length};
ghost use Rattle.minute_parts.specs.Parts.{IsInRun};
ghost use Rattle.minute_parts.specs.Unions.{AreRegular};
ghost use Rattle.minute_parts.specs.Walks.{later_minutes};
ghost use Rattle.slot_columns.specs.Parts.{most_cost};
ghost use Rattle.slot_columns.specs.declared.limits.TheConstants.{SECONDS_PER_MINUTE};
ghost use Rattle.walk_costs.specs.Near.{AreSpanCosts};
ghost use Rattle.field_tables.specs.Floors.{CostAtLeast};

use crate::station::StationSums;
use crate::station_floor::{Piece, piece_from};
use definitions::Block;
use walk_costs::{SpanCosts, StationWalks};

impl StationSums<'_> {
    /// A floor of a block of unannounced sequences whose walks have 60 seconds in each minute: none of them costs the station less. It
    /// is 0 unless it is above `enough`.
    pub fn floor_of_days(&self, block: &Block, enough: u32) -> u32
        requires second { block.now.second < SECONDS_PER_MINUTE }
        requires unannounced { block.now.announced ≡ false }
        requires order { block.now.lo < block.now.hi }
        requires regular { AreRegular block.now.announced block.now.lo (block.now.hi + later_minutes (length self.now.grid.rows) block.now.second) self.now.parts.end }
        ensures floor { CostAtLeast self.now block.now block.now.lo block.now.hi result }
        ensures small { result ≤ most_cost self.now.grid }
    {
        let walks = self.walks();
        let mut near = None;
        let mut closely = 0;
        let mut floor = u32::MAX;
        let mut t = block.lo;
        while t < block.hi {
            let piece = piece_of_run(walks, block, t, &mut near, &mut closely, enough);
            if piece.floor <= enough {
                return 0;
            }
            floor = floor.min(piece.floor);
            t = piece.end;
        }
        floor
    }
}

// The piece from the minute `t` on: the rest of its run, with those behind it, by what the dates around them tell together, or, where that
// isn't above `enough`, the next piece of a day. `near` has what was asked last of these dates, and the runs before `closely`
// are known to want a closer look.
fn piece_of_run(
    walks: &StationWalks,
    block: &Block,
    t: u32,
    near: &mut Option<SpanCosts>,
    closely: &mut usize,
    enough: u32,
) -> Piece
    requires second { block.now.second < SECONDS_PER_MINUTE }
    requires unannounced { block.now.announced ≡ false }
    requires begun { block.now.lo ≤ t }
    requires some { t < block.now.hi }
    requires regular { AreRegular block.now.announced block.now.lo (block.now.hi + later_minutes (length walks.now.grid.rows) block.now.second) walks.now.parts.end }
    requires near { IfSome near.old (λ costs. (costs.second ≡ block.now.second) × AreSpanCosts walks.now costs) }
    ensures near { IfSome near.new (λ costs. (costs.second ≡ block.now.second) × AreSpanCosts walks.now costs) }
    ensures more { t < result.end }
    ensures floor { CostAtLeast walks.now block.now t result.end result.floor }
    ensures small { result.floor ≤ most_cost walks.now.grid }
{
    // What ends before it fits.
    walks.parts().end();
    let run = walks.parts().run_of(t);
    if run < *closely {
        return piece_from(walks, block, t, enough);
    }
    *near = costs_near(walks, block.second, run, *near);
    if let Some(costs) = near {
        if let Some(piece) = piece_near(walks, block, t, run, costs, closely, enough) {
            return piece;
        }
    }
    piece_from(walks, block, t, enough)
}

// What the dates around a run cost: what was asked last, if it is that.
fn costs_near(
    walks: &StationWalks,
    second: u8,
    run: usize,
    last: Option<SpanCosts>,
) -> Option<SpanCosts>
    requires second { second < SECONDS_PER_MINUTE }
    requires last { IfSome last (λ costs. (costs.second ≡ second) × AreSpanCosts walks.now costs) }
    ensures { IfSome result (λ costs. (costs.second ≡ second) × AreSpanCosts walks.now costs) }
{
    if let Some(costs) = last {
        if costs.from <= run && run < costs.to {
            return last;
        }
    }
    walks.span_costs(second, run)
}

// The piece of the rest of the run and of those behind it of which it is known that their floors are above `enough`, where the dates are
// known around them. Behind these, or in their place, may be runs that want a closer look: those before `closely`.
fn piece_near(
    walks: &StationWalks,
    block: &Block,
    t: u32,
    run: usize,
    costs: &SpanCosts,
    closely: &mut usize,
    enough: u32,
) -> Option<Piece>
    requires unannounced { block.now.announced ≡ false }
    requires begun { block.now.lo ≤ t }
    requires some { t < block.now.hi }
    requires regular { AreRegular block.now.announced block.now.lo (block.now.hi + later_minutes (length walks.now.grid.rows) block.now.second) walks.now.parts.end }
    requires here { IsInRun walks.now.parts t run }
    requires costs { AreSpanCosts walks.now costs.now }
    requires second { costs.now.second ≡ block.now.second }
    ensures more { IfSome result (λ piece. t < piece.end) }
    ensures floor { IfSome result (λ piece. CostAtLeast walks.now block.now t piece.end piece.floor) }
    ensures small { IfSome result (λ piece. piece.floor ≤ most_cost walks.now.grid) }
{
    let parts = walks.parts();
    // What ends before it fits, and walks go through few minutes.
    parts.end();
    walks.later_minutes(costs.second);
    let near = walks.least_near(costs, run, enough);
    *closely = near.closely;
    if near.last == run {
        return None;
    }
    let end = block.hi.min(parts.run_end(near.last - 1));
    Some(Piece {
        end,
        floor: near.floor,
    })
}

//! The unions of a block whose walks reach some minutes: one for the minutes in which they begin, one for those after it.

ghost use Rattle.std.specs.Prelude.{ℕ, ◌+◌, ◌<◌, ◌≤◌, IfSome, IsSome, slice_index};
ghost use Rattle.minute_parts.specs.Layers.{AreLayers, IsSteady};
ghost use Rattle.minute_parts.specs.Unions.{AreRegular, IsUnionOver};
ghost use Rattle.minute_parts.specs.declared.part.TheConstants.{SECONDS};

use crate::part::{Part, either, nothing, same};
use crate::unions::Unions;

/// What the seconds of a block's walks may carry.
#[derive(Clone, Copy)]
pub struct Layers {
    /// In the minutes in which the walks begin.
    pub first: Part,
    /// In those that they are in 1 minute later, in those that they are in 2 minutes later, and so on.
    pub rest: Part,
}

impl Unions {
    /// The unions over the minutes from `lo` up to, and without, `hi`, and over those that come 1 to `reach` minutes later,
    /// where these have one union, whichever of them it is. None if it may differ from minute to minute, as where the date
    /// changes: a caller then asks for the unions one by one.
    pub fn layers(&self, announced: bool, lo: u32, hi: u32, reach: u32) -> Option<Layers>
        requires some { lo < hi }
        requires regular { AreRegular announced lo (hi + reach) self.now.end }
        ensures layers { IfSome result (λ layers. AreLayers self.now.station announced lo hi reach layers) }
        ensures steady { IsSteady self.now.station announced lo hi reach → IsSome result }
    {
        // What ends before it fits.
        self.parts().end();
        if reach == 0 {
            let all = self.over(announced, lo, hi);
            return Some(Layers {
                first: all,
                rest: all,
            });
        }
        if hi < lo + reach {
            return None;
        }
        // Most minutes are in all ranges, and are gone through once.
        let front = self.over(announced, lo, lo + reach);
        let most = self.over_any(announced, lo + reach, hi);
        let first = either(&front, &most);
        let last = self.over(announced, hi, hi + 1);
        let common = either(&most, &last);
        let early = self.over(announced, lo + 1, lo + reach + 1);
        let begun = either(&early, &common);
        let late = self.over(announced, hi, hi + reach);
        let rest = either(&begun, &late);
        let steady = same(&rest, &common);
        if steady {
            return Some(Layers { first, rest });
        }
        None
    }

    // The union over some minutes, or over none.
    fn over_any(&self, announced: bool, lo: u32, hi: u32) -> Part
        requires order { lo ≤ hi }
        requires regular { AreRegular announced lo hi self.now.end }
        ensures { (s : ℕ) → s < SECONDS → IsUnionOver self.now.station announced lo hi s (slice_index result s) }
    {
        if lo == hi {
            return nothing();
        }
        self.over(announced, lo, hi)
    }
}

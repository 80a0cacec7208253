//! What the time of day tells in the walks of a whole hour.

ghost use Rattle.std.specs.Prelude.{◌+◌, ◌<◌, ◌≤◌, IfSome};
ghost use Rattle.definitions.specs.time.Calendar.{minutes_per_day};
ghost use Rattle.minute_parts.specs.HourLayers.{AreTimeLayers};

use crate::layers::Layers;
use crate::part::same;
use crate::time_unions::time_union;
use crate::unions::Unions;

/// The minutes of an hour.
pub const HOUR_MINUTES: usize = 60;

impl Unions {
    /// What the time of day tells in the 60 minutes from minute `u` of the local day on, and in those 60 that come 1 to
    /// `reach` minutes later, where these tell the same, whichever of them it is. None where they don't.
    pub fn time_layers(&self, u: u16, reach: u32) -> Option<Layers>
        requires day { u + reach < minutes_per_day }
        requires reach { reach ≤ HOUR_MINUTES }
        ensures { IfSome result (AreTimeLayers self.now.times u reach) }
    {
        let u = u as usize;
        let reach = reach as usize;
        let first = time_union(&self.times, u, HOUR_MINUTES);
        if reach == 0 {
            return Some(Layers { first, rest: first });
        }
        let rest = time_union(&self.times, u + 1, HOUR_MINUTES - 1 + reach);
        let common = time_union(&self.times, u + reach, HOUR_MINUTES + 1 - reach);
        let steady = same(&rest, &common);
        if steady {
            return Some(Layers { first, rest });
        }
        None
    }
}

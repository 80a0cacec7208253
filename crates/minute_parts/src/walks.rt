//! How far a walk goes whose minutes have 60 seconds each.

ghost use Rattle.std.specs.Prelude.{◌≡◌, ◌≤◌};
ghost use Rattle.signal_base.specs.declared.limits.TheConstants.{MOST_SECONDS};
ghost use Rattle.minute_parts.specs.declared.part.TheConstants.{SECONDS};
ghost use Rattle.minute_parts.specs.Walks.{later_minutes};

use crate::part::SECONDS;

/// How many minutes a walk of so many slots goes on after its first one, of which it takes second `p` first.
pub fn later_minutes(seconds: u16, p: u8) -> u32
    requires slots { seconds ≤ MOST_SECONDS }
    requires second { p ≤ SECONDS }
    ensures count { result ≡ later_minutes seconds p }
    ensures bound { result ≤ 20 }
{
    (p as u32 + seconds as u32).saturating_sub(1) / SECONDS as u32
}

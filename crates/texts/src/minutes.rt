//! The minutes that begin in a window, and what a text says of each.

ghost use Rattle.std.specs.Prelude.{◌≡◌, ◌+◌, ◌<◌, ◌≤◌, ◌++◌};
ghost use Rattle.definitions.specs.time.Calendar.{century_minutes};
ghost use Rattle.definitions.specs.sequences.Walks.{IsSequence, IsWalkable};
ghost use Rattle.formats.specs.Reports.{at_minute, at_minutes};

use crate::page::{Line, MOST_LINES, Page};
use civil::Civil;
use sequence::{Sequence, next_place};
use signal_base::{MOST_SECONDS, Window};

/// The most minutes that begin in a window.
pub const MOST_MINUTES: usize = 20;

/// What a text says of a minute.
pub trait MinuteText {
    ghost use Rattle.std.specs.Prelude.{ℕ, List};

    // of the minute t that begins in slot k
    ghost text: { Self → ℕ → ℕ → List ℕ };

    /// The line of a minute that begins in a slot.
    fn line(&self, civil: &Civil, t: u32, slot: u16) -> Line
        requires { t < century_minutes }
        ensures { result.bytes ≡ text self.now t slot };
}

/// Adds a line for each minute that begins in the window.
pub fn push_minutes<M: MinuteText>(
    page: &mut Page,
    minutes: &M,
    civil: &Civil,
    window: &Window,
    q: &Sequence,
)
    requires room { page.old.lines + MOST_MINUTES ≤ MOST_LINES }
    requires seconds { window.now.seconds ≤ MOST_SECONDS }
    requires sequence { IsSequence q.now }
    requires walkable { IsWalkable window.now q.now }
    ensures { page.new.text.bytes ≡ page.old.text.bytes ++ at_minutes (M.text minutes.now) q.now window.now.seconds }
{
    let mut place = (q.first, q.second);
    for slot in 0..window.seconds {
        push_slot(page, minutes, civil, place, slot);
        place = next_place(civil, q.announced, place);
    }
}

// Adds the line of a slot, where a minute begins there.
fn push_slot<M: MinuteText>(
    page: &mut Page,
    minutes: &M,
    civil: &Civil,
    place: (u32, u8),
    slot: u16,
)
    requires century { place.0 < century_minutes }
    requires room { place.1 ≡ 0 → page.old.lines < MOST_LINES }
    ensures bytes { page.new.text.bytes ≡ page.old.text.bytes ++ at_minute (M.text minutes.now) place slot }
    ensures begins { place.1 ≡ 0 → page.new.lines ≡ page.old.lines + 1 }
    ensures goes_on { 0 < place.1 → page.new.lines ≡ page.old.lines }
{
    if place.1 != 0 {
        return;
    }
    page.push(&minutes.line(civil, place.0, slot));
}

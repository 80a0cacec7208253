//! The minutes in which a block's walks begin, piece by piece.

ghost use Rattle.std.specs.Prelude.{ℕ, ◌≡◌, ◌+◌, ◌-◌, ◌/◌, ◌<◌, ◌≤◌, ◌↔◌, IfSome, false, slice_index, true};
ghost use Rattle.std.specs.List.{All};
ghost use Rattle.definitions.specs.codes.Allowed.{has_station, CanBeEncoded};
ghost use Rattle.definitions.specs.sequences.Windows.{IsWindow};
ghost use Rattle.definitions.specs.time.Calendar.{century_minutes, is_leap_end};
ghost use Rattle.leap_unions.specs.Kept.{IsKept};
ghost use Rattle.leap_unions.specs.Pieces.{AreOfBoth, AreUnionsFrom};

use crate::kept::Kept;
use crate::leap_ends::{LONGEST_YEAR, next_leap_end};
use crate::row_maker::row_reach;
use crate::rows::regular_row;
use crate::sets::{Sets, either, sets_from};
use crate::tapes::tape_of;
use civil::Civil;
use definitions::Sequence;
use minute_parts::{Unions, later_minutes};
use sequence::walkable;
use signal_base::{Station, Window};

// The inserted second of a minute of 61 seconds.
const LEAP_SECOND: u8 = 60;

/// The walks of a window that begin in a second, where a leap second is announced.
#[derive(Drop)]
pub struct Walks<'a> {
    pub civil: &'a Civil,
    /// The station that is asked for, one of the window's.
    pub station: Station,
    /// Of this station.
    pub unions: &'a Unions,
    pub window: &'a Window,
    /// The first minute that isn't encoded by all stations of the window.
    pub end: u32,
    /// The second in which the walks begin.
    pub second: u8,
    /// The rows that are kept, of walks near leap ends and of years.
    pub nears: &'a [Kept],
    pub years: &'a [Kept],
    ghost is_window: { IsWindow window.now },
    ghost heard: { has_station window.now.stations station ≡ true },
    ghost of_station: { unions.now.station ≡ station },
    ghost encoded: { (t : ℕ) → t < end ↔ CanBeEncoded window.now.stations t },
    ghost is_second: { second ≤ 60 },
}

// Some of a block's minutes, from its first or from the end of another piece on.
#[derive(Drop)]
struct Piece {
    // Their end.
    end: u32,
    // The unions of the walks that begin in them, if there are any.
    sets: Option<Sets>,
}

impl<'a> Walks<'a> {
    /// The unions of the walks that begin in the minutes from `lo` up to, and without, `hi`. None exactly where there are
    /// none.
    pub fn unions(&self, lo: u32, hi: u32) -> Option<Sets>
        requires order { lo < hi }
        requires from { self.now.window.now.from ≤ lo }
        requires to { hi ≤ self.now.window.now.to }
        requires nears { All (IsKept self.now.station self.now.window.now.seconds) self.now.nears.now }
        requires years { All (IsKept self.now.station self.now.window.now.seconds) self.now.years.now }
        ensures { AreUnionsFrom self.now.window.now self.now.second self.now.station lo hi result }
    {
        let mut sets = None;
        let mut t = lo;
        while t < hi {
            let Piece { end, sets: more } = self.piece(t, hi);
            sets = both(sets, more);
            t = end;
        }
        sets
    }

    // The piece that begins at `t`.
    fn piece(&self, t: u32, hi: u32) -> Piece
        requires order { t < hi }
        requires from { self.now.window.now.from ≤ t }
        requires to { hi ≤ self.now.window.now.to }
        requires nears { All (IsKept self.now.station self.now.window.now.seconds) self.now.nears.now }
        requires years { All (IsKept self.now.station self.now.window.now.seconds) self.now.years.now }
        ensures grows { t < result.end }
        ensures within { result.end ≤ hi }
        ensures unions { AreUnionsFrom self.now.window.now self.now.second self.now.station t result.end result.sets }
    {
        if self.second == LEAP_SECOND {
            return self.from_leap_second(t, hi);
        }
        if let Some(piece) = self.kept_from(self.years, 1, t, hi) {
            return piece;
        }
        if let Some(piece) = self.kept_from(self.nears, 2, t, hi) {
            return piece;
        }
        let leap = next_leap_end(self.civil, t);
        let reach = row_reach(self.window.seconds);
        if t + reach < leap {
            return self.regular(t, hi.min(leap - reach), self.reach());
        }
        Piece {
            end: t + 1,
            sets: self.walk(t),
        }
    }

    // The piece that begins at `t`, of walks that begin with a leap second.
    fn from_leap_second(&self, t: u32, hi: u32) -> Piece
        requires order { t < hi }
        requires from { self.now.window.now.from ≤ t }
        requires to { hi ≤ self.now.window.now.to }
        requires second { self.now.second ≡ 60 }
        ensures grows { t < result.end }
        ensures within { result.end ≤ hi }
        ensures unions { AreUnionsFrom self.now.window.now self.now.second self.now.station t result.end result.sets }
    {
        let leap = next_leap_end(self.civil, t);
        if t < leap {
            return Piece {
                end: leap.min(hi),
                sets: None,
            };
        }
        Piece {
            end: t + 1,
            sets: self.walk(t),
        }
    }

    // The piece of a row that begins at `t`, where that is kept and all its walks end in time. There are `a_year` rows a
    // year, and no year is longer than 366 days.
    fn kept_from(&self, rows: &[Kept], a_year: u32, t: u32, hi: u32) -> Option<Piece>
        requires rows { All (IsKept self.now.station self.now.window.now.seconds) rows.now }
        requires from { self.now.window.now.from ≤ t }
        requires to { hi ≤ self.now.window.now.to }
        requires second { self.now.second < 60 }
        requires few { a_year ≤ 2 }
        ensures grows { IfSome result (λ piece. t < piece.end) }
        ensures within { IfSome result (λ piece. piece.end ≤ hi) }
        ensures unions { IfSome result (λ piece. AreUnionsFrom self.now.window.now self.now.second self.now.station t piece.end piece.sets) }
    {
        let kept = self.row_at(rows, t / LONGEST_YEAR * a_year, t)?;
        if hi < kept.hi {
            return None;
        }
        if self.end < kept.hi + row_reach(self.window.seconds) {
            return None;
        }
        Some(Piece {
            end: kept.hi,
            sets: Some(sets_from(&kept.row, self.second as usize)),
        })
    }

    // The row that begins at `t`, if one does that has at least the number `first`. The rows are in order.
    fn row_at<'b>(&self, rows: &'b [Kept], first: u32, t: u32) -> Option<&'b Kept>
        requires { All (IsKept self.now.station self.now.window.now.seconds) rows.now }
        ensures kept { IfSome result (λ kept. IsKept self.now.station self.now.window.now.seconds kept.now) }
        ensures begins { IfSome result (λ kept. kept.now.lo ≡ t) }
    {
        for i in first as usize..rows.len() {
            if rows[i].lo == t {
                return Some(&rows[i]);
            }
            if rows[i].lo > t {
                return None;
            }
        }
        None
    }

    // How many minutes after its first one a walk reaches that meets no leap second.
    fn reach(&self) -> u32
        ensures value { result ≡ (self.now.second + self.now.window.now.seconds - 1) / 60 }
        ensures few { result ≤ 20 }
    {
        later_minutes(self.window.seconds, self.second)
    }

    // The walks that begin in some minutes and meet no leap second: those that end in time, and then the others.
    fn regular(&self, t: u32, hi: u32, reach: u32) -> Piece
        requires order { t < hi }
        requires from { self.now.window.now.from ≤ t }
        requires to { hi ≤ self.now.window.now.to }
        requires second { self.now.second < 60 }
        requires reach { reach ≡ (self.now.second + self.now.window.now.seconds - 1) / 60 }
        requires short { (u : ℕ) → t ≤ u → u < hi + reach → is_leap_end u ≡ false }
        requires century { hi + reach ≤ century_minutes }
        ensures grows { t < result.end }
        ensures within { result.end ≤ hi }
        ensures unions { AreUnionsFrom self.now.window.now self.now.second self.now.station t result.end result.sets }
    {
        let cut = hi.min(self.end.saturating_sub(reach));
        if cut <= t {
            return Piece {
                end: hi,
                sets: None,
            };
        }
        // The station can encode what all stations of the window can.
        self.unions.parts().end();
        let row = regular_row(self.unions, true, t, cut, reach);
        Piece {
            end: cut,
            sets: Some(sets_from(&row, self.second as usize)),
        }
    }

    // The sets of the walk that begins in a minute, if there is one.
    fn walk(&self, first: u32) -> Option<Sets>
        requires from { self.now.window.now.from ≤ first }
        requires to { first < self.now.window.now.to }
        ensures { AreUnionsFrom self.now.window.now self.now.second self.now.station first (first + 1) result }
    {
        let q = Sequence {
            first,
            second: self.second,
            announced: true,
        };
        if !walkable(self.civil, self.window, &q) {
            return None;
        }
        let tape = tape_of(self.civil, self.station, &q, self.window.seconds as usize);
        Some(sets_from(&tape, 0))
    }
}

// The sets of both, where there are any.
fn both(a: Option<Sets>, b: Option<Sets>) -> Option<Sets>
    ensures { AreOfBoth a b result }
{
    let Some(x) = a else {
        return b;
    };
    let Some(y) = b else {
        return Some(x);
    };
    Some(either(&x, &y))
}

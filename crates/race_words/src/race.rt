//! The race, and the calls with which seats take part in it. None but `make` takes memory, and none waits or refuses.
ghost use Rattle.std.specs.Prelude.{◌≡◌, ℕ, ◌-◌, ◌<◌, ◌≤◌, max, length, All, IfOk};
ghost use Rattle.race_words.specs.Keys.{no_key, two_least};
ghost use Rattle.race_words.specs.Views.{fresh_view, after_draw, after_offer, after_limit, after_limits, after_split, new_view, after_join};
ghost use Rattle.race_words.specs.Events.{most_drawn};
ghost use Rattle.race_words.specs.Sound.{HasEachOnce};

use crate::ends::Ends;
use crate::rule::{
    Cut, Draw, FirstPart, Look, LookOften, Merge, Often, Portion, Running, SecondPart,
};
use crate::seat::Seat;
use crate::view::View;
use atomic_table::Table;
use std::alloc::Global;
use std::marker::{Brand, Model};

// The places of the words in the table.
const DRAWN: usize = 0;

const LEAST: usize = 1;

const SECOND: usize = 2;

/// Why there is no race.
#[derive(Clone, Copy, Debug)]
pub enum RaceFault {
    /// There was no memory.
    NoMemory,
}

/// The three shared words: how many numbers were drawn, and the two least keys.
///
/// Contracts see which race it is, `id`, and its whole share, `workers`.
#[derive(Drop)]
pub struct Race {
    table: Table<(), View, u8, Running, Global>,
}

impl Model for Race {
    ghost use Rattle.std.specs.Prelude.{◌≡◌, ◌≤◌};
    ghost use Rattle.race_words.specs.Held.{RaceSeen};

    ghost Value = { RaceSeen };

    ghost view = { λ r. record { id = r.table.shared.table_id; workers = r.table.shared.key } };

    ghost invariant = { λ r. (r.table.shared.table_id.words ≡ 3) × (r.table.shared.table_id.slots ≡ 0) × (r.table.shared.key ≤ 8) };
}

impl Race {
    /// A race for 1 to 8 workers, and a seat with the whole share. It refuses only for want of memory.
    pub fn make(alloc: Global, workers: u8) -> Result<(Race, Seat), RaceFault>
        requires { (1 ≤ workers) × (workers ≤ 8) }
        ensures race { IfOk result (λ made. made.0.workers ≡ workers) }
        ensures seat { IfOk result (λ made. (made.1.race ≡ made.0.id) × (made.1.view ≡ fresh_view workers)) }
    {
        let Ok((table, place)) = Table::of_words(alloc, &[0, u64::MAX, u64::MAX], &workers) else {
            return Err(RaceFault::NoMemory);
        };
        Ok((Race { table }, Seat { place }))
    }

    /// A new seat, which takes this share of the seat's and knows the same `low` and `floor`. The seat keeps the rest.
    pub fn split(&self, seat: &mut Seat, share: u8) -> Seat
        requires race { seat.old.race ≡ self.now.id }
        requires share { (1 ≤ share) × (share < seat.old.view.share) }
        requires room { length seat.old.view.drawn ≤ most_drawn (seat.old.view.share - share) }
        ensures race { (seat.new.race ≡ seat.old.race) × (result.race ≡ seat.old.race) }
        ensures kept { seat.new.view ≡ after_split share seat.old.view }
        ensures given { result.view ≡ new_view share seat.old.view }
    {
        self.split_by::<Brand>(seat, share)
    }

    // `P` is the share, as the base crate's split names it.
    fn split_by<P: Portion>(&self, seat: &mut Seat, share: u8) -> Seat
        requires portion { P.share ≡ share }
        requires race { seat.old.race ≡ self.now.id }
        requires share { (1 ≤ share) × (share < seat.old.view.share) }
        requires room { length seat.old.view.drawn ≤ most_drawn (seat.old.view.share - share) }
        ensures race { (seat.new.race ≡ seat.old.race) × (result.race ≡ seat.old.race) }
        ensures kept { seat.new.view ≡ after_split share seat.old.view }
        ensures given { result.view ≡ new_view share seat.old.view }
    {
        let _share = share;
        let place = self.table.shared.split_seat::<Cut<P>>(&mut seat.place);
        Seat { place }
    }

    /// Takes the other seat in: its share, and its lists behind the seat's own. Of the keys `low` and `floor` it keeps the lesser.
    pub fn join(&self, seat: &mut Seat, other: Seat)
        requires race { (seat.old.race ≡ self.now.id) × (other.race ≡ self.now.id) }
        ensures race { seat.new.race ≡ seat.old.race }
        ensures view { seat.new.view ≡ after_join seat.old.view other.view }
    {
        let Seat { place } = other;
        self.table.shared.join_seat::<Merge>(&mut seat.place, place);
    }

    /// Draws the next number, counted from 0 over all seats. It is above all that this seat drew before.
    pub fn draw(&self, seat: &mut Seat) -> u64
        requires race { seat.old.race ≡ self.now.id }
        requires room { length seat.old.view.drawn < most_drawn seat.old.view.share }
        ensures race { seat.new.race ≡ seat.old.race }
        ensures view { seat.new.view ≡ after_draw result seat.old.view }
        ensures above { All (λ x. x < result) seat.old.view.drawn }
    {
        let words = &self.table.shared;
        words.fetch_add::<Draw>(&mut seat.place, DRAWN, 1)
    }

    /// Reads the second word: the second-least of all keys that were offered so far, or a greater one while an offer is under way,
    /// or the greatest `u64` where there is none. It is not above the seat's `floor`.
    pub fn limit(&self, seat: &mut Seat) -> u64
        requires race { seat.old.race ≡ self.now.id }
        ensures race { seat.new.race ≡ seat.old.race }
        ensures view { seat.new.view ≡ after_limit result seat.old.view }
        ensures below { result ≤ seat.old.view.floor }
    {
        let words = &self.table.shared;
        words.load::<Look>(&mut seat.place, SECOND)
    }

    /// Reads the second word as `limit` does. The one load counts as one look, and as so many more as `O` tells of what it finds,
    /// all of which found the same. The caller picks `O`, by `Brand`.
    pub fn limit_often<O: Often>(&self, seat: &mut Seat) -> u64
        requires race { seat.old.race ≡ self.now.id }
        ensures race { seat.new.race ≡ seat.old.race }
        ensures view { seat.new.view ≡ after_limits (O.often result) result seat.old.view }
        ensures below { result ≤ seat.old.view.floor }
    {
        let words = &self.table.shared;
        words.load::<LookOften<O>>(&mut seat.place, SECOND)
    }

    /// Offers a key below the greatest `u64`. It lowers the least word to the key, and then the second word to the greater of
    /// the key and what the least word was.
    pub fn offer(&self, seat: &mut Seat, key: u64)
        requires race { seat.old.race ≡ self.now.id }
        requires key { key < no_key }
        ensures race { seat.new.race ≡ seat.old.race }

        // `least` is what the least word was
        ensures view { (least : ℕ) × (least ≤ seat.old.view.low) × (seat.new.view ≡ after_offer key least seat.old.view) }
        ensures low { seat.new.view.low ≤ key }
        ensures floor { seat.new.view.floor ≤ max key seat.old.view.low }
    {
        let words = &self.table.shared;
        let least = words.fetch_min::<FirstPart>(&mut seat.place, LEAST, key);
        let carried = key.max(least);
        words.fetch_min::<SecondPart>(&mut seat.place, SECOND, carried);
    }

    /// Ends the race with the seat that has the whole share, and answers the two least of the keys that it offered.
    pub fn close(self, seat: Seat) -> Ends
        requires race { seat.race ≡ self.id }
        requires whole { seat.view.share ≡ self.workers }
        ensures ends { result ≡ two_least seat.view.offered }
        ensures drawn { HasEachOnce seat.view.drawn }
        ensures floor { result.second ≤ seat.view.floor }
        ensures reads { All (λ key. result.second ≤ key) seat.view.reads }
    {
        let Race { table } = self;
        let Seat { place } = seat;
        let closed = table.close_with(place);
        let least = closed.word(LEAST);
        let second = closed.word(SECOND);
        closed.free();
        Ends { least, second }
    }
}

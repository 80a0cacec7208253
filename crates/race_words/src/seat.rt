//! A seat, which one worker at a time has, and with which it takes part in its race.
use crate::view::View;
use std::marker::Model;

/// A part of a race, which may go to another thread. It takes no bytes, and fits no other race.
///
/// Contracts see which race it is of, `race`, and its `view`.
///
/// Between calls its share is at least 1, it carries nothing, and none of its reads is below its `floor`.
#[derive(Drop)]
pub struct Seat {
    pub(crate) place: atomic_table::Seat<(), View>,
}

impl Model for Seat {
    ghost use Rattle.std.specs.Prelude.{◌≡◌, []};
    ghost use Rattle.race_words.specs.Held.{SeatSeen, IsAtRest};

    ghost Value = { SeatSeen };

    ghost view = { λ s. record { race = s.place.table_id; view = s.place.me.0 } };

    ghost invariant = { λ s. (s.place.me.1 ≡ []) × IsAtRest s.place.me.0 };
}

//! The rule that the running words are under, and what each step tells its seat.
ghost use Rattle.std.specs.Prelude.{ℕ};
ghost use Rattle.race_words.specs.Views.{fresh_view, blank_view, after_split, new_view, after_join};
ghost use Rattle.race_words.specs.Shared.{IsRunning, Draws, Offers, Settles, Looks, LooksOften};

use crate::view::View;
use atomic_table::{Join, Play, Split, TableRule};
use std::marker::{Brand, PhantomData};

/// Some list of events led from the start to the words and views.
pub struct Running;

impl TableRule<(), View, u8> for Running {
    ghost holds = { IsRunning };

    ghost first = { fresh_view };
}

pub(crate) struct Draw;

impl Play<(), View> for Draw {
    ghost then = { Draws };
}

pub(crate) struct FirstPart;

impl Play<(), View> for FirstPart {
    ghost then = { Offers };
}

pub(crate) struct SecondPart;

impl Play<(), View> for SecondPart {
    ghost then = { Settles };
}

pub(crate) struct Look;

impl Play<(), View> for Look {
    ghost then = { Looks };
}

/// How many looks more than one a read counts as, by what it finds. Each call picks it.
pub trait Often {
    ghost often: { ℕ → ℕ };
}

impl Often for Brand {
    ghost often = { λ found. 0 };
}

pub(crate) struct LookOften<O: Often> {
    often: PhantomData<O>,
}

impl<O: Often> Play<(), View> for LookOften<O> {
    ghost then = { LooksOften O.often };
}

/// The share that a split gives away. Each call of a split picks it.
pub(crate) trait Portion {
    ghost share: { ℕ };
}

impl Portion for Brand {
    ghost share = { 0 };
}

pub(crate) struct Cut<P: Portion> {
    portion: PhantomData<P>,
}

impl<P: Portion> Split<View> for Cut<P> {
    ghost left = { after_split P.share };

    ghost right = { new_view P.share };
}

pub(crate) struct Merge;

impl Join<View> for Merge {
    ghost both = { after_join };

    ghost spent = { blank_view };
}

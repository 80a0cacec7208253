//! Tapes: what one walk carries.

ghost use Rattle.std.specs.Prelude.{ℕ, ◌≡◌, ◌<◌, ◌≤◌, slice_index};
ghost use Rattle.definitions.specs.codes.Allowed.{encoded_year};
ghost use Rattle.leap_unions.specs.Tapes.{AreSent};
ghost use Rattle.definitions.specs.sequences.Walks.{IsSequence, place_at, set_at};
ghost use Rattle.definitions.specs.time.Calendar.{century_minutes};

use crate::rows::{MOST_REACH, PLACES};
use civil::Civil;
use definitions::Sequence;
use minute_parts::SECONDS;
use sequence::{next_place, telegram};
use signal_base::Station;

/// The most seconds of a tape: a row's after the minutes that a walk reaches.
pub const TAPE_PLACES: usize = MOST_REACH as usize * SECONDS + PLACES;

/// A set for each second.
pub type Tape = [u8; TAPE_PLACES];

/// What the walk from the first second of the minute `lo` carries. The minute before `hi` is the first of its minutes that ends
/// with a leap second, so that a walk from one of the minutes up to that one is a later part of it.
#[derive(Clone, Copy)]
pub struct KeptTape {
    /// The first of the minutes.
    pub lo: u32,
    /// Their end.
    pub hi: u32,
    /// What the walk carries.
    pub tape: Tape,
}

// What the seconds of a minute carry, of which it has 61 at most.
type Sent = [u8; 61];

/// What the first `count` seconds of a walk carry at a station that can encode their minutes: minute by minute, since their
/// telegrams cost less to ask for than their seconds.
pub fn tape_of(civil: &Civil, station: Station, q: &Sequence, count: usize) -> Tape
    requires sequence { IsSequence q.now }
    requires count { count ≤ TAPE_PLACES }
    requires century { (k : ℕ) → k < count → (place_at q.now k).0 < century_minutes }
    requires encoded { (k : ℕ) → k < count → encoded_year station (place_at q.now k).0 ≤ 2099 }
    ensures { (k : ℕ) → k < count → slice_index result k ≡ set_at station q.now k }
{
    let mut tape = [0; TAPE_PLACES];
    let mut place = (q.first, q.second);
    let mut sent = sent_in(civil, station, q.announced, q.first);
    for k in 0..count {
        come_to(&mut sent, civil, station, q.announced, place);
        tape[k] = sent[place.1 as usize];
        place = next_place(civil, q.announced, place);
    }
    tape
}

// Makes what was sent in the minute of the second before that of this second's minute.
fn come_to(sent: &mut Sent, civil: &Civil, station: Station, announced: bool, place: (u32, u8))
    requires century { place.0 < century_minutes }
    requires same { 0 < place.1 → AreSent station announced place.0 sent.old }
    ensures { AreSent station announced place.0 sent.new }
{
    if place.1 == 0 {
        *sent = sent_in(civil, station, announced, place.0);
    }
}

// What the seconds of a minute carry, if the station can encode it.
#[tactic(auto, using(crate::proofs::SentLaws::are_sent, crate::proofs::SentLaws::none_sent))]
fn sent_in(civil: &Civil, station: Station, announced: bool, t: u32) -> Sent
    requires { t < century_minutes }
    ensures { AreSent station announced t result }
{
    let Some(sets) = telegram(civil, station, t, announced) else {
        return [0; 61];
    };
    sets
}

//! The order in which a sweep comes to its offsets.

ghost use Rattle.std.specs.Prelude.{◌≡◌, ◌<◌, ◌≤◌};
ghost use Rattle.sweep_due.specs.declared.offsets.TheConstants.{OFFSETS, PHASE_LIMIT};
ghost use Rattle.sweep.specs.Turns.{offset_at};

use sweep_due::is_swept;

/// The offset of a decode's own phase.
pub const MIDDLE: u8 = 5;

/// The offset that is come to at a turn.
pub fn offset_at(turn: u8) -> u8
    requires { turn < OFFSETS }
    ensures offset { result ≡ offset_at turn }
    ensures bound { result < OFFSETS }
{
    if turn == 0 {
        return MIDDLE;
    }
    if turn <= MIDDLE {
        return turn - 1;
    }
    turn
}

/// How many of the offsets up to a turn, and without it, are swept, where this is the phase of a decode.
pub fn count_swept(phase: u16, turn: u8) -> u8
    requires phase { phase < PHASE_LIMIT }
    requires turn { turn ≤ OFFSETS }
    ensures { result ≤ turn }
{
    let mut count = 0;
    for earlier in 0..turn {
        if is_swept(phase, offset_at(earlier)) {
            count += 1;
        }
    }
    count
}

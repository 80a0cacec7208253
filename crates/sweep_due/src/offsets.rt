//! The phases that a sweep tries, by their offsets from the phase of a decode.

ghost use Rattle.std.specs.Prelude.{◌≡◌, ◌<◌, ◌≤◌, true};
ghost use Rattle.sweep_due.specs.Phases.{is_swept, phase_at};

/// How many offsets there are. They are numbered from 0 on.
pub const OFFSETS: u8 = 11;

/// How much later each phase is than the one before, in milliseconds.
pub const OFFSET_STEP: u16 = 10;

/// How much earlier the first phase is than that of a decode, in milliseconds.
pub const OFFSET_REACH: u16 = 50;

/// A phase is below this number of milliseconds.
pub const PHASE_LIMIT: u16 = 1_000;

/// Whether the phase at an offset is one, where this is the phase of a decode. No phase is taken round the whole second.
pub fn is_swept(phase: u16, offset: u8) -> bool
    requires phase { phase < PHASE_LIMIT }
    requires offset { offset < OFFSETS }
    ensures { result ≡ is_swept phase offset }
{
    let moved = phase + OFFSET_STEP * offset as u16;
    moved >= OFFSET_REACH && moved < PHASE_LIMIT + OFFSET_REACH
}

/// The phase at an offset that is swept, where this is the phase of a decode.
pub fn phase_at(phase: u16, offset: u8) -> u16
    requires phase { phase < PHASE_LIMIT }
    requires offset { offset < OFFSETS }
    requires swept { is_swept phase offset ≡ true }
    ensures value { result ≡ phase_at phase offset }
    ensures bound { result < PHASE_LIMIT }
{
    phase + OFFSET_STEP * offset as u16 - OFFSET_REACH
}

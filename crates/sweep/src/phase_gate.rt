//! What is told of the phases that are tried.

use workers::NoGate;

/// Is passed each time that a phase is come to, before it is searched.
pub trait PhaseGate {
    /// The number of the phase, counted from 1, and how many there are.
    fn come_to_phase(&self, phase: u8, phases: u8);
}

impl PhaseGate for NoGate {
    fn come_to_phase(&self, _phase: u8, _phases: u8) {}
}

//! What is told of the windows that are decoded.

use workers::NoGate;

/// Is passed each time that a window is come to, before it is searched.
pub trait WindowGate {
    /// The number of the window, counted from 1, and how many there are.
    fn come_to(&self, window: u16, windows: u16);
}

impl WindowGate for NoGate {
    fn come_to(&self, _window: u16, _windows: u16) {}
}

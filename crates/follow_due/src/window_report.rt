//! What is told of one window.

use definitions::Answer;
use due::Duts;
use signal_base::Window;

/// The answer for a window.
#[derive(Drop)]
pub struct WindowReport {
    /// The window.
    pub window: Window,
    /// The answer.
    pub answer: Answer,
    /// What each station of the window tells of DUT1, where the answer is decided.
    pub duts: Duts,
}

//! What the seconds of a minute carry, as far as one part of its telegram says.

use crate::limits::SECONDS_PER_MINUTE;

/// A set of symbols for each second of a minute: bit `x` stands for symbol `x`, 255 for a second that isn't scored, and
/// 0 for a second of which this part says nothing. Neither of the two costs anything.
pub type Part = [u8; SECONDS_PER_MINUTE];

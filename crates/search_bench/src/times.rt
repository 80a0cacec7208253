//! Times in nanoseconds.

ghost use Rattle.std.specs.Prelude.{◌<◌};

use crate::fault::Fault;
use std::rt::Clock;
use std::time::Instant;

/// The nanoseconds since then.
pub fn nanoseconds<C: Clock>(clock: &C, begin: Instant) -> Result<u64, Fault> {
    let nanoseconds = begin.elapsed(clock)?.as_nanos();
    Ok(nanoseconds.min(u64::MAX as u128) as u64)
}

/// Prints a number under its name.
pub fn tell<R: Print>(rt: &R, name: &str, number: u64) -> Result<(), Fault> {
    println!(rt; "{name} {number}")?;
    Ok(())
}

/// Prints under its name how many picoseconds each took of so many, and nothing where there are none.
pub fn tell_each<R: Print>(rt: &R, name: &str, nanoseconds: u64, count: u64) -> Result<(), Fault> {
    if count == 0 {
        return Ok(());
    }
    tell(rt, name, nanoseconds.saturating_mul(PICOSECONDS) / count)
}

// The picoseconds of a nanosecond.
const PICOSECONDS: u64 = 1000;

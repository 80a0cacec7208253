//! The century's last minutes, as the published example of a certificate has them: a receiver of DCF77 heard nothing, and a walk of
//! 60 seconds can begin in one minute alone.

use definitions::CENTURY_MINUTES;
use std::alloc::{AllocError, Global};

// From 22:59Z on the year that DCF77 encodes is 2100, so the walks of 60 seconds that are encoded begin with second 0
// of 22:58Z.
pub(crate) const FROM: u32 = 52_595_938;

// The head, and the steps up to the years in which nothing is legal.
pub(crate) const HEAD: &str =
    "tsbank certificate 1\nstation dcf77\nstart 0\nphase 0\nseconds 60\nfrom 52595938\nto 52596000\nceiling 1920000000\nfirst 52595938\nsecond -\nworker 0\n";

const PLAIN: &str =
    "O Y 0 0 52595938 52596000 0\nO D 0 0 52595938 52596000 0\nO H 0 0 52595938 52595940 0\nL M 0 0 52595938 52595939 0\nE M 0 0 52595939 52595940 -\nE H 0 0 52595940 52596000 -\n";

const ANNOUNCED: &str =
    "O Y 1 0 52595938 52596000 0\nO D 1 0 52595938 52596000 0\nO H 1 0 52595938 52595940 0\nE M 1 0 52595938 52595939 -\nE M 1 0 52595939 52595940 -\nE H 1 0 52595940 52596000 -\n";

// The certificate, of so many parts. Of one it has 143 lines, of which line 12 is the first step.
pub(crate) fn text_of(alloc: Global, parts: u8) -> Result<String, AllocError> {
    let mut text = String::new(alloc);
    write!(text, "{HEAD}{PLAIN}")?;
    for second in 1..60 {
        write!(text, "E Y 0 {second} {FROM} {CENTURY_MINUTES} -\n")?;
    }
    write!(text, "{ANNOUNCED}")?;
    for second in 1..61 {
        write!(text, "E Y 1 {second} {FROM} {CENTURY_MINUTES} -\n")?;
    }
    for part in 1..parts {
        write!(text, "worker {part}\n")?;
    }
    write!(text, "end\n")?;
    Ok(text)
}

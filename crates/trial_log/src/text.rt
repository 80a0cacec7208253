//! The lines of a log.

ghost use Rattle.std.specs.Prelude.{◌≡◌, ◌++◌, OnOk};
ghost use Rattle.formats.specs.LogLines.{letter};
ghost use Rattle.trial_log.specs.Clean.{record_line};

use definitions::Level;
use itoa::Buffer;
use std::alloc::AllocError;

/// Adds the line of a record.
pub fn push_record(text: &mut Vec<u8>, time: u64, level: Level) -> Result<(), AllocError>
    ensures { OnOk result (text.new.items ≡ text.old.items ++ record_line (time, level)) }
{
    let mut buffer = Buffer::new();
    text.extend_from_slice(buffer.format(time).as_bytes())?;
    text.push(b' ')?;
    text.push(letter_of(level))?;
    text.push(b'\n')?;
    Ok(())
}

fn letter_of(level: Level) -> u8
    ensures { result ≡ letter level }
{
    match level {
        Level::High => b'H',
        Level::Low => b'L',
        Level::Unknown => b'X',
    }
}

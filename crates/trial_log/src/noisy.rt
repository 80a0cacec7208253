//! What a receiver with noise hears.

ghost use Rattle.std.specs.Prelude.{◌≡◌, IfOk, if◌then◌else◌};
ghost use Rattle.rand_pcg.specs.Pcg.{pcg32};
ghost use Rattle.trial_log.specs.Clean.{log_text};
ghost use Rattle.trial_log.specs.Trials.{moved, moved_time, noise_of, stays};

use crate::MOST_SHIFT;
use crate::text::push_record;
use definitions::Level;
use rand_core::utils::NextWord;
use rand_pcg::Pcg32;
use std::alloc::{AllocError, Global};

/// The text of a clean log with the noise of a receiver, which is counted from 0.
pub fn noisy_text(
    alloc: Global,
    clean: &[(u32, Level)],
    number: u32,
    receiver: u8,
) -> Result<Vec<u8>, AllocError>
    ensures { IfOk result (λ text. text.items ≡ log_text (moved (noise_of number receiver) clean.now)) }
{
    let mut noise = Pcg32::new(number as u64, receiver as u64);
    let mut text = Vec::new(alloc);
    let Some((first, rest)) = clean.split_first() else {
        return Ok(text);
    };
    push_record(&mut text, first.0 as u64, first.1)?;
    for (i, record) in rest.iter().enumerate() {
        let is_last = i + 1 == rest.len();
        let time = heard_time(&mut noise, is_last, record.0);
        push_record(&mut text, time, record.1)?;
    }
    Ok(text)
}

// When a record after the first is heard: as it stands, or moved by the next word of noise.
fn heard_time(noise: &mut Pcg32, is_last: bool, time: u32) -> u64
    ensures time { result ≡ (if stays is_last time then time else moved_time (pcg32 noise.old).0 time) }
    ensures noise { noise.new ≡ (if stays is_last time then noise.old else (pcg32 noise.old).1) }
{
    if is_last || time % 1000 == 0 {
        return time as u64;
    }
    let shift = noise.next_word() % (2 * MOST_SHIFT + 1);
    // Such a record stands at 100 ms or later, so the difference isn't cut off.
    (time as u64 + shift as u64).saturating_sub(MOST_SHIFT as u64)
}

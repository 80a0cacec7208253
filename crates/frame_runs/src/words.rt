//! What the words of the command line ask of the commands of frames.

ghost use Rattle.std.specs.Prelude.{◌≡◌, Err, IfOk, MatchResult};
ghost use Rattle.bank_words.specs.Seen.{texts_of};
ghost use Rattle.due.specs.FrameOrders.{frame_order_in};
ghost use Rattle.frame_runs.specs.Tasks.{Asks, IsInRange};

use bank_words::{Reach, read_reach};
use formats::{Asked, WordFault};

/// What is to be done. All texts are borrowed from the words.
#[derive(Clone, Copy)]
pub enum FrameTask<'a> {
    /// Print the frames of the answer for a bank.
    Print {
        /// The name of the configuration's file.
        config: &'a str,
        /// Which window is asked about.
        asked: Asked,
        /// How many workers search, 1 to 8.
        workers: u8,
    },
    /// Print what the frames in a file tell.
    Read {
        /// The name of the file.
        file: &'a str,
    },
}

/// What the words ask for. Words of any other command are refused as usage.
pub fn task_of(words: &[String]) -> Result<FrameTask<'_>, WordFault>
    ensures task { MatchResult result (Asks (texts_of words.now)) (λ fault. frame_order_in (texts_of words.now) ≡ Err fault) }
    ensures in_range { IfOk result IsInRange }
{
    let order = read_reach(words)?;
    match order {
        Reach::Irig {
            config,
            asked,
            workers,
        } => Ok(FrameTask::Print {
            config,
            asked,
            workers,
        }),
        Reach::IrigRead { file } => Ok(FrameTask::Read { file }),
        Reach::Follow { .. } | Reach::Sweep { .. } | Reach::Judge { .. } | Reach::Board { .. } => {
            Err(WordFault::Usage)
        }
    }
}

//! What the words of the command line ask of `follow`.

ghost use Rattle.std.specs.Prelude.{◌≡◌, Err, IfOk, MatchResult};
ghost use Rattle.bank_words.specs.Seen.{texts_of};
ghost use Rattle.follow_due.specs.FollowOrders.{follow_order_in};
ghost use Rattle.follow.specs.Tasks.{Asks, IsInRange};

use bank_words::{Reach, read_reach};
use formats::{Asked, WordFault};

/// What is to be done. The file's name is borrowed from the words.
#[derive(Clone, Copy)]
pub struct FollowTask<'a> {
    /// The name of the configuration's file.
    pub config: &'a str,
    /// Which window is the first.
    pub asked: Asked,
    /// How many workers search, 1 to 8.
    pub workers: u8,
    /// How many seconds each window starts after the one before, 1 to 1,200.
    pub step: u16,
    /// How many windows there are, 1 to 1,000.
    pub count: u16,
}

/// What the words ask for. Words of any other command are refused as usage.
pub fn task_of(words: &[String]) -> Result<FollowTask<'_>, WordFault>
    ensures task { MatchResult result (Asks (texts_of words.now)) (λ fault. follow_order_in (texts_of words.now) ≡ Err fault) }
    ensures in_range { IfOk result IsInRange }
{
    let order = read_reach(words)?;
    match order {
        Reach::Follow {
            config,
            asked,
            workers,
            step,
            count,
        } => Ok(FollowTask {
            config,
            asked,
            workers,
            step,
            count,
        }),
        Reach::Sweep { .. }
        | Reach::Judge { .. }
        | Reach::Board { .. }
        | Reach::Irig { .. }
        | Reach::IrigRead { .. } => Err(WordFault::Usage),
    }
}

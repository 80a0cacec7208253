//! What the words of the command line ask of `judge`.

ghost use Rattle.std.specs.Prelude.{◌≡◌, Err, IfOk, MatchResult};
ghost use Rattle.bank_words.specs.Seen.{texts_of};
ghost use Rattle.judge_due.specs.JudgeOrders.{judge_order_in};
ghost use Rattle.judges.specs.Tasks.{Asks, IsInRange};

use bank_words::{Reach, read_reach};
use formats::{Asked, WordFault};

/// What is to be done. The names are borrowed from the words.
#[derive(Clone, Copy)]
pub struct JudgeTask<'a> {
    /// The name of the configuration's file.
    pub config: &'a str,
    /// How the names of the certificates' files begin: a dot and the offset stand behind it.
    pub name: &'a str,
    /// Which window was swept.
    pub asked: Asked,
}

/// What the words ask for. Words of any other command are refused as usage.
pub fn task_of(words: &[String]) -> Result<JudgeTask<'_>, WordFault>
    ensures task { MatchResult result (Asks (texts_of words.now)) (λ fault. judge_order_in (texts_of words.now) ≡ Err fault) }
    ensures in_range { IfOk result IsInRange }
{
    let order = read_reach(words)?;
    match order {
        Reach::Judge {
            config,
            certificate,
            asked,
        } => Ok(JudgeTask {
            config,
            name: certificate,
            asked,
        }),
        Reach::Follow { .. }
        | Reach::Sweep { .. }
        | Reach::Board { .. }
        | Reach::Irig { .. }
        | Reach::IrigRead { .. } => Err(WordFault::Usage),
    }
}

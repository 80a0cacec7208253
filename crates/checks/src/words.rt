//! What the words of the command line ask of `check`.

ghost use Rattle.std.specs.Prelude.{◌≡◌, Err, IfOk, MatchResult};
ghost use Rattle.bank_words.specs.Seen.{texts_of};
ghost use Rattle.check_due.specs.CheckOrders.{check_order_in};
ghost use Rattle.checks.specs.Tasks.{Asks, IsInRange};

use bank_words::{Order, read_words};
use formats::{Asked, WordFault};

/// What is to be done. The files' names are borrowed from the words.
#[derive(Clone, Copy)]
pub struct CheckTask<'a> {
    /// The name of the configuration's file.
    pub config: &'a str,
    /// The name of the certificate's file.
    pub certificate: &'a str,
    /// Which window it is to be of.
    pub asked: Asked,
}

/// What the words ask for. Words of any other command are refused as usage.
pub fn task_of(words: &[String]) -> Result<CheckTask<'_>, WordFault>
    ensures task { MatchResult result (Asks (texts_of words.now)) (λ fault. check_order_in (texts_of words.now) ≡ Err fault) }
    ensures in_range { IfOk result IsInRange }
{
    let order = read_words(words)?;
    match order {
        Order::Check {
            config,
            certificate,
            asked,
        } => Ok(CheckTask {
            config,
            certificate,
            asked,
        }),
        Order::Decode { .. } | Order::Feed { .. } | Order::Encode { .. } | Order::Trial { .. } =>
            Err(WordFault::Usage),
    }
}

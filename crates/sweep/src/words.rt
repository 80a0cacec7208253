//! What the words of the command line ask of `sweep`.

ghost use Rattle.std.specs.Prelude.{◌≡◌, Err, IfOk, MatchResult};
ghost use Rattle.bank_words.specs.Seen.{texts_of};
ghost use Rattle.sweep_due.specs.SweepOrders.{sweep_order_in};
ghost use Rattle.sweep.specs.Tasks.{AsksWork, IsWorkInRange};

use bank_words::{Reach, read_reach};
use formats::{Asked, WordFault};

/// What is to be swept. The file's name is borrowed from the words.
#[derive(Clone, Copy)]
pub struct SweepTask<'a> {
    /// The name of the configuration's file.
    pub config: &'a str,
    /// Which window is decoded.
    pub asked: Asked,
    /// How many workers search, 1 to 8.
    pub workers: u8,
}

/// A sweep that writes certificates.
#[derive(Clone, Copy)]
pub struct SweepCertify<'a> {
    /// What is to be swept.
    pub task: SweepTask<'a>,
    /// How the names of the certificates' files begin. It is borrowed from the words.
    pub name: &'a str,
}

/// What is to be done.
#[derive(Clone, Copy)]
pub enum SweepWork<'a> {
    /// To tell the swept answer.
    Tell {
        /// Of what.
        task: SweepTask<'a>,
    },
    /// To write certificates before.
    Certify {
        /// Of what.
        certify: SweepCertify<'a>,
    },
}

/// What the words ask for. Words of any other command are refused as usage.
pub fn work_of(words: &[String]) -> Result<SweepWork<'_>, WordFault>
    ensures work { MatchResult result (AsksWork (texts_of words.now)) (λ fault. sweep_order_in (texts_of words.now) ≡ Err fault) }
    ensures in_range { IfOk result IsWorkInRange }
{
    let order = read_reach(words)?;
    match order {
        Reach::Sweep {
            config,
            asked,
            workers,
            certificate,
        } => {
            let task = SweepTask {
                config,
                asked,
                workers,
            };
            match certificate {
                Some(name) => Ok(SweepWork::Certify {
                    certify: SweepCertify { task, name },
                }),
                None => Ok(SweepWork::Tell { task }),
            }
        }
        Reach::Follow { .. }
        | Reach::Judge { .. }
        | Reach::Board { .. }
        | Reach::Irig { .. }
        | Reach::IrigRead { .. } => Err(WordFault::Usage),
    }
}

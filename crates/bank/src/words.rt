//! What the words of the command line ask a run to do.

ghost use Rattle.std.specs.Prelude.{◌≡◌, Err, IfOk, MatchResult};
ghost use Rattle.bank_words.specs.Seen.{texts_of};
ghost use Rattle.due.specs.Orders.{order_in, word_refusal};
ghost use Rattle.bank.specs.Tasks.{AsksWork, IsWorkInRange};

use bank_words::{Order, read_words};
use formats::{Asked, Refusal, WordFault};
use signal_base::Station;

/// How the answer for a bank is told.
#[derive(Clone, Copy)]
pub enum Wanted {
    /// The report of its answer.
    Report,
    /// The sentences of its answer, where it is decided.
    Sentences,
}

/// A decode that writes a certificate. All texts are borrowed from the words.
#[derive(Clone, Copy)]
pub struct Certify<'a> {
    /// The name of the configuration's file.
    pub config: &'a str,
    /// Which window is asked about.
    pub asked: Asked,
    /// How many workers search, 1 to 8.
    pub workers: u8,
    /// The name of the certificate's file.
    pub name: &'a str,
}

/// What a run is asked to do.
#[derive(Clone, Copy)]
pub enum Work<'a> {
    /// To find what is due, and to tell it.
    Tell {
        /// What is due of what.
        task: Task<'a>,
    },
    /// To write a certificate besides.
    Certify {
        /// Of what.
        certify: Certify<'a>,
    },
}

/// What a run is asked to tell. All texts are borrowed from the words.
#[derive(Clone, Copy)]
pub enum Task<'a> {
    /// Decode the logs of a configuration.
    Decode {
        /// The name of the configuration's file.
        config: &'a str,
        /// Which window is asked about.
        asked: Asked,
        /// What is wanted of its bank.
        wanted: Wanted,
        /// How many workers search, 1 to 8.
        workers: u8,
    },
    /// List what a station sends in a minute.
    List {
        /// The station.
        station: Station,
        /// The minute, counted from 2000-01-01T00:00Z.
        minute: u32,
        /// Whether a leap second is announced.
        announced: bool,
    },
    /// Decode logs that are made from a number.
    Try {
        /// The number.
        number: u32,
        /// How many workers search, 1 to 8.
        workers: u8,
    },
}

/// What the words ask for. The check of a certificate is a command of its own, so that words that ask for one are refused as usage.
pub fn work_of(words: &[String]) -> Result<Work<'_>, WordFault>
    ensures work { MatchResult result (AsksWork (texts_of words.now)) (λ fault. order_in (texts_of words.now) ≡ Err fault) }
    ensures in_range { IfOk result IsWorkInRange }
{
    let order = read_words(words)?;
    match order {
        Order::Decode {
            config,
            asked,
            workers,
            certificate,
        } => match certificate {
            Some(name) => Ok(Work::Certify {
                certify: Certify {
                    config,
                    asked,
                    workers,
                    name,
                },
            }),
            None => Ok(Work::Tell {
                task: Task::Decode {
                    config,
                    asked,
                    wanted: Wanted::Report,
                    workers,
                },
            }),
        },
        Order::Check { .. } => Err(WordFault::Usage),
        Order::Feed {
            config,
            asked,
            workers,
        } => Ok(Work::Tell {
            task: Task::Decode {
                config,
                asked,
                wanted: Wanted::Sentences,
                workers,
            },
        }),
        Order::Encode {
            station,
            minute,
            leap,
        } => Ok(Work::Tell {
            task: Task::List {
                station,
                minute,
                announced: leap,
            },
        }),
        Order::Trial { number, workers } => Ok(Work::Tell {
            task: Task::Try { number, workers },
        }),
    }
}

/// The line that refused words get.
pub fn word_refusal(fault: WordFault) -> Refusal
    ensures { result ≡ word_refusal fault }
{
    match fault {
        WordFault::Usage => Refusal::WordsUsage,
        WordFault::BadNumber { option } => Refusal::WordsBad { option },
        WordFault::BadMinute { option } => Refusal::WordsBad { option },
        WordFault::EmptyRange => Refusal::WordsEmptyRange,
    }
}

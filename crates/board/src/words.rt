//! What the words of the command line ask of `board`.

ghost use Rattle.std.specs.Prelude.{◌≡◌, Err, IfOk, MatchResult};
ghost use Rattle.bank_words.specs.Seen.{texts_of};
ghost use Rattle.board_due.specs.BoardOrders.{board_order_in};
ghost use Rattle.board.specs.Tasks.{Asks, IsInRange};

use bank_words::{Reach, read_reach};
use formats::{Asked, WordFault};

/// What is to be done. The names of files are borrowed from the words.
#[derive(Clone, Copy)]
pub struct BoardTask<'a> {
    /// The name of the configuration's file.
    pub config: &'a str,
    /// The name of the file of the queries.
    pub queries: &'a str,
    /// Which window is the first.
    pub asked: Asked,
    /// How many workers search, 1 to 8.
    pub workers: u8,
    /// How many seconds each window starts after the one before, 1 to 1,200.
    pub step: u16,
    /// How many windows there are, 1 to 1,000.
    pub count: u16,
    /// How many askers there are, 1 to 4.
    pub readers: u8,
}

/// What the words ask for. Words of any other command are refused as usage.
pub fn task_of(words: &[String]) -> Result<BoardTask<'_>, WordFault>
    ensures task { MatchResult result (Asks (texts_of words.now)) (λ fault. board_order_in (texts_of words.now) ≡ Err fault) }
    ensures in_range { IfOk result IsInRange }
{
    let order = read_reach(words)?;
    match order {
        Reach::Board {
            config,
            queries,
            asked,
            workers,
            step,
            count,
            readers,
        } => Ok(BoardTask {
            config,
            queries,
            asked,
            workers,
            step,
            count,
            readers,
        }),
        Reach::Follow { .. }
        | Reach::Sweep { .. }
        | Reach::Judge { .. }
        | Reach::Irig { .. }
        | Reach::IrigRead { .. } => Err(WordFault::Usage),
    }
}

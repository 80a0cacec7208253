//! A certificate's file, read in pieces. Nothing of it is kept but what its checker keeps.

ghost use Rattle.std.specs.Prelude.{◌≡◌, ◌≢◌, ◌<◌, ◌≤◌, IfOk, OnErr, OnOk, length};
ghost use Rattle.signal_base.specs.declared.limits.TheConstants.{GREATEST_COST};
ghost use Rattle.bank_files.specs.Seen.{OnlyReads, ReadFails, SameCounts};
ghost use Rattle.bank_files.specs.Told.{output_name};
ghost use Rattle.definitions.specs.answers.Blocks.{items};
ghost use Rattle.field_tables.specs.Scored.{costs_of};
ghost use Rattle.certificate_judge.specs.Outcomes.{IsOutcome};
ghost use Rattle.bank.specs.Loading.{IsReadAs};

use bank_files::{Failed, Files};
use bounds::Block;
use certificate_judge::{Checker, Outcome};
use certificates::CERTIFICATE_LIMIT;
use field_tables::Tables;

/// What comes of the bytes of a file, by way of a piece of them. It is read to its end, or up to the piece in which it has more than
/// 128,000,000 bytes. The list has all items of the tables' window, in their own order. It takes no memory.
pub fn judge_file<F: Files>(
    files: &mut F,
    name: &str,
    piece: &mut [u8],
    tables: &Tables,
    list: &[Block],
    ceiling: u32,
) -> Result<Outcome, Failed>
    requires name { name.now ≢ output_name }
    requires room { 0 < length piece.old }
    requires items { list.now ≡ items tables.now.window }
    requires ceiling { ceiling ≤ GREATEST_COST }
    ensures outcome { IfOk result (λ outcome. IsReadAs (F.view files.old) name.now (λ bytes. IsOutcome (costs_of tables.now) tables.now.window ceiling bytes outcome)) }
    ensures failed { OnErr result (ReadFails name.now (F.view files.old) (F.view files.new)) }
    ensures same_counts { OnOk result (SameCounts (F.view files.old) (F.view files.new)) }
    ensures only { OnlyReads (F.view files.old) (F.view files.new) }
{
    let mut checker = Checker::make(tables, list, ceiling);
    let mut at = 0u64;
    loop {
        let n = files.read_at(name, at, piece)?;
        if n == 0 {
            return Ok(checker.finish());
        }
        if n as u64 > CERTIFICATE_LIMIT - at {
            return Ok(Outcome::TooLarge);
        }
        checker.push(&piece[..n]);
        at += n as u64;
    }
}

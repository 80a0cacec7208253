//! What is told of a file of queries. Nothing here writes to a file.

ghost use Rattle.std.specs.Prelude.{◌≡◌, ◌≢◌, ◌≤◌, Err, IfErr, IfOk, IsErrOf, length};
ghost use Rattle.bank_files.specs.Seen.{OnlyReads, ReadFails, SameCounts};
ghost use Rattle.bank_files.specs.Told.{output_name};
ghost use Rattle.bank.specs.Loading.{IsReadAs};
ghost use Rattle.bank.specs.declared.stop.Stop.TheVariants as stops;
ghost use Rattle.board_due.specs.declared.queries.TheConstants.{QUERIES_LIMIT};
ghost use Rattle.board_due.specs.Queries.{IsToldOf};
ghost use Rattle.board.specs.Asking.{told_seen};

use bank::Stop;
use bank_files::{Files, ReadWhole, read_whole};
use board_due::{Numbers, QUERIES_LIMIT};
use board_queries::read_queries;
use std::alloc::Global;

/// What is told of a text of queries.
#[derive(Drop)]
pub enum QueryText {
    /// It is too large.
    TooLarge,
    /// Its first bad line.
    BadLine {
        /// The line's number, from 1.
        line: u32,
    },
    /// Its queries.
    Read {
        /// The queries.
        queries: Numbers,
    },
}

/// What the queries in a file are, or that they are refused.
pub fn read_text<F: Files>(alloc: Global, files: &mut F, file: &str) -> Result<QueryText, Stop>
    requires { file.now ≢ output_name }
    ensures told { IfOk result (λ text. IsReadAs (F.view files.old) file.now (λ bytes. IsToldOf bytes (told_seen text))) }
    ensures failed { IsErrOf result Stop.Failed → ReadFails file.now (F.view files.old) (F.view files.new) }
    ensures same_counts { result ≢ Err Stop.Failed → SameCounts (F.view files.old) (F.view files.new) }
    ensures only { OnlyReads (F.view files.old) (F.view files.new) }
{
    match read_whole(alloc, files, file, QUERIES_LIMIT as u64) {
        Ok(bytes) => told_of(alloc, bytes.as_slice()),
        Err(ReadWhole::Failed) => Err(Stop::Failed),
        Err(ReadWhole::NoMemory) => Err(Stop::NoMemory),
        Err(ReadWhole::TooLarge) => Ok(QueryText::TooLarge),
    }
}

// What is told of these bytes.
fn told_of(alloc: Global, bytes: &[u8]) -> Result<QueryText, Stop>
    requires { length bytes.now ≤ QUERIES_LIMIT }
    ensures told { IfOk result (λ text. IsToldOf bytes.now (told_seen text)) }
    ensures memory { IfErr result (λ stop. stop ≡ stops.NoMemory) }
{
    match read_queries(alloc, bytes) {
        Ok(queries) => Ok(QueryText::Read {
            queries: Numbers::new(queries),
        }),
        Err(fault) => match fault.bad_line() {
            None => Err(Stop::NoMemory),
            Some(line) => Ok(QueryText::BadLine { line }),
        },
    }
}

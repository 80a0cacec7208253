//! Reading texts of queries.

ghost use Rattle.std.specs.Prelude.{◌≡◌, ◌<◌, ◌≤◌, ◌++◌, ℕ, List, IfOk, IfErr, MatchResult, length};
ghost use Rattle.board_due.specs.declared.queries.TheConstants.{MOST_QUERIES, QUERIES_LIMIT};
ghost use Rattle.board_due.specs.Queries.{IsQuery, IsRefused, IsTextOf, query_line};
ghost use Rattle.board_queries.specs.declared.fault.QueryFault.TheVariants.{NoMemory};
ghost use Rattle.board_queries.specs.Reading.{IsFaultAt, IsFaultOf, NamesLine};

use crate::QueryFault;
use crate::line::query_in;
use board_due::MOST_QUERIES;
use std::alloc::Global;

/// Reads a text of queries, of at most 200,000 bytes: at most 10,000 lines, each a number of one to twelve digits without a needless
/// zero, and its end. The first line that isn't such a one decides, or the 10,001st. `NoMemory` comes only for want of memory.
pub fn read_queries(alloc: Global, bytes: &[u8]) -> Result<Vec<u64>, QueryFault>
    requires { length bytes.now ≤ QUERIES_LIMIT }

    // What is read is written as this text; a fault names the first bad line.
    ensures accepted { IfOk result (λ queries. IsTextOf queries.items bytes.now) }
    ensures refused { IfErr result (IsFaultOf bytes.now) }

    // The text of any queries is read, and each other text is refused for its first bad line, unless memory runs out.
    ensures every_text { (queries : List ℕ) → IsTextOf queries bytes.now
        → MatchResult result (λ read. read.items ≡ queries) (λ fault. fault ≡ NoMemory) }
    ensures every_fault { (number : ℕ) → IsRefused bytes.now number → MatchResult result (λ _. ⊥) (NamesLine number) }
{
    read_all(alloc, bytes)
}

// The queries of the text.
fn read_all(alloc: Global, bytes: &[u8]) -> Result<Vec<u64>, QueryFault>
    ensures accepted { IfOk result (λ queries. IsTextOf queries.items bytes.now) }
    ensures refused { IfErr result (IsFaultOf bytes.now) }
{
    let mut queries = Vec::new(alloc);
    let mut rest = bytes;
    while !rest.is_empty() {
        let (ms, more) = next_query(queries.len(), rest)?;
        queries.push(ms)?;
        rest = more;
    }
    Ok(queries)
}

// The query that comes next, behind so many, and the text after its line.
fn next_query(read: usize, text: &[u8]) -> Result<(u64, &[u8]), QueryFault>
    requires { read ≤ MOST_QUERIES }
    ensures query { IfOk result (λ found. IsQuery found.0) }
    ensures line { IfOk result (λ found. text.now ≡ query_line found.0 ++ found.1.now) }
    ensures room { IfOk result (λ found. read < MOST_QUERIES) }
    ensures refused { IfErr result (IsFaultAt read text.now) }
{
    let line = read as u32 + 1;
    let Some((ms, rest)) = query_in(text) else {
        return Err(QueryFault::Shape { line });
    };
    if read >= MOST_QUERIES {
        return Err(QueryFault::Shape { line });
    }
    Ok((ms, rest))
}

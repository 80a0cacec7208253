//! The line of a query: a number of at most twelve digits, and its end.

ghost use Rattle.std.specs.Prelude.{◌≡◌, ◌==◌, ◌++◌, ℕ, IfSome, IfNone};
ghost use Rattle.std.specs.List.{position};
ghost use Rattle.formats.specs.Bytes.{line_feed};
ghost use Rattle.board_due.specs.Queries.{BeginsWithQuery, IsQuery, query_line};
ghost use Rattle.board_queries.specs.Reading.{SpellsQuery};

use board_due::QUERY_LIMIT;
use irig_frames::time_in;

/// The query with which a text begins, and the text after its line.
pub fn query_in(text: &[u8]) -> Option<(u64, &[u8])>
    ensures query { IfSome result (λ found. IsQuery found.0) }
    ensures line { IfSome result (λ found. text.now ≡ query_line found.0 ++ found.1.now) }
    ensures none { IfNone result (¬ (BeginsWithQuery text.now)) }
{
    let end = line_end(text)?;
    let ms = query_on(&text[..end])?;
    Some((ms, &text[end + 1..]))
}

// Where the first LF of a text stands.
fn line_end(text: &[u8]) -> Option<usize>
    ensures { result ≡ position (λ byte. byte == line_feed) text.now }
{
    text.iter().position(|byte| *byte == b'\n')
}

// The query on a line without its LF.
fn query_on(line: &[u8]) -> Option<u64>
    ensures query { IfSome result (SpellsQuery line.now) }
    ensures none { IfNone result ((ms : ℕ) → ¬ (SpellsQuery line.now ms)) }
{
    let ms = time_in(line)?;
    if ms >= QUERY_LIMIT {
        return None;
    }
    Some(ms)
}

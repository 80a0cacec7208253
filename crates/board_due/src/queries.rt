//! The limits of a text of queries.

/// A text of queries has at most so many bytes.
pub const QUERIES_LIMIT: usize = 200_000;

/// It has at most so many lines.
pub const MOST_QUERIES: usize = 10_000;

/// Each query is a millisecond below this one: a number of at most twelve digits.
pub const QUERY_LIMIT: u64 = 1_000_000_000_000;

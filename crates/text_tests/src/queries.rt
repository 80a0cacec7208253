//! Texts of queries, accepted and refused. Where a text is refused is counted by hand.

use crate::made::check_row;
use board_queries::{MOST_QUERIES, QUERIES_LIMIT, QueryFault, read_queries};
use std::alloc::{AllocError, Global};
use std::test::Fail;

// So many lines `7`, and a line `8`.
fn sevens(alloc: Global, count: usize) -> Result<Vec<u8>, AllocError> {
    let mut text = Vec::new(alloc);
    for _ in 0..count {
        text.extend_from_slice(b"7\n")?;
    }
    text.extend_from_slice(b"8\n")?;
    Ok(text)
}

// What is read of a text that isn't too large.
fn read(alloc: Global, text: &[u8]) -> Option<Result<Vec<u64>, QueryFault>> {
    if text.len() > QUERIES_LIMIT {
        return None;
    }
    Some(read_queries(alloc, text))
}

fn is_read(alloc: Global, text: &[u8], queries: &[u64]) -> bool {
    match read(alloc, text) {
        Some(Ok(found)) => found.as_slice() == queries,
        _ => false,
    }
}

// How many queries a text has, or why it is refused.
fn count_in(alloc: Global, text: &[u8]) -> Option<Result<usize, QueryFault>> {
    match read(alloc, text)? {
        Ok(found) => Some(Ok(found.len())),
        Err(fault) => Some(Err(fault)),
    }
}

#[test]
fn reads_queries(rt: HostRuntime) {
    for (text, queries) in [
        (b"".as_slice(), [].as_slice()),
        (b"0\n", &[0]),
        (
            b"0\n60000\n179999\n180000\n",
            &[0, 60_000, 179_999, 180_000],
        ),
        (b"999999999999\n5\n5\n", &[999_999_999_999, 5, 5]),
    ] {
        assert!(rt; is_read(rt.alloc(), text, queries));
    }
}

// Texts, and the line that is refused.
const REFUSED: [(&str, u32); 15] = [
    ("0\n00\n", 2),
    ("\n", 1),
    ("7", 1),
    ("7\n8", 2),
    ("7\n\n8\n", 2),
    ("1000000000000\n", 1),
    ("0999999999999\n", 1),
    ("+7\n", 1),
    ("-7\n", 1),
    ("7 \n", 1),
    (" 7\n", 1),
    ("7\r\n", 1),
    ("3\n12a\n", 2),
    ("3\n4\n\0\n", 3),
    ("99999999999999999999999999\n", 1),
];

fn refused_at(line: u32) -> Option<Result<usize, QueryFault>> {
    Some(Err(QueryFault::Shape { line }))
}

#[test]
fn refuses_lines(rt: HostRuntime) {
    for (text, line) in &REFUSED {
        let found = count_in(rt.alloc(), text.as_bytes());
        check_row(&rt, found == refused_at(*line), text);
    }
}

// What becomes of so many lines `7`, and a line `8`.
fn count_in_sevens(
    alloc: Global,
    count: usize,
) -> Result<Option<Result<usize, QueryFault>>, AllocError> {
    let text = sevens(alloc, count)?;
    Ok(count_in(alloc, &text))
}

#[test]
fn reads_ten_thousand_lines(rt: HostRuntime) -> Result<(), Fail> {
    let most = count_in_sevens(rt.alloc(), MOST_QUERIES - 1)?;
    assert!(rt; most == Some(Ok(MOST_QUERIES)));
    let more = count_in_sevens(rt.alloc(), MOST_QUERIES)?;
    assert!(rt; more == refused_at(10_001));
    Ok(())
}

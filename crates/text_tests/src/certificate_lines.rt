//! Texts of certificates that are read byte by byte: one that can be read, and where others first go wrong. Which lines may stand
//! where is worked out by hand from docs/FORMATS.md.

use crate::made::{check_at, check_row};
use certificate_texts::{BadLine, Reader, Told, step_line};
use certificates::{CertificateLineFault, Kind, Line};
use definitions::{Block, Span};
use std::alloc::{AllocError, Global};
use std::process::Abort;
use std::test::Fail;

// The lines of a text of two parts.
const TEXT: &str = "tsbank certificate 1
station dcf77
start 0
phase 0
seconds 60
from 52595938
to 52596000
ceiling 1920000000
first 52595938
second -
worker 0
O Y 0 0 52595938 52596000 0
L M 0 0 52595938 52595939 0
E M 0 0 52595939 52595940 -
worker 1
end";

// The text in which one line, counted from 1, is another, and with more behind it.
fn text_with(alloc: Global, number: usize, line: &str, more: &str) -> Result<String, AllocError> {
    let mut text = String::new(alloc);
    let mut n: usize = 1;
    for own in TEXT.split('\n') {
        text.push_str(if n == number { line } else { own })?;
        text.push_str("\n")?;
        n = n.saturating_add(1);
    }
    text.push_str(more)?;
    Ok(text)
}

// What is read of a text.
#[derive(Clone, Copy)]
struct Found {
    // The number of its first bad line; 0 where it has none.
    bad: u32,
    // How many steps stand before that.
    steps: u32,
    first: Option<Line>,
}

// The number of a line that is refused for its shape. None here has too many steps before it.
fn number_of(bad: Option<BadLine>) -> u32 {
    match bad {
        None => 0,
        Some(bad) => match bad.fault {
            CertificateLineFault::Shape => bad.line,
            CertificateLineFault::TooManySteps => u32::MAX,
        },
    }
}

fn read(bytes: &[u8]) -> Found {
    let mut reader = Reader::new();
    let mut found = Found {
        bad: u32::MAX,
        steps: 0,
        first: None,
    };
    for byte in bytes {
        // Never reached: it bounds the lines.
        if reader.lines > 1_000_000_000 {
            return found;
        }
        if let Some(Told::Step { line }) = reader.take(*byte) {
            if found.steps == 0 {
                found.first = Some(line);
            }
            found.steps = found.steps.saturating_add(1);
        }
    }
    if reader.lines <= 1_000_000_000 {
        found.bad = number_of(reader.finish());
    }
    found
}

// What is read of that text.
fn read_with(rt: &(impl Abort + AllocGlobal), number: usize, line: &str, more: &str) -> Found {
    match text_with(rt.alloc(), number, line, more) {
        Ok(text) => read(text.as_bytes()),
        Err(_) => panic!(rt; "no memory for a text"),
    }
}

// The text with each of these lines: its number, what it is, and the number of the first bad line.
fn check_lines(rt: &(impl Abort + AllocGlobal), rows: &[(usize, &str, u32)]) {
    for (number, line, bad) in rows {
        let found = read_with(rt, *number, line, "");
        check_row(rt, found.bad == *bad, line);
    }
}

// Each line may be one of these too.
const OTHER_LINES: [(usize, &str, u32); 14] = [
    (2, "station jjy", 0),
    (3, "start 999999999999", 0),
    (4, "phase 999", 0),
    (5, "seconds 1200", 0),
    (6, "from 0", 0),
    (7, "to 52595939", 0),
    (8, "ceiling 0", 0),
    (9, "first -", 0),
    (9, "first 6416711999", 0),
    (10, "second 0", 0),
    (12, "P Y 1 60 0 52596000 1920000000", 0),
    (12, "L M 0 0 52595999 52596000 0", 0),
    (12, "E D 1 60 0 1 -", 0),
    (12, "worker 1", 15),
];

#[test]
fn reads_other_lines(rt: HostRuntime) {
    check_lines(&rt, &OTHER_LINES);
}

// And none of these.
const BAD_LINES: [(usize, &str, u32); 52] = [
    (1, "", 1),
    (1, "tsbank certificate 2 ", 1),
    (1, "tsbank certificate 0", 1),
    (1, "tsbank certificate 3", 1),
    (1, "tsbank certificate 1\r", 1),
    (1, "\u{feff}tsbank certificate 1", 1),
    (2, "stations dcf77", 2),
    (2, "station dcf77 msf", 2),
    (2, "station DCF77", 2),
    (3, "start 00", 3),
    (3, "start +1", 3),
    (3, "start -0", 3),
    (3, "start -", 3),
    (3, "start 1000000000000", 3),
    (3, "start 18446744073709551616", 3),
    (3, "start 100000000000000000000", 3),
    (3, "start 000000000000000000000", 3),
    (3, "start  0", 3),
    (3, "start 0 ", 3),
    (3, "start\t0", 3),
    (3, "phase 0", 3),
    (4, "phase 1000", 4),
    (5, "seconds 59", 5),
    (5, "seconds 1201", 5),
    (6, "from 52596000", 6),
    (7, "to 52595938", 7),
    (7, "to 52596001", 7),
    (8, "ceiling 1920000001", 8),
    (9, "first 6416712000", 9),
    (9, "first 16492674424750964736", 9),
    (9, "first 18446744073709551615", 9),
    (11, "worker 1", 11),
    (11, "worker 00", 11),
    (12, "worker 2", 12),
    (12, "O M 0 0 0 1 0", 12),
    (12, "L D 0 0 0 1 0", 12),
    (12, "E Y 0 0 0 1 0", 12),
    (12, "P Y 0 0 0 1 -", 12),
    (12, "P Y 0 61 0 1 0", 12),
    (12, "P Y 2 0 0 1 0", 12),
    (12, "P Y 0 0 1 1 0", 12),
    (12, "P Y 0 0 0 52596001 0", 12),
    (12, "P Y 0 0 0 1 1920000001", 12),
    (12, "P Y 0 0 0 1", 12),
    (12, "P Y 0 0 0 1 0 0", 12),
    (12, "P  Y 0 0 0 1 0", 12),
    (12, "p Y 0 0 0 1 0", 12),
    (12, "", 12),
    (15, "worker 1 ", 15),
    (15, "worker 10", 15),
    (16, "End", 16),
    (16, "en", 16),
];

#[test]
fn refuses_other_lines(rt: HostRuntime) {
    check_lines(&rt, &BAD_LINES);
}

// A text that is cut anywhere is refused for the line that isn't whole.
fn refuses_a_text_that_is_cut(rt: &impl Abort, bytes: &[u8]) {
    let mut line: u32 = 1;
    for (i, byte) in bytes.iter().enumerate() {
        check_at(rt, read(&bytes[..i]).bad == line, i as u64);
        if *byte == b'\n' {
            line = line.saturating_add(1);
        }
    }
    assert!(rt; read(bytes).bad == line && line == 16);
}

#[test]
fn a_text_whole_and_cut(rt: HostRuntime) {
    let found = read_with(&rt, 0, "", "");
    assert!(rt; found.bad == 0 && found.steps == 3);
    refuses_a_text_that_is_cut(&rt, TEXT.as_bytes());
}

#[test]
fn refuses_what_comes_behind_the_end(rt: HostRuntime) {
    for more in &["\n", "x", "\0", "end\n"] {
        let found = read_with(&rt, 0, "", more);
        check_row(&rt, found.bad == 17 && found.steps == 3, more);
    }
}

// What is read of a byte that stands 100,000 times.
fn read_many(alloc: Global, byte: u8) -> Result<Found, AllocError> {
    let many = vec![in alloc; byte; 100_000]?;
    Ok(read(&many))
}

#[test]
fn refuses_bytes(rt: HostRuntime) -> Result<(), Fail> {
    for bytes in [b"".as_slice(), &[255, 10], &[0, 10]] {
        let found = read(bytes);
        assert!(rt; found.bad == 1 && found.steps == 0);
    }
    for byte in b"x\n" {
        let found = read_many(rt.alloc(), *byte)?;
        assert!(rt; found.bad == 1 && found.steps == 0);
    }
    Ok(())
}

// Steps of each kind and span, and their lines.
const STEPS: [(&str, Line); 4] = [
    (
        "O Y 0 0 52595938 52596000 0",
        Line {
            kind: Kind::Opened,
            block: Block {
                announced: false,
                second: 0,
                span: Span::Year,
                lo: 52_595_938,
                hi: 52_596_000,
            },
            bound: Some(0),
        },
    ),
    (
        "P D 1 60 0 1440 1920000000",
        Line {
            kind: Kind::Pruned,
            block: Block {
                announced: true,
                second: 60,
                span: Span::Day,
                lo: 0,
                hi: 1_440,
            },
            bound: Some(1_920_000_000),
        },
    ),
    (
        "E H 1 59 60 120 -",
        Line {
            kind: Kind::Empty,
            block: Block {
                announced: true,
                second: 59,
                span: Span::Hour,
                lo: 60,
                hi: 120,
            },
            bound: None,
        },
    ),
    (
        "L M 0 7 0 1 7",
        Line {
            kind: Kind::Leaf,
            block: Block {
                announced: false,
                second: 7,
                span: Span::Minute,
                lo: 0,
                hi: 1,
            },
            bound: Some(7),
        },
    ),
];

fn is_written_as(step: &Line, text: &str) -> bool {
    let line = step_line(step);
    line.as_str().trim_end() == text
}

#[test]
fn writes_what_it_reads(rt: HostRuntime) {
    for (text, step) in &STEPS {
        let found = read_with(&rt, 12, text, "");
        let is_read = found.first == Some(*step);
        check_row(&rt, is_read && is_written_as(step, text), text);
    }
}

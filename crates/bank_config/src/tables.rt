//! How many tables a text may make, before any is made.

/// How many tables the text of a configuration may make. While it is read, each takes some 1.2 KB. A configuration that is
/// accepted has 18 at most.
pub const MOST_TABLES: usize = 80_000;

/// Whether a text may make more tables than that, by the bytes `.`, `[` and `{`, one of which stands before each table but the
/// first. Lines that are comments make none.
pub fn may_make_too_many(text: &[u8]) -> bool {
    if text.len() <= MOST_TABLES {
        return false;
    }
    let mut count = 0usize;
    for line in text.split(|byte| *byte == b'\n') {
        if !is_comment(line) {
            count = count.saturating_add(marks_in(line));
        }
    }
    count > MOST_TABLES
}

fn is_comment(line: &[u8]) -> bool {
    for byte in line {
        if !byte.is_ascii_whitespace() {
            return *byte == b'#';
        }
    }
    false
}

// How many bytes of a line may stand before a table.
fn marks_in(line: &[u8]) -> usize {
    line.iter()
        .filter(|byte| matches!(byte, b'.' | b'[' | b'{'))
        .count()
}

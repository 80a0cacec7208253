//! Certificates of the century's last minutes, written to files in memory.

ghost use Rattle.std.specs.Prelude.{◌≡◌, ◌≤◌};
ghost use Rattle.definitions.specs.answers.Blocks.{items};

use crate::checks::{Check, check_window};
use crate::last_minutes::{FROM, text_of};
use bank_files::{Failed, MemoryFiles, OneByte};
use certificate_walks::write_certificate;
use certificates::Head;
use definitions::{Block, CENTURY_MINUTES};
use field_tables::Tables;
use sample_grids::{dcf77, silent_grid};
use signal_base::Station;
use std::alloc::Global;
use std::process::Abort;
use std::test::Fail;

// The head of the century's last minutes, which are the tables'.
fn head(tables: &Tables) -> Head
    ensures window { result.window ≡ tables.now.window }
    ensures ceiling { result.ceiling ≡ 1_920_000_000 }
{
    Head {
        window: tables.window(),
        ceiling: 1_920_000_000,
        first: Some(FROM as u64),
        second: None,
    }
}

#[test]
fn writes_the_last_minutes(rt: HostRuntime) -> Result<(), Fail> {
    let grids = [silent_grid(rt.alloc(), Station::Dcf77)?];
    let window = dcf77(FROM, CENTURY_MINUTES);
    check_window(&rt, rt.alloc(), &window, &grids, Check::Certificate)
}

pub(crate) fn last_minutes_are_written(
    rt: &impl Abort,
    alloc: Global,
    tables: &Tables,
    list: &[Block],
) -> Result<(), Fail>
    requires { list.now ≡ items tables.now.window }
{
    for parts in [1u8, 2, 8] {
        let is_right = writes_parts(alloc, tables, list, parts)?;
        assert!(rt; is_right, "{parts} parts");
    }
    let text = text_of(alloc, 1)?;
    assert!(rt; writes_byte_by_byte(alloc, tables, list, text.as_bytes()));
    for call in [1, 2, 3, 1_000, 3_914] {
        let is_right = ends_at_a_failing_write(alloc, tables, list, text.as_bytes(), call)?;
        assert!(rt; is_right, "call {call}");
    }
    Ok(())
}

// Whether a certificate of one to eight parts is the published one.
fn writes_parts(alloc: Global, tables: &Tables, list: &[Block], parts: u8) -> Result<bool, Fail>
    requires items { list.now ≡ items tables.now.window }
    requires some { 1 ≤ parts }
    requires few { parts ≤ 8 }
{
    let mut files = MemoryFiles::make(alloc);
    files.put("x.cert", b"what was there")?;
    let steps = write_certificate(&mut files, "x.cert", tables, list, &head(tables), parts);
    let text = text_of(alloc, parts)?;
    Ok(steps == Ok(131) && files.contents("x.cert") == Some(text.as_bytes()))
}

fn writes_byte_by_byte(alloc: Global, tables: &Tables, list: &[Block], text: &[u8]) -> bool
    requires { list.now ≡ items tables.now.window }
{
    let mut files = OneByte {
        inner: MemoryFiles::make(alloc),
    };
    let steps = write_certificate(&mut files, "x.cert", tables, list, &head(tables), 1);
    steps == Ok(131) && files.inner.contents("x.cert") == Some(text)
}

// Whether a front of the text is left where this call fails. The file is made by the first call, and each call after it writes a
// byte.
fn ends_at_a_failing_write(
    alloc: Global,
    tables: &Tables,
    list: &[Block],
    text: &[u8],
    call: u64,
) -> Result<bool, Fail>
    requires { list.now ≡ items tables.now.window }
{
    let mut inner = MemoryFiles::make(alloc);
    inner.put("x.cert", b"what was there")?;
    inner.fail(call)?;
    let mut files = OneByte { inner };
    let steps = write_certificate(&mut files, "x.cert", tables, list, &head(tables), 1);
    let found = files.inner.contents("x.cert").unwrap_or(b"");
    Ok(steps == Err(Failed) && is_left(found, text, call))
}

fn is_left(found: &[u8], text: &[u8], call: u64) -> bool {
    if call == 1 {
        found == b"what was there".as_slice()
    } else {
        found.len() as u64 + 2 == call && text.starts_with(found)
    }
}

// An hour that is opened for each first second: more than one piece is written.
#[test]
fn writes_in_pieces(rt: HostRuntime) -> Result<(), Fail> {
    let grids = [silent_grid(rt.alloc(), Station::Dcf77)?];
    let window = dcf77(FROM - 58, CENTURY_MINUTES);
    check_window(&rt, rt.alloc(), &window, &grids, Check::Pieces)
}

pub(crate) fn pieces_are_written(
    rt: &impl Abort,
    alloc: Global,
    tables: &Tables,
    list: &[Block],
) -> Result<(), Fail>
    requires { list.now ≡ items tables.now.window }
{
    let head = Head {
        window: tables.window(),
        ceiling: 0,
        first: None,
        second: None,
    };
    let mut whole = MemoryFiles::make(alloc);
    let steps = write_certificate(&mut whole, "x.cert", tables, list, &head, 1);
    let text = whole.contents("x.cert").unwrap_or(b"");
    assert!(rt; text.len() > 65_536);
    assert_eq!(rt;
        steps,
        Ok((text.iter().filter(|byte| **byte == b'\n').count() as u64).saturating_sub(12))
    );
    for call in 2..5 {
        let is_right = ends_at_a_failing_piece(alloc, tables, list, &head, text, call)?;
        assert!(rt; is_right, "call {call}");
    }
    Ok(())
}

// Whether a front of the text is left where this call fails. The first call makes the file, and each after it writes a piece.
fn ends_at_a_failing_piece(
    alloc: Global,
    tables: &Tables,
    list: &[Block],
    head: &Head,
    text: &[u8],
    call: u64,
) -> Result<bool, Fail>
    requires items { list.now ≡ items tables.now.window }
    requires window { head.now.window ≡ tables.now.window }
    requires ceiling { head.now.ceiling ≡ 0 }
    requires call { (2 ≤ call) × (call ≤ 4) }
{
    let mut files = MemoryFiles::make(alloc);
    files.fail(call)?;
    let steps = write_certificate(&mut files, "x.cert", tables, list, head, 1);
    let found = files.contents("x.cert").unwrap_or(b"");
    let written = found.len() as u64;
    let pieces = (call - 2) * 16_384;
    Ok(
        steps == Err(Failed)
            && text.starts_with(found)
            && written <= pieces
            && written + 96 * (call - 2) >= pieces,
    )
}

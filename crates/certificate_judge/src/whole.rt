//! A certificate that is there as a whole.

ghost use Rattle.std.specs.Prelude.{ℕ, ◌≡◌, ◌<◌, ◌≤◌, ◌↔◌, IfErr, IfOk, IsTrue, List, get_or, length};
ghost use Rattle.signal_base.specs.declared.limits.TheConstants.{GREATEST_COST};
ghost use Rattle.signal_base.specs.declared.window.Window.{Window};
ghost use Rattle.definitions.specs.heard.Costs.{Costs};
ghost use Rattle.definitions.specs.answers.Blocks.{items};
ghost use Rattle.field_tables.specs.Scored.{costs_of};
ghost use Rattle.certificates.specs.declared.certificate.Line.{Line};
ghost use Rattle.certificates.specs.declared.limits.TheConstants.{CERTIFICATE_LIMIT, MOST_STEPS};
ghost use Rattle.certificates.specs.Certificates.{Certificate, lines_of};
ghost use Rattle.certificates.specs.Verdicts.{IsVerdict};
ghost use Rattle.certificate_judge.specs.declared.outcome.Outcome.{Outcome};
ghost use Rattle.certificate_judge.specs.declared.text_fault.TextFault.TheVariants.{NoMemory};
ghost use Rattle.certificate_judge.specs.Outcomes.{IsOutcome};
ghost use Rattle.certificate_judge.specs.WholeTexts.{IsFaultOf, IsReadFrom};

use crate::judging::limit_named;
use crate::{CertificateText, Judge, Outcome, TextFault, bytes_have_one_outcome, read_text};
use certificates::{CERTIFICATE_LIMIT, Head, Line, Verdict};
use definitions::Block;
use field_tables::Tables;
use std::alloc::Global;

/// The verdict on a certificate with this head whose lines, of all parts together, are these, at most 2,000,000. The list has all
/// items of the tables' window, in their own order; the ceiling is at most 1,920,000,000. It takes no memory.
pub fn check<'a>(
    tables: &'a Tables<'a>,
    list: &'a [Block],
    ceiling: u32,
    head: &Head,
    lines: &[Line],
) -> Verdict
    requires items { list.now ≡ items tables.now.window }
    requires ceiling { ceiling ≤ GREATEST_COST }
    requires few { length lines.now ≤ MOST_STEPS }
    ensures { (c : Certificate) → c.head ≡ head.now → lines_of c ≡ lines.now → IsVerdict (costs_of tables.now) tables.now.window ceiling c result }
{
    if !is_of(head, tables, ceiling) {
        return Verdict::OtherWindow;
    }
    let mut judge = Judge::new(tables, list, ceiling);
    let limit = limit_named(ceiling, head.second);
    let mut i = 0;
    while i < lines.len() {
        judge.take(line_at(lines, i), limit);
        i += 1;
    }
    judge.finish(head.first, head.second)
}

// Whether the head is of the tables' window and under this ceiling.
fn is_of(head: &Head, tables: &Tables, ceiling: u32) -> bool
    ensures { IsTrue result ↔ ((head.now.window ≡ tables.now.window) × (head.now.ceiling ≡ ceiling)) }
{
    if head.window != tables.window() {
        return false;
    }
    head.ceiling == ceiling
}

fn line_at(lines: &[Line], place: usize) -> &Line
    requires { place < length lines.now }
    ensures { (d : Line) → get_or lines.now place d ≡ result.now }
{
    &lines[place]
}

/// What comes of bytes that are read whole and then checked: what a checker of the same bytes in pieces tells. `NoMemory` comes
/// only for want of memory.
pub fn check_text<'a>(
    alloc: Global,
    tables: &'a Tables<'a>,
    list: &'a [Block],
    ceiling: u32,
    bytes: &[u8],
) -> Result<Outcome, TextFault>
    requires items { list.now ≡ items tables.now.window }
    requires ceiling { ceiling ≤ GREATEST_COST }
    ensures outcome { IfOk result (λ outcome. IsOutcome (costs_of tables.now) tables.now.window ceiling bytes.now outcome) }
    ensures exactly { (other : Outcome) → IsOutcome (costs_of tables.now) tables.now.window ceiling bytes.now other
        → IfOk result (λ outcome. other ≡ outcome) }
    ensures memory { IfErr result (λ fault. fault ≡ NoMemory) }
{
    bytes_have_one_outcome();
    let outcome = outcome_of(alloc, tables, list, ceiling, bytes)?;
    Ok(outcome)
}

fn outcome_of<'a>(
    alloc: Global,
    tables: &'a Tables<'a>,
    list: &'a [Block],
    ceiling: u32,
    bytes: &[u8],
) -> Result<Outcome, TextFault>
    requires items { list.now ≡ items tables.now.window }
    requires ceiling { ceiling ≤ GREATEST_COST }
    ensures outcome { IfOk result (λ outcome. IsOutcome (costs_of tables.now) tables.now.window ceiling bytes.now outcome) }
    ensures memory { IfErr result (λ fault. fault ≡ NoMemory) }
{
    if bytes.len() as u64 > CERTIFICATE_LIMIT {
        return Ok(Outcome::TooLarge);
    }
    match read_text(alloc, bytes) {
        Ok(text) => Ok(judged(tables, list, ceiling, &text)),
        Err(fault) => refused(fault),
    }
}

// The verdict on a certificate that was read.
fn judged<'a>(
    tables: &'a Tables<'a>,
    list: &'a [Block],
    ceiling: u32,
    text: &CertificateText,
) -> Outcome
    requires items { list.now ≡ items tables.now.window }
    requires ceiling { ceiling ≤ GREATEST_COST }
    requires few { length text.now.lines.items ≤ MOST_STEPS }
    ensures { (bytes : List ℕ) → length bytes ≤ CERTIFICATE_LIMIT → IsReadFrom text.now bytes
        → IsOutcome (costs_of tables.now) tables.now.window ceiling bytes result }
{
    Outcome::Judged {
        verdict: check(tables, list, ceiling, &text.head, text.lines.as_slice()),
        first: text.head.first,
        second: text.head.second,
    }
}

// The outcome of a text that is refused.
fn refused(fault: TextFault) -> Result<Outcome, TextFault>
    ensures outcome { (costs : Costs) (window : Window) (ceiling : ℕ) (bytes : List ℕ) → length bytes ≤ CERTIFICATE_LIMIT → IsFaultOf bytes fault
        → IfOk result (λ outcome. IsOutcome costs window ceiling bytes outcome) }
    ensures memory { IfErr result (λ fault. fault ≡ NoMemory) }
{
    match fault {
        TextFault::Refused { line, fault } => Ok(Outcome::Refused { line, fault }),
        TextFault::NoMemory => Err(TextFault::NoMemory),
    }
}

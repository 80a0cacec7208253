//! A certificate's text, read whole.

ghost use Rattle.std.specs.Prelude.{ℕ, ◌≡◌, ◌+◌, ◌<◌, ◌≤◌, ◌++◌, ◌∷◌, [], IfErr, IfOk, List, OnOk, length};
ghost use Rattle.signal_base.specs.declared.limits.TheConstants.{GREATEST_COST};
ghost use Rattle.definitions.specs.sequences.Windows.{IsWindow};
ghost use Rattle.certificates.specs.declared.certificate.Head.{Head};
ghost use Rattle.certificates.specs.declared.fault.CertificateLineFault.{CertificateLineFault};
ghost use Rattle.certificates.specs.declared.limits.TheConstants.{CERTIFICATE_LIMIT};
ghost use Rattle.certificates.specs.Certificates.{Certificate};
ghost use Rattle.certificates.specs.Texts.{Entry, IsRefused, IsText};
ghost use Rattle.certificate_texts.specs.declared.reader.TheConstants.{MOST_LINES};
ghost use Rattle.certificate_texts.specs.Reading.{IsWhole};
ghost use Rattle.certificate_judge.specs.declared.text_fault.TextFault.TheVariants.{NoMemory};
ghost use Rattle.certificate_judge.specs.Headings.{heading_of};
ghost use Rattle.certificate_judge.specs.Kept.{IsReadInto};
ghost use Rattle.certificate_judge.specs.WholeTexts.{HasRead, HasRefused, IsFaultOf, IsKeptOf, IsReadFrom};

use crate::{Heading, Kept, TextFault};
use certificate_texts::{BadLine, Reader, whole_texts_are_certificates};
use certificates::{Head, Line, certificate_has_one_outcome};
use signal_base::{Stations, Window};
use std::alloc::Global;

/// A certificate that was read from its text.
#[derive(Drop)]
pub struct CertificateText {
    /// Of what it is, and which keys it names.
    pub head: Head,
    /// Its lines, of all parts together.
    pub lines: Vec<Line>,
    /// Behind how many of them each part begins.
    pub starts: Vec<usize>,
}

/// Reads a certificate from its text, of at most 128,000,000 bytes. A text that is none is refused for its first bad line.
/// `NoMemory` comes only for want of memory.
pub fn read_text(alloc: Global, bytes: &[u8]) -> Result<CertificateText, TextFault>
    requires { length bytes.now ≤ CERTIFICATE_LIMIT }

    // What is read is the certificate whose text the bytes are; a fault names the first bad line and says how it is bad.
    ensures read { IfOk result (λ text. IsReadFrom text bytes.now) }
    ensures refused { IfErr result (λ fault. IsFaultOf bytes.now fault) }

    // Each certificate is read and each other text is refused for its first bad line, unless memory runs out.
    ensures every_certificate { (c : Certificate) → IsText c bytes.now → HasRead result c }
    ensures every_fault { (line : ℕ) (fault : CertificateLineFault) → IsRefused bytes.now line fault → HasRefused result line fault }
{
    certificate_has_one_outcome();
    let text = whole_text(alloc, bytes)?;
    Ok(text)
}

fn whole_text(alloc: Global, bytes: &[u8]) -> Result<CertificateText, TextFault>
    requires { length bytes.now ≤ CERTIFICATE_LIMIT }
    ensures read { IfOk result (λ text. IsReadFrom text bytes.now) }
    ensures refused { IfErr result (λ fault. IsFaultOf bytes.now fault) }
{
    whole_texts_are_certificates();
    let kept = kept_of(alloc, bytes)?;
    let head = head_of(&kept.heading);
    Ok(CertificateText {
        head,
        lines: kept.lines,
        starts: kept.starts,
    })
}

// What the lines tell, where they are those of a certificate.
fn kept_of(alloc: Global, bytes: &[u8]) -> Result<Kept, TextFault>
    requires { length bytes.now ≤ CERTIFICATE_LIMIT }
    ensures whole { IfOk result (λ kept. IsKeptOf kept bytes.now) }
    ensures refused { IfErr result (λ fault. IsFaultOf bytes.now fault) }
{
    let mut reader = Reader::new();
    let mut kept = Kept::new(alloc);
    let mut i = 0;
    while i < bytes.len() {
        take(&mut reader, &mut kept, bytes[i])?;
        i += 1;
    }
    if let Some(bad) = reader.finish() {
        return Err(refused(bad));
    }
    Ok(kept)
}

// Reads the next byte.
fn take(reader: &mut Reader, kept: &mut Kept, byte: u8) -> Result<(), TextFault>
    requires { reader.old.lines < MOST_LINES }
    ensures read { (bytes : List ℕ) → IsReadInto reader.old kept.old bytes → OnOk result (IsReadInto reader.new kept.new (bytes ++ byte ∷ [])) }
    ensures lines { reader.new.lines ≤ reader.old.lines + 1 }
    ensures memory { IfErr result (λ fault. fault ≡ NoMemory) }
{
    let Some(told) = reader.take(byte) else {
        return Ok(());
    };
    kept.keep(&told)
}

fn refused(bad: BadLine) -> TextFault
    ensures { (bytes : List ℕ) → IsRefused bytes bad.line bad.fault → IsFaultOf bytes result }
{
    TextFault::Refused {
        line: bad.line,
        fault: bad.fault,
    }
}

// The head that was told.
fn head_of(heading: &Heading) -> Head
    ensures { (h : Head) → IsWindow h.window → h.ceiling ≤ GREATEST_COST → heading.now ≡ heading_of h → result ≡ h }
{
    Head {
        window: Window {
            stations: Stations {
                mask: heading.stations.min(255) as u8,
            },
            start: heading.start,
            phase: heading.phase.min(65_535) as u16,
            seconds: heading.seconds.min(65_535) as u16,
            from: heading.from.min(4_294_967_295) as u32,
            to: heading.to.min(4_294_967_295) as u32,
        },
        ceiling: heading.ceiling.min(4_294_967_295) as u32,
        first: heading.first,
        second: heading.second,
    }
}

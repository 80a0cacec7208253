//! A text of a certificate, read byte by byte, of which no more is kept than the line at hand.

ghost use Rattle.std.specs.Prelude.{ℕ, ◌≡◌, ◌≢◌, ◌+◌, ◌<◌, ◌≤◌, ◌↔◌, ◌++◌, ◌∷◌, [], IfNone, IfSome, IsTrue, List, None, false};
ghost use Rattle.certificate_texts.specs.declared.place.Place.TheVariants as place;
ghost use Rattle.formats.specs.Bytes.{line_feed};
ghost use Rattle.certificates.specs.Texts.{Entry, IsRefused};
ghost use Rattle.certificate_texts.specs.Lines.{Spells, SpellsNone};
ghost use Rattle.certificate_texts.specs.Places.{entry_of, next_of};
ghost use Rattle.certificate_texts.specs.Reading.{IsRead, IsWhole, Stands};

use crate::entry::told_in;
use crate::place::first_place;
use crate::{Place, Told};
use arrayvec::ArrayVec;
use certificates::CertificateLineFault;

/// The most bytes of a line without its LF, and some more.
pub const LINE_ROOM: usize = 96;

/// The most lines that are counted.
pub const MOST_LINES: u32 = 4_000_000_000;

/// The first bad line of a text.
#[derive(Clone, Copy, PartialEq, Eq)]
pub struct BadLine {
    /// Its number, from 1.
    pub line: u32,
    /// What is wrong with it.
    pub fault: CertificateLineFault,
}

/// What was read of a text.
#[derive(Drop)]
pub struct Reader {
    /// What comes next.
    pub place: Place,
    /// How many lines came.
    pub lines: u32,
    /// The bytes of the line at hand.
    pub held: ArrayVec<u8, LINE_ROOM>,
    /// Whether it is too long, so that its bytes aren't kept.
    pub long: bool,
    /// The first bad line.
    pub bad: Option<BadLine>,
}

impl Reader {
    /// Nothing was read.
    pub fn new() -> Reader
        ensures stands { Stands result [] [] }
        ensures lines { result.lines ≡ 0 }
    {
        Reader {
            place: first_place(),
            lines: 0,
            held: ArrayVec::new(),
            long: false,
            bad: None,
        }
    }

    /// Reads the next byte. What the line tells that it ends, if any; behind a bad line it tells nothing.
    pub fn take(&mut self, byte: u8) -> Option<Told>
        requires { self.old.lines < MOST_LINES }
        ensures none { (bytes : List ℕ) (read : List Entry) → Stands self.old bytes read → IfNone result (Stands self.new (bytes ++ byte ∷ []) read) }
        ensures some { (bytes : List ℕ) (read : List Entry) → Stands self.old bytes read
            → IfSome result (λ told. Stands self.new (bytes ++ byte ∷ []) (read ++ entry_of told ∷ [])) }
        ensures lines { self.new.lines ≤ self.old.lines + 1 }
    {
        if self.bad.is_some() {
            return None;
        }
        if byte == b'\n' {
            return self.end_line();
        }
        self.hold(byte);
        None
    }

    // Keeps a byte of the line at hand, where there is room.
    fn hold(&mut self, byte: u8)
        requires good { self.old.bad ≡ None }
        requires inside { byte ≢ line_feed }
        ensures kept { (bytes : List ℕ) (read : List Entry) → IsRead self.old bytes read → Stands self.new (bytes ++ byte ∷ []) read }
        ensures lines { self.new.lines ≡ self.old.lines }
    {
        if self.long {
            return;
        }
        if self.held.is_full() {
            self.long = true;
            return;
        }
        self.held.push(byte);
    }

    // Ends the line at hand.
    fn end_line(&mut self) -> Option<Told>
        requires good { self.old.bad ≡ None }
        requires lines { self.old.lines < MOST_LINES }
        ensures none { (bytes : List ℕ) (read : List Entry) → IsRead self.old bytes read → IfNone result (Stands self.new (bytes ++ line_feed ∷ []) read) }
        ensures some { (bytes : List ℕ) (read : List Entry) → IsRead self.old bytes read
            → IfSome result (λ told. Stands self.new (bytes ++ line_feed ∷ []) (read ++ entry_of told ∷ [])) }
        ensures lines { self.new.lines ≡ self.old.lines + 1 }
    {
        self.lines += 1;
        let Some(told) = told_on(&self.place, self.held.as_slice(), self.long) else {
            self.bad = Some(BadLine {
                line: self.lines,
                fault: CertificateLineFault::Shape,
            });
            return None;
        };
        if !self.place.has_room(&told) {
            self.bad = Some(BadLine {
                line: self.lines,
                fault: CertificateLineFault::TooManySteps,
            });
            return None;
        }
        self.place = self.place.after(&told);
        self.held.clear();
        Some(told)
    }

    /// The first bad line, where all bytes were read, or None where they are all of a certificate.
    pub fn finish(&self) -> Option<BadLine>
        requires { self.now.lines < MOST_LINES }
        ensures bad { (bytes : List ℕ) (read : List Entry) → Stands self.now bytes read → IfSome result (λ bad. IsRefused bytes bad.line bad.fault) }
        ensures whole { (bytes : List ℕ) (read : List Entry) → Stands self.now bytes read → IfNone result (IsWhole bytes read) }
    {
        if let Some(bad) = self.bad {
            return Some(bad);
        }
        if self.is_over() {
            return None;
        }
        Some(BadLine {
            line: self.lines + 1,
            fault: CertificateLineFault::Shape,
        })
    }

    // Whether the last line came, and nothing behind it.
    fn is_over(&self) -> bool
        ensures { IsTrue result ↔ ((self.now.place ≡ place.End) × (self.now.long ≡ false) × (self.now.held.items ≡ [])) }
    {
        if self.place != Place::End {
            return false;
        }
        if self.long {
            return false;
        }
        self.held.is_empty()
    }
}

// What a line tells where it may stand; one that is too long tells nothing.
fn told_on(place: &Place, line: &[u8], long: bool) -> Option<Told>
    ensures some { IfSome result (λ told. (long ≡ false) × Spells (next_of place.now) line.now (entry_of told)) }
    ensures none { IfNone result (long ≡ false → SpellsNone (next_of place.now) line.now) }
{
    if long {
        return None;
    }
    told_in(place, line)
}

//! What the lines of a head told so far.

ghost use Rattle.std.specs.Prelude.{◌≡◌, ◌↔◌, IsTrue};
ghost use Rattle.certificates.specs.Texts.{number_in};
ghost use Rattle.certificate_texts.specs.Places.{head_line_of};
ghost use Rattle.certificate_judge.specs.Headings.{IsOfWindow, heading_with, no_heading};

use certificate_texts::HeadPart;
use signal_base::Window;

/// What a head told, with 0 and none for what it didn't tell yet.
#[derive(Clone, Copy)]
pub struct Heading {
    /// The mask of the stations.
    pub stations: u64,
    /// The window's start, in milliseconds.
    pub start: u64,
    /// Its phase, in milliseconds.
    pub phase: u64,
    /// How many seconds it has.
    pub seconds: u64,
    /// The first minute of its range.
    pub from: u64,
    /// The end of its range.
    pub to: u64,
    /// What a sequence may cost.
    pub ceiling: u64,
    /// The first key, if one is named.
    pub first: Option<u64>,
    /// The second.
    pub second: Option<u64>,
}

impl Heading {
    /// Nothing was told.
    pub fn new() -> Heading
        ensures { result ≡ no_heading }
    {
        Heading {
            stations: 0,
            start: 0,
            phase: 0,
            seconds: 0,
            from: 0,
            to: 0,
            ceiling: 0,
            first: None,
            second: None,
        }
    }

    /// Keeps what a line of the head tells.
    pub fn tell(&mut self, part: HeadPart, value: Option<u64>)
        ensures { self.new ≡ heading_with (head_line_of part) value self.old }
    {
        match part {
            HeadPart::Version => {}
            HeadPart::Heard => self.stations = number_in(value),
            HeadPart::Start => self.start = number_in(value),
            HeadPart::Phase => self.phase = number_in(value),
            HeadPart::Seconds => self.seconds = number_in(value),
            HeadPart::From => self.from = number_in(value),
            HeadPart::To => self.to = number_in(value),
            HeadPart::Ceiling => self.ceiling = number_in(value),
            HeadPart::First => self.first = value,
            HeadPart::Second => self.second = value,
        }
    }

    /// Whether the head is of this window and under this ceiling.
    pub fn is_of(&self, window: &Window, ceiling: u32) -> bool
        ensures { IsTrue result ↔ IsOfWindow window.now ceiling self.now }
    {
        if self.stations != window.stations.mask as u64 {
            return false;
        }
        if self.start != window.start {
            return false;
        }
        if self.phase != window.phase as u64 {
            return false;
        }
        if self.seconds != window.seconds as u64 {
            return false;
        }
        if self.from != window.from as u64 {
            return false;
        }
        if self.to != window.to as u64 {
            return false;
        }
        self.ceiling == ceiling as u64
    }
}

// The number that is told, or 0 where none is.
fn number_in(value: Option<u64>) -> u64
    ensures { result ≡ number_in value }
{
    match value {
        None => 0,
        Some(number) => number,
    }
}

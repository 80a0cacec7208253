//! What comes next in the text of a certificate, and what its lines tell.

ghost use Rattle.std.specs.Prelude.{◌≡◌, ◌↔◌, IsTrue};
ghost use Rattle.certificates.specs.Texts.{HasRoom, after, after_head, first_line, part_at, steps_at};
ghost use Rattle.certificate_texts.specs.declared.place.Place.TheVariants as place;
ghost use Rattle.certificate_texts.specs.Places.{entry_of, head_line_of, next_of};

use certificates::{Line, MOST_STEPS};

/// What a line of the head tells.
#[derive(Clone, Copy, PartialEq, Eq)]
pub enum HeadPart {
    /// The version of the text.
    Version,
    /// The stations of the window.
    Heard,
    /// The window's start, in milliseconds.
    Start,
    /// Its phase, in milliseconds.
    Phase,
    /// How many seconds it has.
    Seconds,
    /// The first minute of its range.
    From,
    /// The end of its range.
    To,
    /// What a sequence may cost.
    Ceiling,
    /// The first key.
    First,
    /// The second key.
    Second,
}

/// What comes next in a text.
#[derive(Clone, Copy, PartialEq, Eq)]
pub enum Place {
    /// A line of the head.
    Head {
        /// What it tells.
        due: HeadPart,
        /// What the line before it told.
        before: Option<u64>,
    },
    /// The first part.
    Parts,
    /// A step, the next part or the end.
    Steps {
        /// The number of the part at hand.
        part: u8,
        /// How many steps came before, in all parts.
        steps: u32,
    },
    /// Nothing.
    End,
}

/// What a line tells.
#[derive(Clone, Copy, PartialEq, Eq)]
pub enum Told {
    /// A number of the head, or none.
    Head {
        /// Which one.
        part: HeadPart,
        /// The number.
        value: Option<u64>,
    },
    /// That a part begins.
    Part {
        /// Its number.
        number: u8,
    },
    /// A step.
    Step {
        /// What it says.
        line: Line,
    },
    /// That no more comes.
    End,
}

/// What comes first.
pub fn first_place() -> Place
    ensures { next_of result ≡ first_line }
{
    Place::Head {
        due: HeadPart::Version,
        before: None,
    }
}

impl Place {
    /// What comes after a line.
    pub fn after(&self, told: &Told) -> Place
        requires { HasRoom (next_of self.now) (entry_of told.now) }
        ensures { next_of result ≡ after (next_of self.now) (entry_of told.now) }
    {
        match told {
            Told::Head { part, value } => after_head(*part, *value),
            Told::Part { number } => Place::Steps {
                part: *number,
                steps: self.steps(),
            },
            Told::Step { line: _ } => Place::Steps {
                part: self.part(),
                steps: self.steps() + 1,
            },
            Told::End => Place::End,
        }
    }

    /// Whether a line isn't a step too many.
    pub fn has_room(&self, told: &Told) -> bool
        ensures { IsTrue result ↔ HasRoom (next_of self.now) (entry_of told.now) }
    {
        match told {
            Told::Step { line: _ } => self.steps() < MOST_STEPS,
            Told::Head { part: _, value: _ } | Told::Part { number: _ } | Told::End => true,
        }
    }

    fn steps(&self) -> u32
        ensures { result ≡ steps_at (next_of self.now) }
    {
        match self {
            Place::Steps { part: _, steps } => *steps,
            Place::Head { due: _, before: _ } | Place::Parts | Place::End => 0,
        }
    }

    fn part(&self) -> u8
        ensures { result ≡ part_at (next_of self.now) }
    {
        match self {
            Place::Steps { part, steps: _ } => *part,
            Place::Head { due: _, before: _ } | Place::Parts | Place::End => 0,
        }
    }
}

// What comes after a line of the head.
fn after_head(part: HeadPart, value: Option<u64>) -> Place
    ensures { next_of result ≡ after_head (head_line_of part) value }
{
    match part {
        HeadPart::Version => head_place(HeadPart::Heard, value),
        HeadPart::Heard => head_place(HeadPart::Start, value),
        HeadPart::Start => head_place(HeadPart::Phase, value),
        HeadPart::Phase => head_place(HeadPart::Seconds, value),
        HeadPart::Seconds => head_place(HeadPart::From, value),
        HeadPart::From => head_place(HeadPart::To, value),
        HeadPart::To => head_place(HeadPart::Ceiling, value),
        HeadPart::Ceiling => head_place(HeadPart::First, value),
        HeadPart::First => head_place(HeadPart::Second, value),
        HeadPart::Second => Place::Parts,
    }
}

fn head_place(due: HeadPart, before: Option<u64>) -> Place
    ensures { result ≡ place.Head due before }
{
    Place::Head { due, before }
}

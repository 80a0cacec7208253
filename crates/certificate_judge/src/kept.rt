//! What is kept of a text that is read whole.

ghost use Rattle.std.specs.Prelude.{◌≡◌, ◌++◌, ◌∷◌, [], IfErr, List, OnOk, length};
ghost use Rattle.certificates.specs.Texts.{Entry};
ghost use Rattle.certificate_texts.specs.Places.{entry_of};
ghost use Rattle.certificate_judge.specs.Kept.{IsKept};
ghost use Rattle.certificate_judge.specs.declared.text_fault.TextFault.TheVariants.{NoMemory};

use crate::{Heading, TextFault};
use certificate_texts::Told;
use certificates::Line;
use std::alloc::Global;

/// What the lines of a text told so far.
#[derive(Drop)]
pub struct Kept {
    /// What its head told.
    pub heading: Heading,
    /// Its steps, of all parts together.
    pub lines: Vec<Line>,
    /// Behind how many of them each part begins.
    pub starts: Vec<usize>,
}

impl Kept {
    /// No line was read.
    pub fn new(alloc: Global) -> Kept
        ensures { IsKept result [] }
    {
        Kept {
            heading: Heading::new(),
            lines: Vec::new(alloc),
            starts: Vec::new(alloc),
        }
    }

    /// Keeps what a line tells.
    pub fn keep(&mut self, told: &Told) -> Result<(), TextFault>
        ensures kept { (read : List Entry) → IsKept self.old read → OnOk result (IsKept self.new (read ++ entry_of told.now ∷ [])) }
        ensures memory { IfErr result (λ fault. fault ≡ NoMemory) }
    {
        match told {
            Told::Head { part, value } => {
                self.heading.tell(*part, *value);
                Ok(())
            }
            Told::Part { number } => {
                let _ = *number;
                self.begin_part()?;
                Ok(())
            }
            Told::Step { line } => {
                self.lines.push(*line)?;
                Ok(())
            }
            Told::End => Ok(()),
        }
    }

    fn begin_part(&mut self) -> Result<(), TextFault>
        ensures starts { OnOk result (self.new.starts.items ≡ self.old.starts.items ++ length self.old.lines.items ∷ []) }
        ensures heading { self.new.heading ≡ self.old.heading }
        ensures lines { self.new.lines.items ≡ self.old.lines.items }
        ensures memory { IfErr result (λ fault. fault ≡ NoMemory) }
    {
        let before = self.lines.len();
        self.starts.push(before)?;
        Ok(())
    }
}

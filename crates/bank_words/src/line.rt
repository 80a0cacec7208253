//! The parts of words that follow the grammar.

ghost use Rattle.std.specs.Prelude.{◌≡◌, length};
ghost use Rattle.formats.specs.Words.{form_of};

use formats::Command;

/// The parts of words that follow the grammar.
#[derive(Clone, Copy)]
pub struct Line<'a> {
    /// The command.
    pub command: Command,
    /// The words at its places.
    pub places: &'a [String],
    /// Options, each before its value.
    pub pairs: &'a [String],
    ghost counted: { length places.now ≡ (form_of command).places },
}

//! The name of a receiver.

ghost use Rattle.std.specs.Prelude.{◌≡◌, ◌≤◌, length};

use crate::LONGEST_NAME;
use arrayvec::ArrayString;
use std::marker::Model;

/// The name of a receiver, of at most 32 bytes. It is kept in the value itself, so that what is refused can be told
/// after the text that named it is gone.
#[derive(Drop)]
pub struct Name {
    text: ArrayString<LONGEST_NAME>,
}

impl Model for Name {
    ghost use Rattle.std.specs.Prelude.{ℕ, List};

    ghost Value = { List ℕ };

    ghost view = { λ name. name.text.bytes };
}

impl Name {
    /// The name of these bytes.
    pub fn new(text: &str) -> Name
        requires { length text.now ≤ LONGEST_NAME }
        ensures { result ≡ text.now }
    {
        let mut name = ArrayString::new();
        name.push_str(text);
        Name { text: name }
    }

    /// Its bytes.
    pub fn as_str(&self) -> &str
        ensures bytes { result.now ≡ self.now }
        ensures short { length result.now ≤ LONGEST_NAME }
    {
        self.text.as_str()
    }
}

//! The keys of a configuration, by name.

ghost use Rattle.std.specs.Prelude.{◌≡◌, ◌≤◌, length};
ghost use Rattle.formats.specs.Keys.{key_word};

/// A key of a configuration, wherever it stands.
#[derive(Clone, Copy, Debug)]
pub enum KeyName {
    /// `station`, at the top or of a receiver.
    Station,
    /// `ceiling`.
    Ceiling,
    /// `receiver`, the list of the receivers.
    Receiver,
    /// `name` of a receiver.
    Name,
    /// `log` of a receiver.
    Log,
    /// `delay_ms` of a receiver.
    Delay,
    /// `weight` of a receiver.
    Weight,
    /// `table`, the cost table of the bank or of a receiver.
    Table,
    /// `low` of a cost table.
    Low,
    /// `high` of a cost table.
    High,
    /// `second` of a cost table.
    Second,
}

impl KeyName {
    /// The word that stands in the text of a configuration.
    pub fn as_str(self) -> &'static str
        ensures word { result.now ≡ key_word self }
        ensures short { length result.now ≤ 8 }
    {
        match self {
            KeyName::Station => "station",
            KeyName::Ceiling => "ceiling",
            KeyName::Receiver => "receiver",
            KeyName::Name => "name",
            KeyName::Log => "log",
            KeyName::Delay => "delay_ms",
            KeyName::Weight => "weight",
            KeyName::Table => "table",
            KeyName::Low => "low",
            KeyName::High => "high",
            KeyName::Second => "second",
        }
    }
}

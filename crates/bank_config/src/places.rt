//! Where a key stands, and which keys are known there.

ghost use Rattle.std.specs.Prelude.{◌≡◌, string_bytes};
ghost use Rattle.std.specs.BTreeMap.{keys};
ghost use Rattle.std.specs.List.{list_all};
ghost use Rattle.bank_config.specs.declared.places.Place.TheVariants.{OfReceiver, OfTable, Top};
ghost use Rattle.bank_config.specs.Places.{is_known, knows_all};
ghost use Rattle.toml.specs.View.{view};

use toml::{Table, Value};

/// A table of a configuration.
#[derive(Clone, Copy)]
pub(crate) enum Place {
    /// The document itself.
    Top,
    /// A receiver.
    OfReceiver,
    /// A cost table, of the bank or of a receiver.
    OfTable,
}

// Whether this key may stand at the top.
fn is_top_key(key: &str) -> bool
    ensures { result ≡ is_known Top key.now }
{
    match key {
        "station" => true,
        "ceiling" => true,
        "receiver" => true,
        "table" => true,
        _ => false,
    }
}

// Whether this key may stand in a receiver.
fn is_receiver_key(key: &str) -> bool
    ensures { result ≡ is_known OfReceiver key.now }
{
    match key {
        "name" => true,
        "log" => true,
        "delay_ms" => true,
        "weight" => true,
        "station" => true,
        "table" => true,
        _ => false,
    }
}

// Whether this key may stand in a cost table.
fn is_table_key(key: &str) -> bool
    ensures { result ≡ is_known OfTable key.now }
{
    match key {
        "low" => true,
        "high" => true,
        "second" => true,
        _ => false,
    }
}

impl Place {
    // Whether this key may stand there.
    fn knows(self, key: &str) -> bool
        ensures { result ≡ is_known self key.now }
    {
        match self {
            Place::Top => is_top_key(key),
            Place::OfReceiver => is_receiver_key(key),
            Place::OfTable => is_table_key(key),
        }
    }

    // Whether all keys of the table may stand there.
    fn knows_keys(self, table: &Table) -> bool
        ensures { result ≡ list_all (λ key. is_known self (string_bytes key)) (keys table.now) }
    {
        table.keys().all(|key| self.knows(key.as_str()))
    }

    /// Whether all keys of the value, if it is a table, may stand there.
    pub(crate) fn knows_all(self, value: &Value) -> bool
        ensures { result ≡ knows_all self (view value.now) }
    {
        match value.as_table() {
            Some(table) => self.knows_keys(table),
            None => true,
        }
    }
}

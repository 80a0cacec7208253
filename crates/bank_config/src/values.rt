//! What stands at a key that wants a text, a whole number or a station.

ghost use Rattle.std.specs.Prelude.{◌≡◌, ◌≤◌, true, IfOk};
ghost use Rattle.std.specs.List.{list_all};
ghost use Rattle.bank_config.specs.Checked.{Gives, required};
ghost use Rattle.bank_config.specs.Configuration.{file_at, name_at, number_at};
ghost use Rattle.bank_config.specs.Values.{is_file, is_name, is_name_byte, number_in, station_in, station_named, text_in, within};
ghost use Rattle.toml.specs.Data.{get};
ghost use Rattle.toml.specs.View.{view};

use crate::limits::LONGEST_FILE;
use crate::{ConfigFault, Key};
use formats::LONGEST_NAME;
use signal_base::Station;
use toml::Value;

/// What must stand at a key of a table.
pub(crate) fn required<'a>(table: &'a Value, word: &str, key: Key) -> Result<&'a Value, ConfigFault>
    ensures { Gives (λ value. view value.now) result (required key (get word.now (view table.now))) }
{
    match table.get(word) {
        Some(value) => Ok(value),
        None => Err(ConfigFault::Missing { key }),
    }
}

/// A text.
fn text_in(value: &Value, key: Key) -> Result<&str, ConfigFault>
    ensures { Gives (λ text. text.now) result (text_in key (view value.now)) }
{
    match value.as_str() {
        Some(text) => Ok(text),
        None => Err(ConfigFault::WrongKind { key }),
    }
}

/// The name of a receiver.
pub(crate) fn name_at(table: &Value, key: Key) -> Result<&str, ConfigFault>
    ensures name { Gives (λ name. name.now) result (name_at key (view table.now)) }
    ensures fits { IfOk result (λ name. is_name name.now ≡ true) }
{
    let value = required(table, "name", key)?;
    let name = text_in(value, key)?;
    if is_name(name) {
        Ok(name)
    } else {
        Err(ConfigFault::OutOfRange { key })
    }
}

// Whether the text is 1 to 32 of the characters `a` to `z`, `0` to `9`, `_` and `-`.
fn is_name(text: &str) -> bool
    ensures { result ≡ is_name text.now }
{
    let bytes = text.as_bytes();
    if bytes.is_empty() || LONGEST_NAME < bytes.len() {
        return false;
    }
    are_name_bytes(bytes)
}

fn are_name_bytes(bytes: &[u8]) -> bool
    ensures { result ≡ list_all is_name_byte bytes.now }
{
    bytes.iter().all(|b| is_name_byte(*b))
}

fn is_name_byte(b: u8) -> bool
    ensures { result ≡ is_name_byte b }
{
    (b'a' <= b && b <= b'z') || (b'0' <= b && b <= b'9') || b == b'_' || b == b'-'
}

/// The name of the file with a receiver's log.
pub(crate) fn file_at(table: &Value, key: Key) -> Result<&str, ConfigFault>
    ensures file { Gives (λ file. file.now) result (file_at key (view table.now)) }
    ensures fits { IfOk result (λ file. is_file file.now ≡ true) }
{
    let value = required(table, "log", key)?;
    let file = text_in(value, key)?;
    if is_file(file) {
        Ok(file)
    } else {
        Err(ConfigFault::OutOfRange { key })
    }
}

// Whether the text has 1 to 200 bytes, the first not `-`.
fn is_file(text: &str) -> bool
    ensures { result ≡ is_file text.now }
{
    let bytes = text.as_bytes();
    if bytes.is_empty() || LONGEST_FILE < bytes.len() {
        return false;
    }
    bytes[0] != b'-'
}

// The number, if it is in the range.
fn within(number: i64, key: Key, least: u32, most: u32) -> Result<u32, ConfigFault>
    ensures value { Gives (λ n. n) result (within key least most number) }
    ensures least { IfOk result (λ n. least ≤ n) }
    ensures most { IfOk result (λ n. n ≤ most) }
{
    match u32::try_from(number) {
        Ok(n) => {
            if least <= n && n <= most {
                Ok(n)
            } else {
                Err(ConfigFault::OutOfRange { key })
            }
        }
        Err(_) => Err(ConfigFault::OutOfRange { key }),
    }
}

/// A whole number from the least to the most.
pub(crate) fn number_in(value: &Value, key: Key, least: u32, most: u32) -> Result<u32, ConfigFault>
    ensures value { Gives (λ n. n) result (number_in key least most (view value.now)) }
    ensures least { IfOk result (λ n. least ≤ n) }
    ensures most { IfOk result (λ n. n ≤ most) }
{
    match value.as_integer() {
        Some(number) => within(number, key, least, most),
        None => Err(ConfigFault::WrongKind { key }),
    }
}

/// A whole number from the least to the most, or the default where none stands at the key.
pub(crate) fn number_at(
    table: &Value,
    word: &str,
    key: Key,
    least: u32,
    most: u32,
    default: u32,
) -> Result<u32, ConfigFault>
    requires least { least ≤ default }
    requires most { default ≤ most }
    ensures value { Gives (λ n. n) result (number_at key word.now least most default (view table.now)) }
    ensures least { IfOk result (λ n. least ≤ n) }
    ensures most { IfOk result (λ n. n ≤ most) }
{
    match table.get(word) {
        Some(value) => number_in(value, key, least, most),
        None => Ok(default),
    }
}

// The station of this name.
fn station_named(name: &str) -> Option<Station>
    ensures { result ≡ station_named name.now }
{
    match name {
        "dcf77" => Some(Station::Dcf77),
        "msf" => Some(Station::Msf),
        "wwvb" => Some(Station::Wwvb),
        "jjy" => Some(Station::Jjy),
        _ => None,
    }
}

/// A station by its name.
pub(crate) fn station_in(value: &Value, key: Key) -> Result<Station, ConfigFault>
    ensures { Gives (λ station. station) result (station_in key (view value.now)) }
{
    let name = text_in(value, key)?;
    match station_named(name) {
        Some(station) => Ok(station),
        None => Err(ConfigFault::OutOfRange { key }),
    }
}

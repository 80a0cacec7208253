//! What stands at a key that wants a list: the receivers' tables, and the costs of the cost table.

ghost use Rattle.std.specs.Prelude.{ℕ, ◌≡◌, ◌≤◌, length, map, slice_index, IfOk};
ghost use Rattle.std.specs.List.{list_all};
ghost use Rattle.bank_config.specs.Checked.{Gives};
ghost use Rattle.bank_config.specs.Configuration.{tables_in};
ghost use Rattle.bank_config.specs.Values.{costs_in, each, is_number, is_table, list_in, number_in};
ghost use Rattle.toml.specs.View.{view};

use crate::limits::COSTS;
use crate::values::number_in;
use crate::{ConfigFault, Key};
use signal_base::{MOST_COST, MOST_RECEIVERS};
use toml::Value;

/// The values of a list.
fn list_in(value: &Value, key: Key) -> Result<&[Value], ConfigFault>
    ensures { Gives (λ list. map view list.now) result (list_in key (view value.now)) }
{
    match value.as_array() {
        Some(list) => Ok(list.as_slice()),
        None => Err(ConfigFault::WrongKind { key }),
    }
}

fn are_tables(list: &[Value]) -> bool
    ensures { result ≡ list_all (λ value. is_table (view value)) list.now }
{
    list.iter().all(|value| value.is_table())
}

fn are_numbers(list: &[Value]) -> bool
    ensures { result ≡ list_all (λ value. is_number (view value)) list.now }
{
    list.iter().all(|value| value.is_integer())
}

/// The receivers' tables: tables only, 1 to 8.
pub(crate) fn tables_in(value: &Value) -> Result<&[Value], ConfigFault>
    ensures value { Gives (λ tables. map view tables.now) result (tables_in (view value.now)) }
    ensures some { IfOk result (λ tables. 1 ≤ length tables.now) }
    ensures few { IfOk result (λ tables. length tables.now ≤ MOST_RECEIVERS) }
{
    let key = Key::Receiver;
    let tables = list_in(value, key)?;
    if !are_tables(tables) {
        return Err(ConfigFault::WrongKind { key });
    }
    if tables.is_empty() || MOST_RECEIVERS < tables.len() {
        return Err(ConfigFault::OutOfRange { key });
    }
    Ok(tables)
}

// The costs of a list of so many numbers.
fn costs_of(list: &[Value], key: Key) -> Result<[u8; COSTS], ConfigFault>
    requires { length list.now ≡ COSTS }
    ensures costs { Gives (λ costs. costs) result (each (λ _. number_in key 0 MOST_COST) 0 (map view list.now)) }
    ensures most { IfOk result (λ costs. (n : ℕ) → slice_index costs n ≤ MOST_COST) }
{
    let mut costs = [0u8; COSTS];
    for i in 0..COSTS {
        let cost = number_in(&list[i], key, 0, MOST_COST as u32)?;
        costs[i] = cost as u8;
    }
    Ok(costs)
}

/// A list of exactly 101 whole numbers, each 0 to 200.
pub(crate) fn costs_in(value: &Value, key: Key) -> Result<[u8; COSTS], ConfigFault>
    ensures costs { Gives (λ costs. costs) result (costs_in key (view value.now)) }
    ensures most { IfOk result (λ costs. (n : ℕ) → slice_index costs n ≤ MOST_COST) }
{
    let list = list_in(value, key)?;
    if list.len() != COSTS || !are_numbers(list) {
        return Err(ConfigFault::WrongKind { key });
    }
    costs_of(list, key)
}

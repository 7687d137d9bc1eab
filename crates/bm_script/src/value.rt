//! What a value of a script reads as.
ghost use Rattle.std.specs.Prelude.{◌≡◌, IfOk, IfSome, MatchResult, Some, None, option_map};
ghost use Rattle.bm_script.specs.Faults as faults;
ghost use Rattle.bm_script.specs.Keys as keys;
ghost use Rattle.bm_script.specs.Values as values;
ghost use Rattle.bm_script.specs.declared.fault.ScriptFault.TheVariants.{Missing};
ghost use Rattle.bm_script.specs.declared.key.Key.TheVariants as key_;
ghost use Rattle.bm_table.specs.Settings.{IsWithin};
ghost use Rattle.toml.specs.View.{table_view, view};

use crate::endpoint::{Endpoint, read_endpoint};
use crate::{Key, Place, ScriptFault};
use bm_base::{Hop, ServerId};
use toml::{Table, Value};

const MAX_WEIGHT: u64 = 1_000;

/// The value of a key.
pub(crate) fn find(table: &Table, key: Key) -> Option<&Value>
    ensures { option_map (λ v. view v.now) result ≡ keys.value_at key (table_view table.now) }
{
    table.get(key.word())
}

/// A whole number from `low` to `high`.
pub(crate) fn number(value: &Value, low: u64, high: u64) -> Option<u64>
    ensures number { result ≡ values.number low high (view value.now) }
    ensures within { IfSome result (IsWithin low high) }
{
    in_range(value.as_integer()?, low, high)
}

fn in_range(n: i64, low: u64, high: u64) -> Option<u64>
    ensures number { result ≡ values.in_range low high n }
    ensures within { IfSome result (IsWithin low high) }
{
    if n < 0 {
        return None;
    }
    let n = n as u64;
    if low <= n && n <= high { Some(n) } else { None }
}

pub(crate) fn required<'a>(
    table: &'a Table,
    place: Place,
    key: Key,
) -> Result<&'a Value, ScriptFault>
    ensures { MatchResult result
        (λ value. keys.value_at key (table_view table.now) ≡ Some (view value.now))
        (λ fault. (keys.value_at key (table_view table.now) ≡ None) × (fault ≡ Missing place key)) }
{
    find(table, key).ok_or(ScriptFault::Missing(place, key))
}

pub(crate) fn required_number(
    table: &Table,
    place: Place,
    key: Key,
    low: u64,
    high: u64,
) -> Result<u64, ScriptFault>
    ensures gives { result ≡ faults.required place key (values.number low high)
        (table_view table.now) }
    ensures within { IfOk result (IsWithin low high) }
{
    let value = required(table, place, key)?;
    number(value, low, high).ok_or(ScriptFault::BadValue(place, key))
}

/// The number of a server.
pub(crate) fn required_server(table: &Table, place: Place) -> Result<ServerId, ScriptFault>
    ensures gives { result ≡ faults.required place key_.Server values.server
        (table_view table.now) }
    ensures within { IfOk result (λ s. IsWithin 1 1024 s.0) }
{
    let value = required(table, place, Key::Server)?;
    let n = number(value, 1, 1_024).ok_or(ScriptFault::BadValue(place, Key::Server))?;
    Ok(ServerId(n as u16))
}

/// The weight of a server.
pub(crate) fn required_weight(table: &Table, place: Place) -> Result<u32, ScriptFault>
    ensures gives { result ≡ faults.required place key_.Weight values.weight
        (table_view table.now) }
    ensures within { IfOk result (IsWithin 1 1000) }
{
    let value = required(table, place, Key::Weight)?;
    let weight = weight(value).ok_or(ScriptFault::BadValue(place, Key::Weight))?;
    Ok(weight)
}

pub(crate) fn weight(value: &Value) -> Option<u32>
    ensures weight { result ≡ values.weight (view value.now) }
    ensures within { IfSome result (IsWithin 1 1000) }
{
    let weight = number(value, 1, MAX_WEIGHT)?;
    Some(weight as u32)
}

/// An address and a port.
pub(crate) fn required_endpoint(
    table: &Table,
    place: Place,
    key: Key,
) -> Result<Endpoint, ScriptFault>
    ensures { result ≡ faults.required place key values.endpoint_value (table_view table.now) }
{
    let value = required(table, place, key)?;
    endpoint(value).ok_or(ScriptFault::BadValue(place, key))
}

pub(crate) fn endpoint(value: &Value) -> Option<Endpoint>
    ensures { result ≡ values.endpoint_value (view value.now) }
{
    read_endpoint(value.as_str()?.as_bytes())
}

pub(crate) fn required_hop(table: &Table, place: Place) -> Result<Hop, ScriptFault>
    ensures { result ≡ faults.required place key_.Hop values.hop (table_view table.now) }
{
    let value = required(table, place, Key::Hop)?;
    hop(value).ok_or(ScriptFault::BadValue(place, Key::Hop))
}

fn hop(value: &Value) -> Option<Hop>
    ensures { result ≡ values.hop (view value.now) }
{
    match value.as_str()? {
        "direct" => Some(Hop::Direct),
        "chained" => Some(Hop::Chained),
        _ => None,
    }
}

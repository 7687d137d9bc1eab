//! The arrays of a script.
ghost use Rattle.std.specs.Prelude.{◌≡◌, ◌≤◌, true, false, Some, None, IfOk, MatchResult, ◌&&◌};
ghost use Rattle.std.specs.Prelude.{nat_le, length};
ghost use Rattle.bm_script.specs.Faults as faults;
ghost use Rattle.bm_script.specs.Values as values;
ghost use Rattle.bm_script.specs.declared.fault.Place.TheVariants.{Top};
ghost use Rattle.bm_script.specs.declared.fault.ScriptFault.TheVariants.{BadValue};
ghost use Rattle.bm_script.specs.declared.key.Key.TheVariants as key_;
ghost use Rattle.toml.specs.View.{items_view, view};

use crate::value::{endpoint, number, weight};
use crate::{Key, Place, ScriptFault};
use bm_base::{List, ServerId, Vip};
use std::alloc::Global;
use toml::Value;

/// The longest lag, in nanoseconds.
const MAX_LAG: u64 = 86_400_000_000_000;

/// The items of an array with from `low` to `high` items.
pub(crate) fn items(
    value: &Value,
    key: Key,
    low: usize,
    high: usize,
) -> Result<&[Value], ScriptFault>
    ensures items { MatchResult result
        (λ found. values.items_from low high (view value.now) ≡ Some (items_view found.now))
        (λ fault. (values.items_from low high (view value.now) ≡ None)
        × (fault ≡ BadValue Top key)) }
    ensures few { IfOk result (λ found. length found.now ≤ high) }
{
    let Some(found) = value.as_array() else {
        return Err(ScriptFault::BadValue(Place::Top, key));
    };
    let found = found.as_slice();
    if !is_within(found.len(), low, high) {
        return Err(ScriptFault::BadValue(Place::Top, key));
    }
    Ok(found)
}

fn is_within(count: usize, low: usize, high: usize) -> bool
    ensures { result ≡ (nat_le low count && nat_le count high) }
{
    low <= count && count <= high
}

/// The items, if each is a table.
pub(crate) fn tables_alone(items: &[Value], key: Key) -> Result<&[Value], ScriptFault>
    ensures { MatchResult result
        (λ found. (values.are_tables (items_view items.now) ≡ true) × (found.now ≡ items.now))
        (λ fault. (values.are_tables (items_view items.now) ≡ false) × (fault ≡ BadValue Top key)) }
{
    if are_tables(items) {
        Ok(items)
    } else {
        Err(ScriptFault::BadValue(Place::Top, key))
    }
}

fn are_tables(items: &[Value]) -> bool
    ensures { result ≡ values.are_tables (items_view items.now) }
{
    for item in items {
        if !item.is_table() {
            return false;
        }
    }
    true
}

/// Server numbers, in rising order.
pub(crate) fn server_list(alloc: Global, items: &[Value]) -> Result<List<ServerId>, ScriptFault>
    ensures { faults.Gives result
        (faults.valued Top key_.Servers (values.rising 1 (items_view items.now))) }
{
    let mut servers = Vec::new(alloc);
    let mut low = 1;
    for item in items {
        let Some(n) = number(item, low, 1_024) else {
            return Err(ScriptFault::BadValue(Place::Top, Key::Servers));
        };
        servers.push(ServerId(n as u16))?;
        low = n + 1;
    }
    Ok(List::of(servers))
}

/// Services, each an address and a port other than 0.
pub(crate) fn vip_list(alloc: Global, items: &[Value]) -> Result<List<Vip>, ScriptFault>
    ensures { faults.Gives result
        (faults.valued Top key_.Vips (values.each values.vip (items_view items.now))) }
{
    let mut vips = Vec::new(alloc);
    for item in items {
        let Some(vip) = vip(item) else {
            return Err(ScriptFault::BadValue(Place::Top, Key::Vips));
        };
        vips.push(vip)?;
    }
    Ok(List::of(vips))
}

fn vip(value: &Value) -> Option<Vip>
    ensures { result ≡ values.vip (view value.now) }
{
    let e = endpoint(value)?;
    if e.port < 1 {
        return None;
    }
    Some(Vip {
        addr: e.addr,
        port: e.port,
    })
}

/// Lags in nanoseconds, each at most a day.
pub(crate) fn lag_list(alloc: Global, items: &[Value]) -> Result<List<u64>, ScriptFault>
    ensures { faults.Gives result
        (faults.valued Top key_.Lags
        (values.each (values.number 0 86400000000000) (items_view items.now))) }
{
    let mut lags = Vec::new(alloc);
    for item in items {
        let Some(lag) = number(item, 0, MAX_LAG) else {
            return Err(ScriptFault::BadValue(Place::Top, Key::Lags));
        };
        lags.push(lag)?;
    }
    Ok(List::of(lags))
}

/// The weights of servers.
pub(crate) fn weight_list(alloc: Global, items: &[Value]) -> Result<List<u32>, ScriptFault>
    ensures { faults.Gives result
        (faults.valued Top key_.Weights (values.each values.weight (items_view items.now))) }
{
    let mut weights = Vec::new(alloc);
    for item in items {
        let Some(weight) = weight(item) else {
            return Err(ScriptFault::BadValue(Place::Top, Key::Weights));
        };
        weights.push(weight)?;
    }
    Ok(List::of(weights))
}

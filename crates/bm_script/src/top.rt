//! What the top keys of a script give.
ghost use Rattle.std.specs.Prelude.{◌≡◌, ◌≤◌, ◌<◌, Ok, Err, IfOk, IfErr, length, replicate};
ghost use Rattle.bm_script.specs.Faults as faults;
ghost use Rattle.bm_script.specs.Scripts as scripts;
ghost use Rattle.bm_script.specs.Values as values;
ghost use Rattle.bm_script.specs.declared.fault.Place.TheVariants.{Top};
ghost use Rattle.bm_script.specs.declared.key.Key.TheVariants as key_;
ghost use Rattle.bm_table.specs.Settings.{IsWithin, plain_setting};
ghost use Rattle.toml.specs.Data.{no_items};
ghost use Rattle.toml.specs.View.{items_view, table_view, view};

use crate::lists::{items, lag_list, server_list, tables_alone, vip_list, weight_list};
use crate::racks::racks;
use crate::value::{find, number};
use crate::{Key, Place, ScriptFault};
use bm_base::{List, ServerId, Vip};
use bm_table::{RouteKind, Setting};
use std::alloc::Global;
use toml::{Table, Value};

const MAX_FAULTS: usize = 4_096;

const MAX_COMMANDS: usize = 65_536;

/// What the top keys give.
#[derive(Drop)]
pub(crate) struct Opening {
    /// Without impairments.
    pub(crate) setting: Setting,
    /// The weight of each server.
    pub(crate) weights: List<u32>,
}

/// The version by which the keys are judged: 1 but where `version` is the number of a later one.
pub(crate) fn version_of(table: &Table) -> u8
    ensures { result ≡ scripts.version_of (table_view table.now) }
{
    let Some(value) = find(table, Key::Version) else {
        return 1;
    };
    number(value, 2, 3).unwrap_or(1) as u8
}

/// The setting and the weights that the top keys give.
pub(crate) fn read_opening(alloc: Global, table: &Table) -> Result<Opening, ScriptFault>
    ensures { faults.Gives result (scripts.opening_of (table_view table.now)) }
{
    top_number(table, Key::Version, 1, 1, 3)?;
    let buckets = top_number(table, Key::Buckets, 8, 1, 65_536)?;
    let servers = top_servers(alloc, table)?;
    let weights = top_weights(alloc, table, servers.items().len())?;
    let racks = top_racks(table, buckets, servers.items())?;
    let muxes = top_number(table, Key::Muxes, 1, 1, 64)?;
    let shards = top_number(table, Key::Shards, 4, 1, 64)?;
    let capacity = top_number(table, Key::Capacity, 4_096, 1, 65_536)?;
    let timeout = top_number(table, Key::Timeout, 240, 1, 86_400)?;
    let vips = top_vips(alloc, table)?;
    let route = top_route(table)?;
    let lags = top_lags(alloc, table, muxes as usize)?;
    let setting = Setting {
        buckets: buckets as u32,
        servers,
        racks,
        muxes: muxes as u16,
        shards: shards as u16,
        capacity: capacity as u32,
        timeout: timeout * 1_000_000_000,
        vips,
        route,
        lags,
        faults: List::of(Vec::new(alloc)),
    };
    Ok(Opening { setting, weights })
}

/// The number of a key, or `plain` if the key isn't there.
fn top_number(table: &Table, key: Key, plain: u64, low: u64, high: u64) -> Result<u64, ScriptFault>
    requires { IsWithin low high plain }
    ensures gives { result ≡ faults.optional key plain (values.number low high)
        (table_view table.now) }
    ensures within { IfOk result (IsWithin low high) }
{
    match find(table, key) {
        None => Ok(plain),
        Some(value) => number(value, low, high).ok_or(ScriptFault::BadValue(Place::Top, key)),
    }
}

fn top_servers(alloc: Global, table: &Table) -> Result<List<ServerId>, ScriptFault>
    ensures { faults.Gives result
        (faults.optional key_.Servers plain_setting.servers values.servers (table_view table.now)) }
{
    match find(table, Key::Servers) {
        None => Ok(List::of(vec![in alloc; ServerId(1), ServerId(2)]?)),
        Some(value) => server_list(alloc, items(value, Key::Servers, 1, 1_024)?),
    }
}

/// The weight of each server, 1 if the key isn't there.
fn top_weights(alloc: Global, table: &Table, servers: usize) -> Result<List<u32>, ScriptFault>
    ensures { faults.Gives result
        (faults.optional key_.Weights (replicate servers 1) (values.weights servers)
        (table_view table.now)) }
{
    match find(table, Key::Weights) {
        None => Ok(List::of(vec![in alloc; 1; servers]?)),
        Some(value) => weight_list(alloc, items(value, Key::Weights, servers, servers)?),
    }
}

/// How many racks there are, 1 if the key isn't there.
fn top_racks(table: &Table, buckets: u64, servers: &[ServerId]) -> Result<u16, ScriptFault>
    ensures { result ≡ faults.optional key_.Racks plain_setting.racks
        (values.racks buckets servers.now) (table_view table.now) }
{
    match find(table, Key::Racks) {
        None => Ok(1),
        Some(value) => {
            racks(value, buckets, servers).ok_or(ScriptFault::BadValue(Place::Top, Key::Racks))
        }
    }
}

fn top_vips(alloc: Global, table: &Table) -> Result<List<Vip>, ScriptFault>
    ensures { faults.Gives result
        (faults.optional key_.Vips plain_setting.vips values.vips (table_view table.now)) }
{
    match find(table, Key::Vips) {
        None => Ok(List::of(vec![in alloc;
            Vip {
                addr: 0xc000_0201,
                port: 80
            },
        ]?)),
        Some(value) => vip_list(alloc, items(value, Key::Vips, 1, 64)?),
    }
}

fn top_route(table: &Table) -> Result<RouteKind, ScriptFault>
    ensures { result ≡ faults.optional key_.Route plain_setting.route values.route
        (table_view table.now) }
{
    match find(table, Key::Route) {
        None => Ok(RouteKind::Port),
        Some(value) => route(value).ok_or(ScriptFault::BadValue(Place::Top, Key::Route)),
    }
}

fn route(value: &Value) -> Option<RouteKind>
    ensures { result ≡ values.route (view value.now) }
{
    match value.as_str()? {
        "port" => Some(RouteKind::Port),
        "turn" => Some(RouteKind::Turn),
        _ => None,
    }
}

/// A lag for each mux, 0 if the key isn't there.
fn top_lags(alloc: Global, table: &Table, muxes: usize) -> Result<List<u64>, ScriptFault>
    ensures { faults.Gives result
        (faults.optional key_.Lags (replicate muxes 0) (values.lags muxes) (table_view table.now)) }
{
    match find(table, Key::Lags) {
        None => Ok(List::of(vec![in alloc; 0; muxes]?)),
        Some(value) => lag_list(alloc, items(value, Key::Lags, muxes, muxes)?),
    }
}

/// The fault tables, at most 4,096.
pub(crate) fn fault_tables(table: &Table) -> Result<&[Value], ScriptFault>
    ensures ok { IfOk result
        (λ found. faults.optional key_.Fault no_items (values.tables 4096) (table_view table.now)
        ≡ Ok (items_view found.now)) }
    ensures few { IfOk result (λ found. length found.now ≤ 4096) }
    ensures err { IfErr result
        (λ fault. faults.optional key_.Fault no_items (values.tables 4096) (table_view table.now)
        ≡ Err fault) }
{
    tables(table, Key::Fault, MAX_FAULTS)
}

/// The command tables, at most 65,536.
pub(crate) fn command_tables(table: &Table) -> Result<&[Value], ScriptFault>
    ensures ok { IfOk result
        (λ found. faults.optional key_.Command no_items (values.tables 65536) (table_view table.now)
        ≡ Ok (items_view found.now)) }
    ensures few { IfOk result (λ found. length found.now ≤ 65536) }
    ensures err { IfErr result
        (λ fault. faults.optional key_.Command no_items (values.tables 65536) (table_view table.now)
        ≡ Err fault) }
{
    tables(table, Key::Command, MAX_COMMANDS)
}

/// The tables of a key, none if the key isn't there.
fn tables(table: &Table, key: Key, most: usize) -> Result<&[Value], ScriptFault>
    ensures ok { IfOk result
        (λ found. faults.optional key no_items (values.tables most) (table_view table.now)
        ≡ Ok (items_view found.now)) }
    ensures few { IfOk result (λ found. length found.now ≤ most) }
    ensures err { IfErr result
        (λ fault. faults.optional key no_items (values.tables most) (table_view table.now)
        ≡ Err fault) }
{
    match find(table, key) {
        None => Ok(&[]),
        Some(value) => tables_alone(items(value, key, 0, most)?, key),
    }
}

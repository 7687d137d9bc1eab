//! The racks in which servers stand.
ghost use Rattle.std.specs.Prelude.{◌≡◌, ◌≤◌};
ghost use Rattle.bm_script.specs.Values as values;
ghost use Rattle.toml.specs.View.{view};

use crate::value::number;
use bm_base::ServerId;
use bm_table::rack_of;
use toml::Value;

const MAX_RACKS: u64 = 64;

/// How many racks there are: at most as many as buckets, and each has one of the servers.
pub(crate) fn racks(value: &Value, buckets: u64, servers: &[ServerId]) -> Option<u16>
    ensures { result ≡ values.racks buckets servers.now (view value.now) }
{
    let racks = number(value, 1, MAX_RACKS.min(buckets))? as u16;
    if are_filled(racks, servers) {
        Some(racks)
    } else {
        None
    }
}

/// Whether each rack has one of the servers.
fn are_filled(racks: u16, servers: &[ServerId]) -> bool
    requires { 1 ≤ racks }
    ensures { result ≡ values.are_filled racks servers.now }
{
    for rack in 0..racks {
        if !has_server(racks, servers, rack) {
            return false;
        }
    }
    true
}

/// Whether one of the servers stands in this rack.
fn has_server(racks: u16, servers: &[ServerId], rack: u16) -> bool
    requires { 1 ≤ racks }
    ensures { result ≡ values.has_server racks servers.now rack }
{
    servers.iter().any(
        |server|
            requires { 1 ≤ racks }
        { rack_of(racks, *server) == rack },
    )
}

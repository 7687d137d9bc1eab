//! The numbers of a setting: of buckets, servers, racks, muxes and shards.
ghost use Rattle.std.specs.Prelude.{◌≡◌, ◌≤◌, ◌<◌, IfOk};
ghost use Rattle.bm_table.specs.Settings as spec;

use bm_base::{Fate, Hop, List, Memory, ServerId, Vip};
use std::alloc::Global;

/// How packets are assigned to muxes: by source port, or in turn.
#[derive(Clone, Copy, PartialEq, Eq)]
pub enum RouteKind {
    Port,
    Turn,
}

/// An impairment: what becomes of a packet's sendings with one hop.
#[derive(Clone, Copy, PartialEq, Eq)]
pub struct FaultRow {
    pub packet: u32,
    pub hop: Hop,
    pub fate: Fate,
}

/// The numbers of a setting: of buckets, servers, racks, muxes and shards. `timeout` and `lags` are
/// in nanoseconds, `capacity` is that of a shard.
#[derive(Drop)]
pub struct Setting {
    pub buckets: u32,
    pub servers: List<ServerId>,
    pub racks: u16,
    pub muxes: u16,
    pub shards: u16,
    pub capacity: u32,
    pub timeout: u64,
    pub vips: List<Vip>,
    pub route: RouteKind,
    pub lags: List<u64>,
    pub faults: List<FaultRow>,
}

impl Setting {
    /// The setting of a script that sets nothing: 8 buckets on servers 1 and 2 in one rack, one mux
    /// without a lag, 4 shards of 4,096 connections, a timeout of 240 seconds, the service
    /// 192.0.2.1:80. `Memory` where memory was refused.
    pub fn plain(alloc: Global) -> Result<Setting, Memory>
        ensures { IfOk result (λ setting. setting ≡ spec.plain_setting) }
    {
        Ok(Setting {
            buckets: 8,
            servers: List::of(vec![in alloc; ServerId(1), ServerId(2)]?),
            racks: 1,
            muxes: 1,
            shards: 4,
            capacity: 4_096,
            timeout: 240_000_000_000,
            vips: List::of(vec![in alloc;
                Vip {
                    addr: 0xc000_0201,
                    port: 80
                },
            ]?),
            route: RouteKind::Port,
            lags: List::of(vec![in alloc; 0]?),
            faults: List::of(Vec::new(alloc)),
        })
    }
}

/// The rack of a server, counted from 0: servers stand in the racks in turn, by their numbers.
pub fn rack_of(racks: u16, server: ServerId) -> u16
    requires { 1 ≤ racks }
    ensures rack { result ≡ spec.rack_of racks server }
    ensures within { result < racks }
{
    server.0.saturating_sub(1) % racks
}

//! For each server: how many arrivals it accepted and processed, and the most connections that one
//! of its shards held at once.
ghost use Rattle.std.specs.Prelude.{◌≡◌, ◌∷◌, [], List, Some, OnOk, IfOk, if◌then◌else◌, map};
ghost use Rattle.bm_base.specs.declared.ids.ServerId.{ServerId};
ghost use Rattle.bm_table.specs.Tables.{same_server};
ghost use Rattle.bm_core.specs.declared.events.Event.{Event};
ghost use Rattle.bm_connections.specs.Counts as spec;
ghost use Rattle.bm_connections.specs.Inside.Held.{AreHeldByShards};
ghost use Rattle.bm_connections.specs.Inside.Loads as kept;

use crate::held::HeldByShards;
use crate::observed::{as_break, is_accept, is_process, one_more};
use crate::text::shown_rack;
use bm_base::ServerId;
use bm_core::{Event, Stage, Verdict};
use std::alloc::{AllocError, Global};
use std::collections::BTreeMap;

/// The rack of a server, if there is more than one, how many arrivals it accepted, how many it
/// processed, the most connections that one of its shards held at once, and how many connections a
/// shard can hold.
#[derive(Clone, Copy, PartialEq, Eq)]
pub struct ServerCount {
    pub server: ServerId,
    pub rack: Option<u16>,
    pub accepted: u64,
    pub processed: u64,
    pub most_held: u64,
    pub capacity: u32,
}

/// How many arrivals a server accepted, and how many it processed.
#[derive(Clone, Copy)]
pub(crate) struct Served {
    pub(crate) server: ServerId,
    pub(crate) accepted: u64,
    pub(crate) processed: u64,
}

/// The counts of each server, as far as events have been read.
#[derive(Drop)]
pub(crate) struct Loads {
    counts: BTreeMap<ServerId, Served>,
}

impl Loads {
    pub(crate) fn new(alloc: Global) -> Loads
        ensures { kept.AreLoads [] (kept.load result) }
    {
        Loads {
            counts: BTreeMap::new(alloc),
        }
    }

    /// The server's counts, or none.
    fn get(&self, server: ServerId) -> Served
        ensures { result ≡ kept.count_or_none (kept.load self.now server) server }
    {
        match self.counts.get(&server) {
            None => Served {
                server,
                accepted: 0,
                processed: 0,
            },
            Some(count) => *count,
        }
    }

    fn put(&mut self, server: ServerId, count: Served) -> Result<(), AllocError>
        ensures { OnOk result ((q : ServerId) → kept.load self.new q
            ≡ (if same_server server q then Some count else kept.load self.old q)) }
    {
        self.counts.insert(server, count)?;
        Ok(())
    }

    /// Records an arrival at the server.
    fn observe_arrival(&mut self, server: ServerId, verdict: Verdict) -> Result<(), AllocError>
        requires { kept.CanCount (kept.count_or_none (kept.load self.old server) server) }
        ensures { OnOk result ((q : ServerId) → kept.load self.new q ≡ (if same_server server q
            then Some (kept.counted verdict (kept.count_or_none (kept.load self.old server) server))
            else kept.load self.old q)) }
    {
        let before = self.get(server);
        let count = Served {
            accepted: one_more(is_accept(verdict), before.accepted),
            processed: one_more(is_process(verdict), before.processed),
            ..before
        };
        self.put(server, count)
    }

    /// Records the event that comes next.
    pub(crate) fn observe(&mut self, event: &Event) -> Result<(), AllocError>
        requires { kept.HaveRoom (kept.load self.old) }
        ensures { (past : List Event) → kept.AreLoads past (kept.load self.old)
            → OnOk result (kept.AreLoads (event.now ∷ past) (kept.load self.new)) }
    {
        match as_break(event, None) {
            None => Ok(()),
            Some(arrival) => {
                self.observe_arrival(arrival.server, arrival.verdict)?;
                Ok(())
            }
        }
    }
}

/// The counts of a server, from those of its arrivals and of its shards.
fn server_count(stage: &Stage, loads: &Loads, held: &HeldByShards, server: ServerId) -> ServerCount
    ensures { (past : List Event) → kept.AreLoads past (kept.load loads.now)
        → AreHeldByShards stage.now past held.now
        → result ≡ spec.server_count stage.now past server }
{
    let setting = &stage.script.setting;
    let served = loads.get(server);
    ServerCount {
        server,
        rack: shown_rack(setting.racks, Some(server)),
        accepted: served.accepted,
        processed: served.processed,
        most_held: held.most_among(server, setting.shards),
        capacity: setting.capacity,
    }
}

/// The counts of these servers, in their order, from those of all arrivals and of all shards.
pub(crate) fn server_counts(
    alloc: Global,
    stage: &Stage,
    loads: &Loads,
    held: &HeldByShards,
    servers: &[ServerId],
) -> Result<Vec<ServerCount>, AllocError>
    ensures { IfOk result (λ list. (past : List Event) → kept.AreLoads past (kept.load loads.now)
        → AreHeldByShards stage.now past held.now
        → list.items ≡ map (spec.server_count stage.now past) servers.now) }
{
    let mut list = Vec::with_capacity(alloc, servers.len())?;
    for server in servers {
        list.push(server_count(stage, loads, held, *server))?;
    }
    Ok(list)
}

//! What servers would hold if no shard had retired, and when shards retired.
ghost use Rattle.std.specs.Prelude.{◌≡◌, ◌∷◌, [], List, length, OnOk, Some, None};
ghost use Rattle.bm_core.specs.Causes.{is_holding};
ghost use Rattle.bm_core.specs.Past as pasts;
ghost use Rattle.bm_core.specs.declared.events.Event.{Event};
ghost use Rattle.bm_core.specs.declared.events.Stage.{Stage};
ghost use Rattle.bm_state.specs.Inside.Retirements.{same_key};
ghost use Rattle.bm_trace.specs.Ranges.{HasRanges};
ghost use Rattle.bm_connections.specs.Needed.{retired_at, unretired, without_retirements};

use bm_base::{Flow, Moment, ServerId};
use bm_core::{Stage, What};
use bm_hash::shard_of;
use bm_state::{Holders, ShardKey};
use bm_table::Retirement;
use std::alloc::{AllocError, Global};
use std::collections::BTreeMap;

/// The event, but with a Sync, which changes nothing, in place of a retirement.
fn with_sync(what: What) -> What
    ensures { result ≡ unretired what }
{
    match what {
        What::Retire { .. } => What::Sync,
        _ => what,
    }
}

/// The moments at which shards retired first.
#[derive(Drop)]
pub(crate) struct FirstRetirements {
    moments: BTreeMap<ShardKey, Moment>,
}

impl FirstRetirements {
    ghost use Rattle.bm_state.specs.declared.shard_key.ShardKey.{ShardKey};
    ghost use Rattle.bm_connections.specs.Inside.Needs.{KnowsRetired, first_in, put_first};

    fn get(&self, key: ShardKey) -> Option<Moment>
        ensures { result ≡ first_in self.now key }
    {
        self.moments.get(&key).copied()
    }

    fn put(&mut self, key: ShardKey, at: Moment) -> Result<(), AllocError>
        ensures { OnOk result ((q : ShardKey) → first_in self.new q
            ≡ put_first key at q (first_in self.old q)) }
    {
        if self.get(key).is_none() {
            self.moments.insert(key, at)?;
        }
        Ok(())
    }

    /// Records what happens next.
    fn observe(&mut self, what: What) -> Result<(), AllocError>
        ensures { (past : List Event) (e : Event) → e.what ≡ what → KnowsRetired past self.old
            → OnOk result (KnowsRetired (e ∷ past) self.new) }
    {
        match what {
            What::Retire {
                server,
                shard,
                at,
                result: Retirement::Done,
            } => self.put(ShardKey::at(server, shard), at),
            _ => Ok(()),
        }
    }
}

/// Which servers would hold which flows after some events if no shard had retired, and when shards
/// retired.
#[derive(Drop)]
pub(crate) struct Unretired {
    holders: Holders,
    retired: FirstRetirements,
}

impl Unretired {
    ghost use Rattle.bm_connections.specs.Inside.Needs.{KnowsUnretired};

    /// Before the first event.
    pub(crate) fn new(alloc: Global) -> Unretired
        ensures { (stage : Stage) → KnowsUnretired stage [] result }
    {
        Unretired {
            holders: Holders::new(alloc),
            retired: FirstRetirements {
                moments: BTreeMap::new(alloc),
            },
        }
    }

    /// Records what happens next, after this many events.
    pub(crate) fn observe(
        &mut self,
        alloc: Global,
        stage: &Stage,
        place: usize,
        what: What,
    ) -> Result<(), AllocError>
        ensures { (past : List Event) (e : Event) → e.what ≡ what → place ≡ length past
            → KnowsUnretired stage.now past self.old
            → OnOk result (KnowsUnretired stage.now (e ∷ past) self.new) }
    {
        self.holders.observe(alloc, stage, place, with_sync(what))?;
        self.retired.observe(what)?;
        Ok(())
    }

    /// Whether the server would hold the connection of the Accept at this place.
    pub(crate) fn is_holding(
        &self,
        stage: &Stage,
        server: ServerId,
        flow: &Flow,
        place: usize,
    ) -> bool
        requires { HasRanges stage.now }
        ensures { (past : List Event) → KnowsUnretired stage.now past self.now → result
            ≡ is_holding (pasts.held stage.now (without_retirements past) server flow.now) place }
    {
        self.holders.of(stage, flow).place(server) == Some(place)
    }

    /// The moment at which the flow's shard of the server retired first.
    pub(crate) fn retired_at(&self, stage: &Stage, server: ServerId, flow: &Flow) -> Option<Moment>
        requires { HasRanges stage.now }
        ensures { (past : List Event) → KnowsUnretired stage.now past self.now → result
            ≡ retired_at past server (pasts.shard stage.now flow.now) }
    {
        let shard = shard_of(flow, stage.script.setting.shards);
        self.retired.get(ShardKey::at(server, shard))
    }
}

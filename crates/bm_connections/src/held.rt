//! How many connections each shard of a server holds, and the most that it held at once.
ghost use Rattle.std.specs.Prelude.{◌≡◌, ◌∷◌, [], List, length};
ghost use Rattle.std.specs.Prelude.{Some, None, OnOk, if◌then◌else◌};
ghost use Rattle.bm_core.specs.Past as past;
ghost use Rattle.bm_core.specs.declared.events.Event.{Event};
ghost use Rattle.bm_core.specs.declared.events.Stage.{Stage};
ghost use Rattle.bm_state.specs.Holders.{KeepsHolders};
ghost use Rattle.bm_state.specs.Inside.Retirements.{same_key};
ghost use Rattle.bm_trace.specs.Ranges.{HasRanges};
ghost use Rattle.bm_connections.specs.Counts.{most_among};
ghost use Rattle.bm_connections.specs.Inside.Held as kept;

use crate::observed::one_more;
use bm_base::{Flow, Segment, ServerId, Taken};
use bm_core::{Event, Stage, Verdict, What};
use bm_hash::shard_of;
use bm_state::{Holders, ShardKey};
use bm_table::Retirement;
use std::alloc::{AllocError, Global};
use std::collections::BTreeMap;

/// How an event changes the connections of a shard: it opens one, ends one, or ends all.
#[derive(Clone, Copy)]
pub(crate) enum FlowChange {
    Opens(Flow),
    Ends(Flow),
    Empties,
}

/// A shard, and how its connections change.
#[derive(Clone, Copy)]
pub(crate) struct ShardChange {
    pub(crate) key: ShardKey,
    pub(crate) flow_change: FlowChange,
}

fn verdict_change(verdict: Verdict, flow: Flow) -> Option<FlowChange>
    ensures { result ≡ kept.verdict_change verdict flow }
{
    match verdict {
        Verdict::Accept => Some(FlowChange::Opens(flow)),
        Verdict::Process(Taken::Ended) => Some(FlowChange::Ends(flow)),
        _ => None,
    }
}

fn change_at(server: ServerId, shard: u16, flow_change: Option<FlowChange>) -> Option<ShardChange>
    ensures { result ≡ kept.change_at server shard flow_change }
{
    Some(ShardChange {
        key: ShardKey::at(server, shard),
        flow_change: flow_change?,
    })
}

fn arrival_change(
    stage: &Stage,
    server: ServerId,
    verdict: Verdict,
    segment: Option<Segment>,
) -> Option<ShardChange>
    requires { HasRanges stage.now }
    ensures { result ≡ kept.arrival_change stage.now server verdict segment }
{
    let flow = segment?.flow;
    let shard = shard_of(&flow, stage.script.setting.shards);
    change_at(server, shard, verdict_change(verdict, flow))
}

fn close_change(stage: &Stage, server: ServerId, flow: Flow, closed: bool) -> Option<ShardChange>
    requires { HasRanges stage.now }
    ensures { result ≡ kept.change_of stage.now (What.Close server flow closed) }
{
    let flow_change = if closed {
        Some(FlowChange::Ends(flow))
    } else {
        None
    };
    let shard = shard_of(&flow, stage.script.setting.shards);
    change_at(server, shard, flow_change)
}

fn retire_change(server: ServerId, shard: u16, answer: Retirement) -> Option<ShardChange>
    ensures { result
        ≡ kept.change_at server shard
        (if past.is_done answer then Some FlowChange.Empties else None) }
{
    let flow_change = match answer {
        Retirement::Done => Some(FlowChange::Empties),
        Retirement::NotDrained | Retirement::TooEarly(_) => None,
    };
    change_at(server, shard, flow_change)
}

/// The change of a shard by the event, if there is one.
fn change_of(stage: &Stage, what: What) -> Option<ShardChange>
    requires { HasRanges stage.now }
    ensures { result ≡ kept.change_of stage.now what }
{
    match what {
        What::Arrive {
            packet,
            server,
            verdict,
            ..
        } => arrival_change(stage, server, verdict, stage.segment(packet)),
        What::Close {
            server,
            flow,
            closed,
        } => close_change(stage, server, flow, closed),
        What::Retire {
            server,
            shard,
            result,
            ..
        } => retire_change(server, shard, result),
        What::Publish(_)
        | What::Switch { .. }
        | What::Steer { .. }
        | What::Lose { .. }
        | What::Sync => None,
    }
}

/// Whether the server holds the flow that the change opens or ends.
fn is_held(holders: &Holders, stage: &Stage, change: ShardChange) -> bool
    requires { HasRanges stage.now }
    ensures { (past : List Event) → KeepsHolders stage.now past holders.now
        → result ≡ kept.is_held stage.now past change }
{
    let server = ServerId(change.key.server);
    match change.flow_change {
        FlowChange::Opens(flow) | FlowChange::Ends(flow) => {
            holders.of(stage, &flow).place(server).is_some()
        }
        FlowChange::Empties => false,
    }
}

/// How many connections a shard holds, and the most that it held at once.
#[derive(Clone, Copy)]
pub(crate) struct ShardCount {
    pub(crate) held: u64,
    pub(crate) most: u64,
}

impl ShardCount {
    /// The count after the change of a flow that the server held before, or didn't.
    fn changed(self, flow_change: FlowChange, is_held: bool) -> ShardCount
        requires { kept.CanCount self }
        ensures { result ≡ kept.changed flow_change is_held self }
    {
        let held = match flow_change {
            FlowChange::Opens(_) => one_more(!is_held, self.held),
            FlowChange::Ends(_) => self.held.saturating_sub(u64::from(is_held)),
            FlowChange::Empties => 0,
        };
        ShardCount {
            held,
            most: held.max(self.most),
        }
    }
}

/// The counts of the shards of all servers, as far as events have been read.
#[derive(Drop)]
pub(crate) struct ShardCounts {
    counts: BTreeMap<ShardKey, ShardCount>,
}

impl ShardCounts {
    ghost use Rattle.bm_state.specs.declared.shard_key.ShardKey.{ShardKey};

    fn new(alloc: Global) -> ShardCounts
        ensures { (stage : Stage) → kept.AreCounts stage [] (kept.count result) }
    {
        ShardCounts {
            counts: BTreeMap::new(alloc),
        }
    }

    /// The shard's count, or zeros.
    fn get(&self, key: ShardKey) -> ShardCount
        ensures { result ≡ kept.count_or_none (kept.count self.now key) }
    {
        match self.counts.get(&key) {
            None => ShardCount { held: 0, most: 0 },
            Some(count) => *count,
        }
    }

    fn put(&mut self, key: ShardKey, count: ShardCount) -> Result<(), AllocError>
        ensures { OnOk result ((q : ShardKey) → kept.count self.new q
            ≡ (if same_key key q then Some count else kept.count self.old q)) }
    {
        self.counts.insert(key, count)?;
        Ok(())
    }

    /// Applies the change to its shard's count, of a flow that the server held before, or didn't.
    fn apply(&mut self, change: ShardChange, is_held: bool) -> Result<(), AllocError>
        requires { kept.CanCount (kept.count_or_none (kept.count self.old change.key)) }
        ensures { OnOk result ((q : ShardKey) → kept.count self.new q
            ≡ (if same_key change.key q
            then Some (kept.changed change.flow_change is_held
            (kept.count_or_none (kept.count self.old change.key)))
            else kept.count self.old q)) }
    {
        let count = self.get(change.key).changed(change.flow_change, is_held);
        self.put(change.key, count)
    }

    /// Records the event that comes next, where these servers hold flows before it.
    #[tactic(auto, using(crate::proofs::Holding::counts_still))]
    fn observe(&mut self, holders: &Holders, stage: &Stage, event: &Event) -> Result<(), AllocError>
        requires ranges { HasRanges stage.now }
        requires room { kept.HaveRoom (kept.count self.old) }
        ensures { (past : List Event) → KeepsHolders stage.now past holders.now
            → kept.AreCounts stage.now past (kept.count self.old)
            → OnOk result (kept.AreCounts stage.now (event.now ∷ past) (kept.count self.new)) }
    {
        if let Some(change) = change_of(stage, event.what) {
            let is_held = is_held(holders, stage, change);
            self.apply(change, is_held)?;
        }
        Ok(())
    }
}

/// What is kept of each shard of each server, after some events.
#[derive(Drop)]
pub(crate) struct HeldByShards {
    holders: Holders,
    counts: ShardCounts,
}

impl HeldByShards {
    pub(crate) fn new(alloc: Global) -> HeldByShards
        ensures { (stage : Stage) → kept.AreHeldByShards stage [] result }
    {
        HeldByShards {
            holders: Holders::new(alloc),
            counts: ShardCounts::new(alloc),
        }
    }

    /// Records the event that comes next, after this many events.
    pub(crate) fn observe(
        &mut self,
        alloc: Global,
        stage: &Stage,
        place: usize,
        event: &Event,
    ) -> Result<(), AllocError>
        requires ranges { HasRanges stage.now }
        requires room { kept.HaveRoom (kept.count self.old.counts) }
        ensures { (past : List Event) → place ≡ length past
            → kept.AreHeldByShards stage.now past self.old
            → OnOk result (kept.AreHeldByShards stage.now (event.now ∷ past) self.new) }
    {
        self.counts.observe(&self.holders, stage, event)?;
        self.holders.observe(alloc, stage, place, event.what)?;
        Ok(())
    }

    /// The most that one of the server's first shards held at once.
    pub(crate) fn most_among(&self, server: ServerId, shards: u16) -> u64
        ensures { (stage : Stage) (past : List Event)
            → kept.AreHeldByShards stage past self.now
            → result ≡ most_among stage past server shards }
    {
        let mut most = 0;
        for shard in 0..shards {
            let count = self.counts.get(ShardKey::at(server, shard));
            most = count.most.max(most);
        }
        most
    }
}

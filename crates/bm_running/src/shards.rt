//! The shards of all servers.
ghost use Rattle.std.specs.Prelude.{◌≡◌, ◌≤◌, [], ◌∷◌, List, IfOk, OnOk, Some, false, is_some};
ghost use Rattle.bm_base.specs.Labels.{tag_of};
ghost use Rattle.bm_base.specs.declared.ids.Moment.{Moment};
ghost use Rattle.bm_base.specs.declared.label.Label.{Label};
ghost use Rattle.bm_core.specs.Past.{held, segment_of};
ghost use Rattle.bm_core.specs.Stages.{IsSound};
ghost use Rattle.bm_core.specs.Verdicts.{verdict_at};
ghost use Rattle.bm_core.specs.declared.events.Event.{Event};
ghost use Rattle.bm_core.specs.declared.events.Stage.{Stage};
ghost use Rattle.bm_shard.specs.Books.{IsShort};
ghost use Rattle.bm_shard.specs.Replies.{what_of};
ghost use Rattle.bm_shard.specs.States as states;
ghost use Rattle.bm_shard.specs.States.{known_in};
ghost use Rattle.bm_running.specs.Inside.Shards.{server_of, shard_by};
ghost use Rattle.bm_table.specs.Settings.{IsWithin};

use bm_base::{Flow, Memory, Moment, Segment, ServerId, Tag};
use bm_core::{Stage, Verdict, What};
use bm_hash::shard_of;
use bm_shard::{Shard, ShardCall, ShardState};
use bm_state::ShardKey;
use bm_table::{Retirement, Setting};
use std::alloc::Global;
use std::collections::BTreeMap;

/// The state of the shard before it was asked anything.
fn first_state(alloc: Global, setting: &Setting, key: ShardKey) -> Result<ShardState, Memory>
    requires { IsWithin 1 65536 setting.now.capacity }
    ensures { IfOk result
        (λ state. state ≡ states.first_state (shard_by setting.now (server_of key) key.shard)) }
{
    let shard = Shard {
        server: ServerId(key.server),
        number: key.shard,
        capacity: setting.capacity,
        timeout: setting.timeout,
    };
    let state = ShardState::new(alloc, shard)?;
    Ok(state)
}

/// The shards that were asked something, after some events.
#[derive(Drop)]
pub(crate) struct Shards {
    states: BTreeMap<ShardKey, ShardState>,
}

impl Shards {
    ghost use Rattle.bm_running.specs.Inside.Shards.{IsServedAt, KeepsShards, state_in};

    /// Before the first event.
    pub(crate) fn new(alloc: Global) -> Shards
        ensures { (stage : Stage) → KeepsShards stage [] result }
    {
        Shards {
            states: BTreeMap::new(alloc),
        }
    }

    /// Makes a call to the shard at this clock: what happens.
    fn serve(
        &mut self,
        alloc: Global,
        setting: &Setting,
        key: ShardKey,
        clock: Moment,
        call: &ShardCall,
    ) -> Result<What, Memory>
        requires capacity { IsWithin 1 65536 setting.now.capacity }
        requires short { IsShort call.now }
        ensures what { IfOk result (λ what. let state = state_in setting.now self.old key in
            what ≡ what_of state.shard (known_in state) clock call.now) }
        ensures served { OnOk result
            (IsServedAt setting.now key clock call.now self.old self.new) }
    {
        if let Some(state) = self.states.get_mut(&key) {
            let (what, _) = state.serve(clock, call)?;
            return Ok(what);
        }
        let mut state = first_state(alloc, setting, key)?;
        let (what, _) = state.serve(clock, call)?;
        self.states.insert(key, state)?;
        Ok(what)
    }

    /// A copy with this tag arrives at this clock: the verdict on it.
    pub(crate) fn arrive(
        &mut self,
        alloc: Global,
        stage: &Stage,
        clock: Moment,
        packet: u32,
        tag: Tag,
        segment: Segment,
    ) -> Result<Verdict, Memory>
        requires sound { IsSound stage.now }
        requires short { segment.len ≤ 1048576 }
        ensures verdict { (past : List Event) (label : Label) → KeepsShards stage.now past self.old
            → tag_of label tag.hop ≡ Some tag
            → IfOk result
            (λ v. v ≡ verdict_at stage.now past clock.0 label tag.hop tag.dest segment) }
        ensures kept { (past : List Event) (e : Event) → KeepsShards stage.now past self.old
            → segment_of stage.now packet ≡ Some segment
            → IfOk result (λ v. e.what ≡ What.Arrive packet tag.hop tag.dest v
            → KeepsShards stage.now (e ∷ past) self.new) }
    {
        let key = ShardKey {
            server: tag.dest.0,
            shard: shard_of(&segment.flow, stage.script.setting.shards),
        };
        let call = ShardCall::Arrive {
            packet,
            tag,
            segment,
            due: clock,
        };
        let what = self.serve(alloc, &stage.script.setting, key, clock, &call)?;
        match what {
            What::Arrive { verdict, .. } => Ok(verdict),
            _ => unreachable!(),
        }
    }

    /// The server closes a flow at this clock: whether it held it.
    pub(crate) fn close(
        &mut self,
        alloc: Global,
        stage: &Stage,
        clock: Moment,
        server: ServerId,
        flow: Flow,
    ) -> Result<bool, Memory>
        requires sound { IsSound stage.now }
        ensures held { (past : List Event) → KeepsShards stage.now past self.old
            → IfOk result (λ closed. closed ≡ is_some (held stage.now past server flow)) }
        ensures kept { (past : List Event) (e : Event) → KeepsShards stage.now past self.old
            → IfOk result (λ closed. e.what ≡ What.Close server flow closed
            → KeepsShards stage.now (e ∷ past) self.new) }
    {
        let key = ShardKey {
            server: server.0,
            shard: shard_of(&flow, stage.script.setting.shards),
        };
        let call = ShardCall::Close { flow, at: clock };
        let what = self.serve(alloc, &stage.script.setting, key, clock, &call)?;
        match what {
            What::Close { closed, .. } => Ok(closed),
            _ => unreachable!(),
        }
    }

    /// A shard of the server is to be retired at this clock, which has this result.
    pub(crate) fn retire(
        &mut self,
        alloc: Global,
        stage: &Stage,
        clock: Moment,
        server: ServerId,
        shard: u16,
        answer: Retirement,
    ) -> Result<(), Memory>
        requires sound { IsSound stage.now }
        ensures kept { (past : List Event) (e : Event) (at : Moment)
            → KeepsShards stage.now past self.old
            → e.what ≡ What.Retire server shard at answer
            → OnOk result (KeepsShards stage.now (e ∷ past) self.new) }
    {
        let key = ShardKey {
            server: server.0,
            shard,
        };
        let call = ShardCall::Retire {
            at: clock,
            result: answer,
        };
        self.serve(alloc, &stage.script.setting, key, clock, &call)?;
        Ok(())
    }
}

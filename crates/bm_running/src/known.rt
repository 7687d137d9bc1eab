//! What is known of the events so far, by which it is decided whether another may come.
ghost use Rattle.std.specs.Prelude.{◌≡◌, [], ◌∷◌, List, IfOk, MatchBool, OnOk, true};
ghost use Rattle.std.specs.Prelude.{◌<◌, ◌^◌, ℕ, length};
ghost use Rattle.std.specs.Bool.{Decides};
ghost use Rattle.bm_core.specs.Past.{newest};
ghost use Rattle.bm_core.specs.Runs.{IsStep, MayCome};
ghost use Rattle.bm_state.specs.Moves.{AreMoves};
ghost use Rattle.bm_running.specs.Inside.Leaves.{KeepsLeaves};
ghost use Rattle.bm_core.specs.Stages.{IsSound};
ghost use Rattle.bm_core.specs.declared.events.Event.{Event};
ghost use Rattle.bm_core.specs.declared.events.Stage.{Stage};
ghost use Rattle.bm_running.specs.Inside.Shards.{KeepsShards};

use crate::decisions::{is_answer, is_verdict};
use crate::leaves::Leaves;
use crate::shards::Shards;
use bm_base::{Flow, Hop, Memory, Moment, MuxId, ServerId, Version, tag_of};
use bm_core::{Event, Stage, Verdict, What};
use bm_state::{Clocks, Labels, Losses, Moves, Tallies, Versions, author_of};
use bm_table::Retirement;
use std::alloc::Global;

/// What is known of a stage's events so far, if they are a run.
#[derive(Drop)]
pub(crate) struct Known {
    clocks: Clocks,
    versions: Versions,
    labels: Labels,
    moves: Moves,
    tallies: Tallies,
    losses: Losses,
    shards: Shards,
    leaves: Leaves,
}

impl Known {
    ghost use Rattle.bm_running.specs.Inside.Known.{Knows};

    /// Before the first event of the stage.
    pub(crate) fn new(alloc: Global, stage: &Stage) -> Result<Known, Memory>
        ensures { IfOk result (Knows stage.now []) }
    {
        Ok(Known {
            clocks: Clocks::new(alloc),
            versions: Versions::new(alloc),
            labels: Labels::new(alloc, stage)?,
            moves: Moves::new(alloc, &stage.script.plan)?,
            tallies: Tallies::new(alloc),
            losses: Losses::new(alloc),
            shards: Shards::new(alloc),
            leaves: Leaves::new(alloc),
        })
    }

    fn may_publish(&self, stage: &Stage, version: Version) -> bool
        ensures { (past : List Event) (clock : ℕ) → Knows stage.now past self.now
            → Decides result (MayCome stage.now past clock (What.Publish version)) }
    {
        0 < version.0
            && version.0 - 1 == self.versions.newest().0
            && version.0 <= stage.script.plan.versions()
    }

    fn may_switch(&self, stage: &Stage, mux: MuxId, version: Version) -> bool
        ensures { (past : List Event) (clock : ℕ) → Knows stage.now past self.now
            → Decides result (MayCome stage.now past clock (What.Switch mux version)) }
    {
        mux.0 < stage.script.setting.muxes && version.0 <= self.versions.newest().0
    }

    fn may_steer(&self, stage: &Stage, packet: u32, mux: MuxId) -> bool
        ensures { (past : List Event) (clock : ℕ) → Knows stage.now past self.now
            → Decides result (MayCome stage.now past clock (What.Steer packet mux)) }
    {
        mux.0 < stage.script.setting.muxes
            && !self.tallies.is_sent(packet, Hop::Direct)
            && stage.segment(packet).is_some()
    }

    fn may_lose(&self, clock: Moment, packet: u32, hop: Hop) -> bool
        ensures { (stage : Stage) (past : List Event) → Knows stage past self.now
            → Decides result (MayCome stage past clock.0 (What.Lose packet hop)) }
    {
        0 < clock.0 && self.losses.is_sent_at(packet, hop, Moment(clock.0 - 1))
    }

    /// Whether a copy may arrive with this verdict. If so, it has arrived at its shard.
    fn may_arrive(
        &mut self,
        alloc: Global,
        stage: &Stage,
        clock: Moment,
        packet: u32,
        hop: Hop,
        server: ServerId,
        verdict: Verdict,
    ) -> Result<bool, Memory>
        requires sound { IsSound stage.now }
        requires moves { AreMoves stage.now.script.plan self.old.moves }
        ensures decides { (past : List Event) → Knows stage.now past self.old
            → IfOk result (λ may. Decides may
            (MayCome stage.now past clock.0 (What.Arrive packet hop server verdict))) }
        ensures shards { (past : List Event) (e : Event) → Knows stage.now past self.old
            → e.what ≡ What.Arrive packet hop server verdict → IfOk result (λ may. may ≡ true
            → KeepsShards stage.now (e ∷ past) self.new.shards) }
        ensures others { OnOk result (self.new ≡ record self.old { shards = self.new.shards }) }
    {
        let Some(segment) = stage.segment(packet) else {
            return Ok(false);
        };
        let Some(label) = self.labels.label(stage, &self.moves, packet) else {
            return Ok(false);
        };
        let Some(place) = label.entry.arrives_at(hop) else {
            return Ok(false);
        };
        if place != server || !self.tallies.is_sent(packet, hop) {
            return Ok(false);
        }
        let tag = tag_of(&label, hop);
        let given = self
            .shards
            .arrive(alloc, stage, clock, packet, tag, segment)?;
        Ok(is_verdict(verdict, given))
    }

    /// Whether a server may have this answer to a close. If so, its shard has closed the flow.
    fn may_close(
        &mut self,
        alloc: Global,
        stage: &Stage,
        clock: Moment,
        server: ServerId,
        flow: Flow,
        closed: bool,
    ) -> Result<bool, Memory>
        requires { IsSound stage.now }
        ensures decides { (past : List Event) → Knows stage.now past self.old
            → IfOk result (λ may. Decides may
            (MayCome stage.now past clock.0 (What.Close server flow closed))) }
        ensures shards { (past : List Event) (e : Event) → Knows stage.now past self.old
            → e.what ≡ What.Close server flow closed → IfOk result (λ may. may ≡ true
            → KeepsShards stage.now (e ∷ past) self.new.shards) }
        ensures others { OnOk result (self.new ≡ record self.old { shards = self.new.shards }) }
    {
        let given = self.shards.close(alloc, stage, clock, server, flow)?;
        Ok(closed == given)
    }

    /// Whether a request to retire may have this answer. If so, the shard has taken the call.
    fn may_retire(
        &mut self,
        alloc: Global,
        stage: &Stage,
        clock: Moment,
        server: ServerId,
        shard: u16,
        at: Moment,
        answer: Retirement,
    ) -> Result<bool, Memory>
        requires { IsSound stage.now }
        ensures decides { (past : List Event) → Knows stage.now past self.old
            → IfOk result (λ may. Decides may
            (MayCome stage.now past clock.0 (What.Retire server shard at answer))) }
        ensures shards { (past : List Event) (e : Event) → Knows stage.now past self.old
            → e.what ≡ What.Retire server shard at answer → IfOk result (λ may. may ≡ true
            → KeepsShards stage.now (e ∷ past) self.new.shards) }
        ensures others { OnOk result (self.new ≡ record self.old { shards = self.new.shards }) }
    {
        let timeout = stage.script.setting.timeout;
        let due = self.leaves.retirement(server, at, timeout);
        self.shards
            .retire(alloc, stage, clock, server, shard, answer)?;
        Ok(at.0 < clock.0 && is_answer(answer, due))
    }

    /// Whether what the event says may come next. If so, its shard has been asked.
    #[tactic(auto, using(crate::proofs::Serving::still_keeps))]
    fn may_come(&mut self, alloc: Global, stage: &Stage, event: &Event) -> Result<bool, Memory>
        requires sound { IsSound stage.now }
        requires moves { AreMoves stage.now.script.plan self.old.moves }
        ensures decides { (past : List Event) → Knows stage.now past self.old
            → IfOk result (λ may. Decides may
            (MayCome stage.now past event.now.clock.0 event.now.what)) }
        ensures shards { (past : List Event) → Knows stage.now past self.old
            → IfOk result (λ may. may ≡ true
            → KeepsShards stage.now (event.now ∷ past) self.new.shards) }
        ensures others { OnOk result (self.new ≡ record self.old { shards = self.new.shards }) }
    {
        let clock = event.clock;
        match event.what {
            What::Publish(version) => Ok(self.may_publish(stage, version)),
            What::Switch { mux, version } => Ok(self.may_switch(stage, mux, version)),
            What::Steer { packet, mux } => Ok(self.may_steer(stage, packet, mux)),
            What::Lose { packet, hop } => Ok(self.may_lose(clock, packet, hop)),
            What::Arrive {
                packet,
                hop,
                server,
                verdict,
            } => self.may_arrive(alloc, stage, clock, packet, hop, server, verdict),
            What::Close {
                server,
                flow,
                closed,
            } => self.may_close(alloc, stage, clock, server, flow, closed),
            What::Retire {
                server,
                shard,
                at,
                result,
            } => self.may_retire(alloc, stage, clock, server, shard, at, result),
            What::Sync => Ok(true),
        }
    }

    /// Records what buckets leave by the version, if one is published.
    #[tactic(auto, using(crate::proofs::Leaving::still_newest))]
    fn observe_leaves(&mut self, alloc: Global, stage: &Stage, event: &Event) -> Result<(), Memory>
        requires { AreMoves stage.now.script.plan self.old.moves }
        ensures keeps { (past : List Event)
            → KeepsLeaves stage.now.script.plan (newest past) self.old.leaves
            → MayCome stage.now past event.now.clock.0 event.now.what → OnOk result
            (KeepsLeaves stage.now.script.plan (newest (event.now ∷ past)) self.new.leaves) }
        ensures others { OnOk result (self.new ≡ record self.old { leaves = self.new.leaves }) }
    {
        match event.what {
            What::Publish(version) => {
                let before = version.0.saturating_sub(1);
                let plan = &stage.script.plan;
                self.leaves.observe(alloc, plan, &self.moves, before)?;
                Ok(())
            }
            What::Switch { .. }
            | What::Steer { .. }
            | What::Lose { .. }
            | What::Arrive { .. }
            | What::Close { .. }
            | What::Retire { .. }
            | What::Sync => Ok(()),
        }
    }

    /// Whether the event may come after those that are known. If so, it is known too. Takes time in
    /// proportion to the logarithm of the number of events and of moves; a Publish takes that for
    /// each of its moves.
    pub(crate) fn step(
        &mut self,
        alloc: Global,
        stage: &Stage,
        event: &Event,
    ) -> Result<bool, Memory>
        requires sound { IsSound stage.now }
        requires moves { AreMoves stage.now.script.plan self.old.moves }
        ensures { (past : List Event) → length past < 2 ^ 63 → Knows stage.now past self.old
            → IfOk result (λ may. MatchBool may (Knows stage.now (event.now ∷ past) self.new)
            (IsStep stage.now past event.now → ⊥)) }
    {
        let author = author_of(stage, event.what);
        if !self.clocks.allow(author, event.clock) {
            return Ok(false);
        }
        if !self.may_come(alloc, stage, event)? {
            return Ok(false);
        }
        self.observe_leaves(alloc, stage, event)?;
        self.clocks.observe(author, event.clock)?;
        self.labels.observe(&self.versions, event.what);
        self.versions.observe(event.what)?;
        self.tallies.observe(event.what)?;
        self.losses.observe(event)?;
        Ok(true)
    }

    /// What is known of the copies.
    pub(crate) fn into_copies(self) -> (Tallies, Losses)
        ensures tallies { result.0 ≡ self.tallies }
        ensures losses { result.1 ≡ self.losses }
    {
        (self.tallies, self.losses)
    }
}

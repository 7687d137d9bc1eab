//! Which servers hold which flows after some events.
ghost use Rattle.std.specs.Prelude.{◌≡◌, ◌∷◌, [], List, length, OnOk, option_map};
ghost use Rattle.bm_base.specs.declared.flow.Flow.{Flow};
ghost use Rattle.bm_base.specs.declared.ids.Moment.{Moment};
ghost use Rattle.bm_base.specs.declared.label.Hop.{Hop};
ghost use Rattle.bm_core.specs.Causes.{is_elsewhere};
ghost use Rattle.bm_core.specs.Past as pasts;
ghost use Rattle.bm_core.specs.declared.events.Event.{Event};
ghost use Rattle.bm_core.specs.declared.events.Stage.{Stage};
ghost use Rattle.bm_table.specs.Settings.{IsWithin};

use crate::holder_lists::{Holder, HolderLists, change_by};
use crate::retirements::Retirements;
use crate::shard_key::ShardKey;
use bm_base::{Flow, ServerId};
use bm_core::{Stage, Verdict, What};
use bm_table::Retirement;
use std::alloc::{AllocError, Global};

fn is_done(answer: &Retirement) -> bool
    ensures { result ≡ pasts.is_done answer.now }
{
    matches!(answer, Retirement::Done)
}

/// Which servers hold which flows, each with the place of its Accept.
#[derive(Drop)]
pub struct Holders {
    lists: HolderLists,
    retired: Retirements,
}

impl Holders {
    ghost use Rattle.bm_state.specs.Holders.{KeepsHolders, KeepsHoldersOf};

    /// Before the first event.
    pub fn new(alloc: Global) -> Holders
        ensures { (stage : Stage) → KeepsHolders stage [] result }
    {
        Holders {
            lists: HolderLists::new(alloc),
            retired: Retirements::new(alloc),
        }
    }

    fn observe_arrival(
        &mut self,
        alloc: Global,
        stage: &Stage,
        place: usize,
        packet: u32,
        server: ServerId,
        verdict: Verdict,
    ) -> Result<(), AllocError>
        ensures { (past : List Event) (e : Event) (hop : Hop)
            → e.what ≡ What.Arrive packet hop server verdict → place ≡ length past
            → KeepsHolders stage.now past self.old
            → OnOk result (KeepsHolders stage.now (e ∷ past) self.new) }
    {
        let change = change_by(place, &verdict);
        self.lists.arrive(alloc, stage, packet, server, change)?;
        Ok(())
    }

    #[tactic(auto, using(crate::proofs::Holding::kept_unclosed))]
    fn observe_close(&mut self, server: ServerId, flow: &Flow, closed: bool)
        ensures { (stage : Stage) (past : List Event) (e : Event)
            → e.what ≡ What.Close server flow.now closed → KeepsHolders stage past self.old
            → KeepsHolders stage (e ∷ past) self.new }
    {
        if closed {
            self.lists.release(flow, server);
        }
    }

    #[tactic(auto, using(crate::proofs::Holding::kept_unretired))]
    fn observe_retire(
        &mut self,
        place: usize,
        server: ServerId,
        shard: u16,
        answer: Retirement,
    ) -> Result<(), AllocError>
        ensures { (stage : Stage) (past : List Event) (e : Event) (at : Moment)
            → e.what ≡ What.Retire server shard at answer → place ≡ length past
            → KeepsHolders stage past self.old
            → OnOk result (KeepsHolders stage (e ∷ past) self.new) }
    {
        if is_done(&answer) {
            self.retired.put(ShardKey::at(server, shard), place)?;
        }
        Ok(())
    }

    /// Records what happens next, after this many events.
    #[tactic(auto, using(crate::proofs::Holding::kept_still))]
    pub fn observe(
        &mut self,
        alloc: Global,
        stage: &Stage,
        place: usize,
        what: What,
    ) -> Result<(), AllocError>
        ensures { (past : List Event) (e : Event) → e.what ≡ what → place ≡ length past
            → KeepsHolders stage.now past self.old
            → OnOk result (KeepsHolders stage.now (e ∷ past) self.new) }
    {
        match what {
            What::Arrive {
                packet,
                server,
                verdict,
                ..
            } => self.observe_arrival(alloc, stage, place, packet, server, verdict),
            What::Close {
                server,
                flow,
                closed,
            } => {
                self.observe_close(server, &flow, closed);
                Ok(())
            }
            What::Retire {
                server,
                shard,
                result,
                ..
            } => self.observe_retire(place, server, shard, result),
            What::Publish(_)
            | What::Switch { .. }
            | What::Steer { .. }
            | What::Lose { .. }
            | What::Sync => Ok(()),
        }
    }

    /// The holders of the flow.
    pub fn of(&self, stage: &Stage, flow: &Flow) -> FlowHolders<'_>
        requires { IsWithin 1 64 stage.now.script.setting.shards }
        ensures { (past : List Event) → KeepsHolders stage.now past self.now
            → KeepsHoldersOf stage.now past flow.now result }
    {
        FlowHolders {
            holders: self.lists.get(flow),
            shard: self.retired.shard_for(stage, flow),
            retired: &self.retired,
        }
    }
}

/// The servers that hold one flow.
#[derive(Clone, Copy)]
pub struct FlowHolders<'a> {
    holders: &'a [Holder],
    shard: u16,
    retired: &'a Retirements,
}

impl<'a> FlowHolders<'a> {
    ghost use Rattle.bm_state.specs.Holders.{KeepsHoldersOf};

    /// The place of the Accept of the connection that the server holds of the flow.
    pub fn place(&self, server: ServerId) -> Option<usize>
        ensures { (stage : Stage) (past : List Event) (flow : Flow)
            → KeepsHoldersOf stage past flow self.now
            → result ≡ option_map (λ h. h.place) (pasts.held stage past server flow) }
    {
        self.retired.alive_in(self.holders, server, self.shard)
    }

    /// Whether another server holds the flow.
    pub fn is_elsewhere(&self, server: ServerId) -> bool
        ensures { (stage : Stage) (past : List Event) (flow : Flow)
            → KeepsHoldersOf stage past flow self.now
            → result ≡ is_elsewhere stage past past flow server }
    {
        self.retired
            .is_other_alive(self.holders, server, self.shard)
    }
}

//! What is known after some events, to find the causes of those that follow.
ghost use Rattle.std.specs.Prelude.{◌≡◌, List, length, OnOk, IfOk, Some, None, option_map};
ghost use Rattle.std.specs.Prelude.{[], ◌∷◌, ◌≤◌, nat_le};
ghost use Rattle.bm_table.specs.Tables as tables;
ghost use Rattle.bm_core.specs.declared.events.Event.{Event};
ghost use Rattle.bm_core.specs.declared.events.Stage.{Stage};
ghost use Rattle.bm_core.specs.Past.{bucket};
ghost use Rattle.bm_core.specs.Causes as causes;
ghost use Rattle.bm_state.specs.Labels.{label_by, label_from};
ghost use Rattle.bm_state.specs.Moves.{AreMoves};
ghost use Rattle.bm_state.specs.Owners.{as_accepted};
ghost use Rattle.bm_state.specs.Versions.{KeepsVersions};
ghost use Rattle.bm_trace.specs.Ranges.{HasRanges};

use crate::causes::{Arrival, is_past, opening_cause};
use bm_base::{Flow, Hop, Moment, Version, is_opening};
use bm_core::{Cause, Event, Stage, What};
use bm_hash::bucket_of;
use bm_state::{Holders, Labels, Moves, Owners, Steering, Versions};
use std::alloc::{AllocError, Global};

/// The versions, the labels and owners of packets, the holders of each flow, and the moves of each
/// bucket.
#[derive(Drop)]
pub(crate) struct Known {
    versions: Versions,
    labels: Labels,
    owners: Owners,
    holders: Holders,
    moves: Moves,
}

/// Whether three or more of the changes from `since + 1` to `version` move the flow's bucket.
#[tactic(auto, using(crate::proofs::Moved::not_thrice))]
fn moves_thrice(moves: &Moves, stage: &Stage, flow: &Flow, since: u32, version: u32) -> bool
    requires ranges { HasRanges stage.now }
    requires kept { AreMoves stage.now.script.plan moves.now }
    requires order { since ≤ version }
    ensures { result ≡ nat_le 3
        (tables.moves stage.now.script.plan (bucket stage.now flow.now) since version) }
{
    // A change moves a bucket at most once, so mostly no bucket needs a look.
    if version - since < 3 {
        return false;
    }
    let bucket = bucket_of(flow, stage.script.setting.buckets);
    let plan = &stage.script.plan;
    3 <= moves.count(plan, bucket, Version(since), Version(version))
}

fn is_late(
    moves: &Moves,
    stage: &Stage,
    flow: &Flow,
    steering: &Steering,
    hop: Hop,
    clock: Moment,
) -> bool
    requires ranges { HasRanges stage.now }
    requires kept { AreMoves stage.now.script.plan moves.now }
    ensures { result
        ≡ causes.is_late stage.now (label_by stage.now flow.now steering.now) hop clock.0 }
{
    let bucket = bucket_of(flow, stage.script.setting.buckets);
    let entry = moves.entry(&stage.script.plan, bucket, steering.version);
    match entry.onward(hop) {
        Some(past) => is_past(past.stamp, stage, clock),
        None => false,
    }
}

impl Known {
    ghost use Rattle.bm_trace.specs.Inside.Known.{Knows};

    /// What is known before the first event.
    pub(crate) fn new(alloc: Global, stage: &Stage) -> Result<Known, AllocError>
        ensures { IfOk result (λ k. Knows stage.now [] k) }
    {
        Ok(Known {
            versions: Versions::new(alloc),
            labels: Labels::new(alloc, stage)?,
            owners: Owners::new(alloc, stage)?,
            holders: Holders::new(alloc),
            moves: Moves::new(alloc, &stage.script.plan)?,
        })
    }

    /// The versions after the events that are known.
    pub(crate) fn versions(&self) -> &Versions
        ensures { (stage : Stage) (past : List Event) → Knows stage past self.now
            → KeepsVersions past result.now }
    {
        &self.versions
    }

    /// Records what happens next, after this many events.
    pub(crate) fn observe(
        &mut self,
        alloc: Global,
        stage: &Stage,
        place: usize,
        what: What,
    ) -> Result<(), AllocError>
        ensures { (past : List Event) (e : Event) → e.what ≡ what → place ≡ length past
            → Knows stage.now past self.old → OnOk result (Knows stage.now (e ∷ past) self.new) }
    {
        self.holders.observe(alloc, stage, place, what)?;
        self.owners.observe(stage, &self.labels, place, what)?;
        self.labels.observe(&self.versions, what);
        self.versions.observe(what)?;
        Ok(())
    }

    /// The first premise that is broken where a packet arrives that isn't opening.
    fn first_broken(
        &self,
        stage: &Stage,
        clock: Moment,
        flow: &Flow,
        arrival: &Arrival,
        steering: &Steering,
    ) -> Option<Cause>
        requires ranges { HasRanges stage.now }
        requires moves { AreMoves stage.now.script.plan self.now.moves }
        ensures { (past : List Event) → Knows stage.now past self.now
            → result ≡ causes.first_broken stage.now past clock.0
            (label_by stage.now flow.now steering.now) arrival.now.hop flow.now arrival.now.server
            (option_map as_accepted arrival.now.owner) }
    {
        let Some(owner) = arrival.owner else {
            return Some(Cause::NeverAccepted);
        };
        let held = self.holders.of(stage, flow);
        if held.place(owner.server) != Some(owner.place) {
            Some(Cause::NotHeld)
        } else if steering.version.0 < owner.version {
            Some(Cause::StaleMux)
        } else if moves_thrice(&self.moves, stage, flow, owner.version, steering.version.0) {
            Some(Cause::MovedThrice)
        } else if arrival.server != owner.server
            && is_late(&self.moves, stage, flow, steering, arrival.hop, clock)
        {
            Some(Cause::ChainLate)
        } else if held.is_elsewhere(owner.server) {
            Some(Cause::SynElsewhere)
        } else {
            None
        }
    }

    fn cause_of(&self, stage: &Stage, arrival: &Arrival, clock: Moment) -> Option<Cause>
        requires ranges { HasRanges stage.now }
        requires moves { AreMoves stage.now.script.plan self.now.moves }
        ensures { (past : List Event) → Knows stage.now past self.now
            → result ≡ causes.cause_at stage.now past clock.0 arrival.now.hop arrival.now.server
            arrival.now.verdict (option_map as_accepted arrival.now.owner) arrival.now.segment
            (label_from stage.now arrival.now.segment arrival.now.steering) }
    {
        if !arrival.wants_cause() {
            return None;
        }
        let segment = arrival.segment?;
        let steering = arrival.steering?;
        if is_opening(&segment) {
            let newest = self.versions.newest();
            opening_cause(&arrival.verdict, steering.version.0, newest.0)
        } else {
            self.first_broken(stage, clock, &segment.flow, arrival, &steering)
        }
    }

    /// The cause of the event that comes next, if it has one.
    pub(crate) fn cause(&self, stage: &Stage, event: &Event) -> Option<Cause>
        requires ranges { HasRanges stage.now }
        requires moves { AreMoves stage.now.script.plan self.now.moves }
        ensures { (past : List Event) → Knows stage.now past self.now
            → result ≡ causes.cause stage.now past event.now.clock.0 event.now.what }
    {
        match event.what {
            What::Arrive {
                packet,
                hop,
                server,
                verdict,
            } => {
                let steering = self.labels.steering(packet);
                let owner = self.owners.owner(packet);
                let arrival = Arrival::new(stage, packet, hop, server, verdict, steering, owner);
                self.cause_of(stage, &arrival, event.clock)
            }
            _ => None,
        }
    }
}

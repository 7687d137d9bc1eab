//! What packets need, by what the events before them say.
ghost use Rattle.std.specs.Prelude.{◌≡◌, ◌∷◌, ◌<◌, [], List, length, OnOk, IfOk, Some, None};
ghost use Rattle.std.specs.Prelude.{if◌then◌else◌};
ghost use Rattle.bm_core.specs.Past.{bucket, label_of, owner, segment_of};
ghost use Rattle.bm_core.specs.declared.events.Cause.TheVariants.{MovedThrice as Thrice};
ghost use Rattle.bm_core.specs.declared.events.Cause.TheVariants.{NotHeld as Unheld};
ghost use Rattle.bm_core.specs.declared.events.Event.{Event};
ghost use Rattle.bm_state.specs.Moves.{AreMoves};
ghost use Rattle.bm_table.specs.Tables as tables;
ghost use Rattle.bm_trace.specs.Ranges.{HasRanges};
ghost use Rattle.bm_connections.specs.Connections.{counted_cause};
ghost use Rattle.bm_connections.specs.Late as late;
ghost use Rattle.bm_connections.specs.Needed as needed;
ghost use Rattle.bm_connections.specs.Thrice as thrice;

use crate::counts::is_cause;
use crate::last_seen::LastSeen;
use crate::late::{is_of_timeout, is_refused};
use crate::moved::{moved_by, third_move};
use crate::needs::{Need, NeedOf};
use crate::stamps::Stamps;
use crate::unretired::Unretired;
use bm_base::{Flow, Hop, Memory, Moment, ServerId, Version};
use bm_core::{Cause, Event, Stage, Verdict, What};
use bm_state::Owners;
use bm_table::Plan;
use std::alloc::Global;

fn need_of(number: u32, time: u64, clock: Moment, flow: Flow) -> NeedOf
    ensures { Some result ≡ needed.need_of number time clock flow }
{
    NeedOf {
        number,
        need: Need { time, clock, flow },
    }
}

fn change_moment(plan: &Plan, before: u32) -> Moment
    ensures { result.0 ≡ tables.change_moment (tables.next_change plan.now before) }
{
    match plan.next_change(Version(before)) {
        None => Moment(0),
        Some(change) => change.moment,
    }
}

/// What is kept of events and records, to find what packets need.
#[derive(Drop)]
pub(crate) struct Followed {
    pub(crate) stamps: Stamps,
    owners: Owners,
    unretired: Unretired,
    last: LastSeen,
}

impl Followed {
    ghost use Rattle.bm_connections.specs.Inside.Needs.{HasRoom, KnowsCourse};

    /// What is kept before the first event.
    pub(crate) fn new(alloc: Global, stage: &Stage) -> Result<Followed, Memory>
        ensures { IfOk result (KnowsCourse stage.now []) }
    {
        Ok(Followed {
            stamps: Stamps::new(alloc, stage)?,
            owners: Owners::new(alloc, stage)?,
            unretired: Unretired::new(alloc),
            last: LastSeen::new(alloc, stage.capture.records.items())?,
        })
    }

    /// Records the event that comes next, after this many events.
    pub(crate) fn observe(
        &mut self,
        alloc: Global,
        stage: &Stage,
        place: usize,
        what: What,
    ) -> Result<(), Memory>
        ensures { (past : List Event) (e : Event) → e.what ≡ what → place ≡ length past
            → KnowsCourse stage.now past self.old
            → OnOk result (KnowsCourse stage.now (e ∷ past) self.new) }
    {
        self.owners
            .observe(stage, self.stamps.labels(), place, what)?;
        self.stamps.observe(what)?;
        self.unretired.observe(alloc, stage, place, what)?;
        Ok(())
    }

    /// The need of a copy that is forwarded.
    fn forward_need(
        &self,
        stage: &Stage,
        time: u64,
        clock: Moment,
        hop: Hop,
        packet: u32,
    ) -> Option<NeedOf>
        requires ranges { HasRanges stage.now }
        requires moves { AreMoves stage.now.script.plan self.now.stamps.moves }
        ensures { (past : List Event) → KnowsCourse stage.now past self.now
            → result ≡ needed.forward_need stage.now time clock hop (segment_of stage.now packet)
            (label_of stage.now past packet) }
    {
        let flow = stage.segment(packet)?.flow;
        let label = self.stamps.label(stage, packet)?;
        let before = moved_by(self.stamps.moves(), stage, &flow, &label, hop)?;
        Some(need_of(before + 1, time, clock, flow))
    }

    /// How long after a change the packet of the event that comes next is forwarded because of it.
    pub(crate) fn change_need(&self, stage: &Stage, event: &Event) -> Option<NeedOf>
        requires ranges { HasRanges stage.now }
        requires moves { AreMoves stage.now.script.plan self.now.stamps.moves }
        ensures { (past : List Event) → KnowsCourse stage.now past self.now
            → result ≡ needed.change_need stage.now past event.now.clock event.now.what }
    {
        match event.what {
            What::Arrive {
                packet,
                hop,
                verdict: Verdict::Forward(_),
                ..
            } => {
                let time = self.stamps.wait(stage, event);
                self.forward_need(stage, time, event.clock, hop, packet)
            }
            _ => None,
        }
    }

    /// How much later the change after the first ones must come to be later than the flow's last
    /// packet.
    fn delay(&self, stage: &Stage, flow: &Flow, before: u32) -> u64
        requires { HasRoom self.now.last }
        ensures { (past : List Event) → KnowsCourse stage.now past self.now
            → result ≡ thrice.delay stage.now flow.now before }
    {
        let last = self.last.of(flow);
        let moment = change_moment(&stage.script.plan, before);
        last.0.saturating_sub(moment.0) + 1
    }

    fn third_need(&self, stage: &Stage, clock: Moment, packet: u32) -> Option<NeedOf>
        requires ranges { HasRanges stage.now }
        requires moves { AreMoves stage.now.script.plan self.now.stamps.moves }
        requires room { HasRoom self.now.last }
        ensures { (past : List Event) → KnowsCourse stage.now past self.now
            → result ≡ thrice.third_need stage.now clock (segment_of stage.now packet)
            (owner stage.now past packet) (label_of stage.now past packet) }
    {
        let flow = stage.segment(packet)?.flow;
        let owner = self.owners.owner(packet)?;
        let label = self.stamps.label(stage, packet)?;
        let moves = self.stamps.moves();
        let before = third_move(moves, stage, &flow, owner.server, label.version.0)?;
        let time = self.delay(stage, &flow, before);
        Some(need_of(before + 1, time, clock, flow))
    }

    /// The same of the packet of an arrival.
    fn need_of_arrival(&self, stage: &Stage, event: &Event) -> Option<NeedOf>
        requires ranges { HasRanges stage.now }
        requires moves { AreMoves stage.now.script.plan self.now.stamps.moves }
        requires room { HasRoom self.now.last }
        ensures { (past : List Event) → KnowsCourse stage.now past self.now
            → result ≡ thrice.need_of_arrival stage.now past event.now.clock event.now.what }
    {
        match event.what {
            What::Arrive { packet, .. } => self.third_need(stage, event.clock, packet),
            _ => None,
        }
    }

    /// How much later the third change must come that moved the bucket of the packet of the event
    /// that comes next, since the bucket left the owner's server. The event's cause is this if it
    /// counts.
    pub(crate) fn thrice_need(
        &self,
        stage: &Stage,
        event: &Event,
        cause: Option<Cause>,
    ) -> Option<NeedOf>
        requires ranges { HasRanges stage.now }
        requires moves { AreMoves stage.now.script.plan self.now.stamps.moves }
        requires room { HasRoom self.now.last }
        ensures { (past : List Event) → KnowsCourse stage.now past self.now
            → cause ≡ counted_cause stage.now past event.now
            → result ≡ thrice.thrice_need stage.now past event.now }
    {
        if is_cause(Cause::MovedThrice, cause) {
            self.need_of_arrival(stage, event)
        } else {
            None
        }
    }

    /// How long after its server's retirement a packet comes that isn't held.
    fn unheld_need(&self, stage: &Stage, clock: Moment, packet: u32) -> Option<NeedOf>
        requires ranges { HasRanges stage.now }
        ensures { (past : List Event) → KnowsCourse stage.now past self.now
            → result ≡ needed.unheld_need stage.now past clock (segment_of stage.now packet)
            (owner stage.now past packet) }
    {
        let flow = stage.segment(packet)?.flow;
        let owner = self.owners.owner(packet)?;
        let server = owner.server;
        if !self.unretired.is_holding(stage, server, &flow, owner.place) {
            return None;
        }
        let at = self.unretired.retired_at(stage, server, &flow)?;
        let time = clock.0.saturating_sub(at.0);
        Some(need_of(u32::from(server.0), time, clock, flow))
    }

    /// The same of the packet of an arrival.
    fn need_of_unheld(&self, stage: &Stage, event: &Event) -> Option<NeedOf>
        requires ranges { HasRanges stage.now }
        ensures { (past : List Event) → KnowsCourse stage.now past self.now
            → result ≡ needed.need_of_unheld stage.now past event.now.clock event.now.what }
    {
        match event.what {
            What::Arrive { packet, .. } => self.unheld_need(stage, event.clock, packet),
            _ => None,
        }
    }

    /// How long after its server's retirement the packet of the event that comes next isn't held
    /// because of that. The event's cause is this if it counts.
    pub(crate) fn server_need(
        &self,
        stage: &Stage,
        event: &Event,
        cause: Option<Cause>,
    ) -> Option<NeedOf>
        requires ranges { HasRanges stage.now }
        ensures { (past : List Event) → KnowsCourse stage.now past self.now
            → cause ≡ counted_cause stage.now past event.now
            → result ≡ needed.server_need stage.now past event.now }
    {
        if is_cause(Cause::NotHeld, cause) {
            self.need_of_unheld(stage, event)
        } else {
            None
        }
    }

    /// Whether the packet of the event that comes next is dropped or reset since it came too late.
    /// The event's cause is this if it counts, and this is its need of a third change.
    pub(crate) fn came_late(
        &self,
        stage: &Stage,
        event: &Event,
        cause: Option<Cause>,
        third: Option<NeedOf>,
    ) -> bool
        requires ranges { HasRanges stage.now }
        requires moves { AreMoves stage.now.script.plan self.now.stamps.moves }
        ensures { (past : List Event) → KnowsCourse stage.now past self.now
            → cause ≡ counted_cause stage.now past event.now
            → third ≡ thrice.thrice_need stage.now past event.now
            → result ≡ late.came_late stage.now past event.now }
    {
        is_refused(event.what)
            && is_of_timeout(cause, third)
            && self.stamps.comes_late(stage, event)
    }
}

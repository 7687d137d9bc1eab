//! Why a packet is dropped, reset or processed elsewhere.
ghost use Rattle.std.specs.Prelude.{◌≡◌, ◌+◌, ◌<◌, ◌&&◌, nat_lt, length, reverse, Some, None};
ghost use Rattle.std.specs.Prelude.{option_map, is_some};
ghost use Rattle.bm_core.specs.Past as past;
ghost use Rattle.bm_core.specs.Causes as causes;
ghost use Rattle.bm_trace.specs.Ranges.{HasRanges};
ghost use Rattle.bm_core.specs.Runs.{IsRun};
ghost use Rattle.bm_trace.specs.CauseOf.{cause_of, is_break_at};
ghost use Rattle.bm_state.specs.Labels.{label_by, label_from};
ghost use Rattle.bm_state.specs.Owners.{as_accepted};

use crate::entries::{entry_at, moves};
use crate::held::{held_place, is_elsewhere};
use crate::past::{newest, owner_of, steering_of};
use bm_base::{Flow, Hop, Moment, Segment, ServerId, is_opening};
use bm_core::{Cause, Event, History, Stage, Verdict, What, Why};
use bm_hash::bucket_of;
use bm_state::{Owner, Steering};

fn server_of(owner: Option<Owner>) -> Option<ServerId>
    ensures { result ≡ option_map (λ a. a.server) (option_map as_accepted owner) }
{
    Some(owner?.server)
}

/// An arrival of a packet, with what is known of the packet.
#[derive(Clone, Copy)]
pub(crate) struct Arrival {
    pub(crate) hop: Hop,
    pub(crate) server: ServerId,
    pub(crate) verdict: Verdict,
    pub(crate) segment: Option<Segment>,
    pub(crate) steering: Option<Steering>,
    pub(crate) owner: Option<Owner>,
}

impl Arrival {
    /// The packet's arrival; `steering` and `owner` are what is known of the packet from its Steer.
    pub(crate) fn new(
        stage: &Stage,
        packet: u32,
        hop: Hop,
        server: ServerId,
        verdict: Verdict,
        steering: Option<Steering>,
        owner: Option<Owner>,
    ) -> Arrival
        ensures { result ≡ record {
          hop = hop;
          server =
              server;
          verdict = verdict;
          segment = past.segment_of stage.now packet;
          steering = steering;
          owner = owner;
        } }
    {
        Arrival {
            hop,
            server,
            verdict,
            segment: stage.segment(packet),
            steering,
            owner,
        }
    }

    /// Whether the packet is dropped, reset or processed elsewhere.
    pub(crate) fn wants_cause(&self) -> bool
        ensures { result ≡ causes.wants_cause self.now.verdict (option_map as_accepted self.now.owner)
            self.now.server self.now.segment }
    {
        let Some(segment) = self.segment else {
            return false;
        };
        match self.verdict {
            Verdict::Accept | Verdict::Forward(_) => false,
            Verdict::Process(_) => {
                !is_opening(&segment) && server_of(self.owner) != Some(self.server)
            }
            Verdict::Reset(_) | Verdict::Drop(_) => true,
        }
    }

    /// Whether the packet isn't opening and is processed without an owner, or by a server other
    /// than its owner's.
    pub(crate) fn is_stray(&self) -> bool
        ensures { result ≡ (causes.is_process self.now.verdict
            && causes.wants_cause self.now.verdict (option_map as_accepted self.now.owner) self.now.server
            self.now.segment) }
    {
        matches!(self.verdict, Verdict::Process(_)) && self.wants_cause()
    }

    /// The cause of the arrival after these events, if it has one.
    pub(crate) fn cause(
        &self,
        stage: &Stage,
        events: &[Event],
        newest: u32,
        clock: Moment,
    ) -> Option<Cause>
        requires ranges { HasRanges stage.now }
        requires newest { newest ≡ past.newest (reverse events.now) }
        ensures { result ≡ causes.cause_at stage.now (reverse events.now) clock.0 self.now.hop
            self.now.server self.now.verdict (option_map as_accepted self.now.owner) self.now.segment
            (label_from stage.now self.now.segment self.now.steering) }
    {
        if !self.wants_cause() {
            return None;
        }
        let segment = self.segment?;
        let steering = self.steering?;
        if is_opening(&segment) {
            opening_cause(&self.verdict, steering.version.0, newest)
        } else {
            first_broken(stage, events, clock, &segment.flow, self, &steering)
        }
    }
}

/// The cause for an arriving packet that is opening.
pub(crate) fn opening_cause(verdict: &Verdict, version: u32, newest: u32) -> Option<Cause>
    ensures { result ≡ causes.opening_cause verdict.now version newest }
{
    match verdict {
        Verdict::Drop(Why::Full) => Some(Cause::Full),
        Verdict::Drop(Why::Retired) if version < newest => Some(Cause::OldTable),
        _ => None,
    }
}

/// Whether the clock is past the stamp by more than the timeout.
pub(crate) fn is_past(stamp: Moment, stage: &Stage, clock: Moment) -> bool
    ensures { result ≡ nat_lt (stamp.0 + past.timeout stage.now) clock.0 }
{
    u128::from(stamp.0) + u128::from(stage.script.setting.timeout) < u128::from(clock.0)
}

fn is_late(stage: &Stage, flow: &Flow, steering: &Steering, hop: Hop, clock: Moment) -> bool
    requires { HasRanges stage.now }
    ensures { result
        ≡ causes.is_late stage.now (label_by stage.now flow.now steering.now) hop clock.0 }
{
    let bucket = bucket_of(flow, stage.script.setting.buckets);
    let entry = entry_at(&stage.script.plan, steering.version, bucket);
    match entry.onward(hop) {
        Some(past) => is_past(past.stamp, stage, clock),
        None => false,
    }
}

/// The first premise that is broken where a packet arrives that isn't opening.
fn first_broken(
    stage: &Stage,
    events: &[Event],
    clock: Moment,
    flow: &Flow,
    arrival: &Arrival,
    steering: &Steering,
) -> Option<Cause>
    requires { HasRanges stage.now }
    ensures { result ≡ causes.first_broken stage.now (reverse events.now) clock.0
        (label_by stage.now flow.now steering.now) arrival.now.hop flow.now arrival.now.server
        (option_map as_accepted arrival.now.owner) }
{
    let Some(owner) = arrival.owner else {
        return Some(Cause::NeverAccepted);
    };
    let bucket = bucket_of(flow, stage.script.setting.buckets);
    if held_place(stage, events, owner.server, flow) != Some(owner.place) {
        Some(Cause::NotHeld)
    } else if steering.version.0 < owner.version {
        Some(Cause::StaleMux)
    } else if moves(
        &stage.script.plan,
        bucket,
        owner.version,
        steering.version.0,
    ) >= 3
    {
        Some(Cause::MovedThrice)
    } else if arrival.server != owner.server && is_late(stage, flow, steering, arrival.hop, clock) {
        Some(Cause::ChainLate)
    } else if is_elsewhere(stage, events, flow, owner.server) {
        Some(Cause::SynElsewhere)
    } else {
        None
    }
}

/// The cause of the event at this place, if it has one.
pub(crate) fn cause_at(h: &History, event: usize) -> Option<Cause>
    requires place { event < length h.now.events }
    requires ranges { HasRanges h.now.stage }
    ensures { result ≡ cause_of h.now event }
{
    let events = h.events.items();
    let at = events[event];
    let before = &events[..event];
    match at.what {
        What::Arrive {
            packet,
            hop,
            server,
            verdict,
        } => {
            let steering = steering_of(before, packet);
            let owner = owner_of(&h.stage, before, packet);
            let arrival = Arrival::new(&h.stage, packet, hop, server, verdict, steering, owner);
            arrival.cause(&h.stage, before, newest(before), at.clock)
        }
        _ => None,
    }
}

/// Why the event at this place is a drop, a reset or a stray; `None` exactly if it is none of
/// these. Takes no memory.
#[tactic(auto, using(crate::proofs::Ranged::ranges_of, crate::proofs::Caused::cause_there))]
pub fn cause(h: &History, event: usize) -> Option<Cause>
    requires place { event < length h.now.events }
    requires run { IsRun h.now }
    ensures cause { result ≡ cause_of h.now event }
    ensures there { is_some result ≡ is_break_at h.now event }
{
    cause_at(h, event)
}

//! What follows from the events before a place of a history. A past is a slice with its newest
//! event last.
#![tactic(auto, using(bm_state::proofs::Newest::reverse_last))]

ghost use Rattle.std.specs.Prelude.{◌≡◌, length, reverse, MatchOption, Some};
ghost use Rattle.std.specs.Prelude.{None, option_map};
ghost use Rattle.bm_core.specs.declared.events.Stage.{Stage};
ghost use Rattle.bm_core.specs.Past as past;
ghost use Rattle.bm_base.specs.Segments.{same_flow};
ghost use Rattle.bm_state.specs.Labels.{label_from};
ghost use Rattle.bm_state.specs.Owners.{as_accepted};

use bm_base::{Flow, MuxId, ServerId, Version};
use bm_core::{Event, Stage, Verdict, What};
use bm_state::{Owner, Steering};

pub(crate) fn same_flow(a: &Flow, b: &Flow) -> bool
    ensures { result ≡ same_flow a.now b.now }
{
    a.src == b.src && a.dst == b.dst && a.sport == b.sport && a.dport == b.dport
}

pub(crate) fn is_of(stage: &Stage, packet: u32, flow: &Flow) -> bool
    ensures { result ≡ past.is_of (past.segment_of stage.now packet) flow.now }
{
    match stage.segment(packet) {
        None => false,
        Some(segment) => same_flow(&segment.flow, flow),
    }
}

/// The newest published version.
pub(crate) fn newest(events: &[Event]) -> u32
    ensures { result ≡ past.newest (reverse events.now) }
{
    let mut rest = events;
    while let Some((event, before)) = rest.split_last() {
        if let What::Publish(version) = event.what {
            return version.0;
        }
        rest = before;
    }
    0
}

/// The version of the mux's last Switch, or 0.
pub(crate) fn version_at(events: &[Event], mux: MuxId) -> Version
    ensures { result ≡ past.version_at (reverse events.now) mux }
{
    let mut rest = events;
    while let Some((event, before)) = rest.split_last() {
        if let What::Switch {
            mux: other,
            version,
        } = event.what
        {
            if other == mux {
                return version;
            }
        }
        rest = before;
    }
    Version(0)
}

/// The packet's Steer: its mux, and the events before it.
#[derive(Clone, Copy)]
pub(crate) struct Steered<'a> {
    pub(crate) mux: MuxId,
    pub(crate) before: &'a [Event],
}

/// The packet's last Steer.
pub(crate) fn steer_of(events: &[Event], packet: u32) -> Option<Steered<'_>>
    ensures label { (stage : Stage) → MatchOption result
        (past.label_of stage (reverse events.now) packet ≡ None)
        (λ s. past.label_of stage (reverse events.now) packet
        ≡ past.labelled stage (reverse s.before.now) s.mux (past.segment_of stage packet)) }
    ensures owner { (stage : Stage) → MatchOption result
        (past.owner stage (reverse events.now) packet ≡ None)
        (λ s. past.owner stage (reverse events.now) packet
        ≡ past.accept_before stage (reverse s.before.now) (past.segment_of stage packet)) }
{
    let mut rest = events;
    while let Some((event, before)) = rest.split_last() {
        if let What::Steer { packet: other, mux } = event.what {
            if other == packet {
                return Some(Steered { mux, before });
            }
        }
        rest = before;
    }
    None
}

/// An Accept: its server and packet, and the events before it.
#[derive(Clone, Copy)]
pub(crate) struct Accepting<'a> {
    pub(crate) server: ServerId,
    pub(crate) packet: u32,
    pub(crate) before: &'a [Event],
}

/// The last Accept of the flow.
pub(crate) fn accept_of<'a>(
    stage: &Stage,
    events: &'a [Event],
    flow: &Flow,
) -> Option<Accepting<'a>>
    ensures { MatchOption result
        (past.accept_of stage.now (reverse events.now) flow.now ≡ None)
        (λ a. past.accept_of stage.now (reverse events.now) flow.now ≡ Some (record {
          server = a.server;
          version = past.version_of (past.label_of stage.now (reverse a.before.now) a.packet);
          place = length a.before.now;
        })) }
{
    let mut rest = events;
    while let Some((event, before)) = rest.split_last() {
        if let What::Arrive {
            packet,
            server,
            verdict: Verdict::Accept,
            ..
        } = event.what
        {
            if is_of(stage, packet, flow) {
                return Some(Accepting {
                    server,
                    packet,
                    before,
                });
            }
        }
        rest = before;
    }
    None
}

/// The version that steered the packet, or 0.
pub(crate) fn version_of(stage: &Stage, events: &[Event], packet: u32) -> u32
    ensures { result ≡ past.version_of (past.label_of stage.now (reverse events.now) packet) }
{
    match (steer_of(events, packet), stage.segment(packet)) {
        (Some(steered), Some(_)) => version_at(steered.before, steered.mux).0,
        _ => 0,
    }
}

/// The last Accept of the packet's flow.
fn owner_before(stage: &Stage, events: &[Event], packet: u32) -> Option<Owner>
    ensures { option_map as_accepted result ≡ past.accept_before stage.now (reverse events.now)
        (past.segment_of stage.now packet) }
{
    let segment = stage.segment(packet)?;
    let accepting = accept_of(stage, events, &segment.flow)?;
    Some(Owner {
        server: accepting.server,
        version: version_of(stage, accepting.before, accepting.packet),
        place: accepting.before.len(),
    })
}

/// The mux and the version that steered the packet, if it was steered.
pub(crate) fn steering_of(events: &[Event], packet: u32) -> Option<Steering>
    ensures { (stage : Stage) → label_from stage (past.segment_of stage packet) result
        ≡ past.label_of stage (reverse events.now) packet }
{
    let steered = steer_of(events, packet)?;
    Some(Steering {
        mux: steered.mux,
        version: version_at(steered.before, steered.mux),
    })
}

/// The packet's owner, if it was steered when its flow had one.
pub(crate) fn owner_of(stage: &Stage, events: &[Event], packet: u32) -> Option<Owner>
    ensures { option_map as_accepted result ≡ past.owner stage.now (reverse events.now) packet }
{
    let steered = steer_of(events, packet)?;
    owner_before(stage, steered.before, packet)
}

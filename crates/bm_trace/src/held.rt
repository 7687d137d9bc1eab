//! Which connections servers hold.
#![tactic(auto, using(bm_state::proofs::Newest::reverse_last))]

ghost use Rattle.std.specs.Prelude.{◌≡◌, reverse, Some, None};
ghost use Rattle.std.specs.Prelude.{option_map, true, false};
ghost use Rattle.bm_core.specs.Past as past;
ghost use Rattle.bm_core.specs.Causes as causes;
ghost use Rattle.bm_trace.specs.Ranges.{HasRanges};
ghost use Rattle.bm_trace.specs.Inside.Seen.{HasEffect, verdict_effect};

use crate::past::{is_of, same_flow};
use bm_base::{Flow, ServerId, Taken};
use bm_core::{Event, Stage, Verdict, What};
use bm_hash::shard_of;
use bm_table::Retirement;

/// What an event does to a flow at a server.
#[derive(Clone, Copy)]
pub(crate) enum Effect {
    Opens,
    Ends,
    Keeps,
}

fn effect_of(stage: &Stage, what: &What, server: ServerId, flow: &Flow) -> Effect
    requires { HasRanges stage.now }
    ensures { HasEffect stage.now what.now server flow.now result }
{
    match what {
        What::Arrive {
            packet,
            server: at,
            verdict,
            ..
        } => {
            if *at == server && is_of(stage, *packet, flow) {
                effect_of_verdict(verdict)
            } else {
                Effect::Keeps
            }
        }
        What::Close {
            server: at,
            flow: other,
            closed,
        } if *at == server && *closed && same_flow(other, flow) => Effect::Ends,
        What::Retire {
            server: at,
            shard,
            result: Retirement::Done,
            ..
        } if *at == server && *shard == shard_of(flow, stage.script.setting.shards) => Effect::Ends,
        _ => Effect::Keeps,
    }
}

fn effect_of_verdict(verdict: &Verdict) -> Effect
    ensures { result ≡ verdict_effect verdict.now }
{
    match verdict {
        Verdict::Accept => Effect::Opens,
        Verdict::Process(Taken::Ended) => Effect::Ends,
        _ => Effect::Keeps,
    }
}

/// The place of the Accept of the connection that the server holds of the flow.
pub(crate) fn held_place(
    stage: &Stage,
    events: &[Event],
    server: ServerId,
    flow: &Flow,
) -> Option<usize>
    requires { HasRanges stage.now }
    ensures { result
        ≡ option_map (λ h. h.place) (past.held stage.now (reverse events.now) server flow.now) }
{
    let mut rest = events;
    while let Some((event, before)) = rest.split_last() {
        match effect_of(stage, &event.what, server, flow) {
            Effect::Opens => return Some(before.len()),
            Effect::Ends => return None,
            Effect::Keeps => {}
        }
        rest = before;
    }
    None
}

fn accepts_elsewhere(
    stage: &Stage,
    events: &[Event],
    what: &What,
    flow: &Flow,
    server: ServerId,
) -> bool
    requires { HasRanges stage.now }
    ensures { result ≡ causes.accepts_elsewhere stage.now (reverse events.now) what.now flow.now
        server }
{
    match what {
        What::Arrive {
            packet,
            server: at,
            verdict: Verdict::Accept,
            ..
        } => {
            *at != server
                && is_of(stage, *packet, flow)
                && held_place(stage, events, *at, flow).is_some()
        }
        _ => false,
    }
}

/// Whether another server holds the flow.
pub(crate) fn is_elsewhere(stage: &Stage, events: &[Event], flow: &Flow, server: ServerId) -> bool
    requires { HasRanges stage.now }
    ensures { result ≡ causes.is_elsewhere stage.now (reverse events.now) (reverse events.now)
        flow.now server }
{
    let mut rest = events;
    while let Some((event, before)) = rest.split_last() {
        if accepts_elsewhere(stage, events, &event.what, flow, server) {
            return true;
        }
        rest = before;
    }
    false
}

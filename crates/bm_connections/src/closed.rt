//! The flows that a `close` closed.
ghost use Rattle.std.specs.Prelude.{◌≡◌, ◌∷◌, List, OnOk};
ghost use Rattle.bm_core.specs.declared.events.Event.{Event};
ghost use Rattle.bm_core.specs.declared.events.Stage.{Stage};
ghost use Rattle.bm_connections.specs.Inside.Closed as kept;

use crate::flow_set::{FlowSet, Membership};
use crate::observed::is_accept;
use bm_base::Segment;
use bm_core::{Event, Stage, What};
use std::alloc::AllocError;

fn opened_by(segment: Option<Segment>) -> Option<Membership>
    ensures { result ≡ kept.opened_by segment }
{
    Some(Membership {
        flow: segment?.flow,
        member: false,
    })
}

/// The flow that the event closes or opens, if there is one.
fn closing_of(stage: &Stage, what: What) -> Option<Membership>
    ensures { result ≡ kept.closing_of stage.now what }
{
    match what {
        What::Arrive {
            packet,
            verdict,
            ..
        } if is_accept(verdict) => opened_by(stage.segment(packet)),
        What::Close { flow, closed, .. } if closed => Some(Membership { flow, member: true }),
        _ => None,
    }
}

/// Records the event that comes next in the set of the flows that are closed.
pub(crate) fn observe_close(
    closed: &mut FlowSet,
    stage: &Stage,
    event: &Event,
) -> Result<(), AllocError>
    ensures { (past : List Event) → kept.AreClosed stage.now past closed.old
        → OnOk result (kept.AreClosed stage.now (event.now ∷ past) closed.new) }
{
    closed.change(closing_of(stage, event.what))?;
    Ok(())
}

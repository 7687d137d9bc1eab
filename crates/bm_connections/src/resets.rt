//! The connections that an RST ended, and which breaks don't count since they come after that.
ghost use Rattle.std.specs.Prelude.{◌≡◌, ◌∷◌, [], OnOk, List, is_some};
ghost use Rattle.bm_base.specs.declared.flow.Flow.{Flow};
ghost use Rattle.bm_core.specs.Causes as causes;
ghost use Rattle.bm_core.specs.Past as past;
ghost use Rattle.bm_core.specs.declared.events.Event.{Event};
ghost use Rattle.bm_core.specs.declared.events.Stage.{Stage};
ghost use Rattle.bm_trace.specs.CauseOf.{is_break};
ghost use Rattle.bm_connections.specs.Connections as counting;
ghost use Rattle.bm_connections.specs.Inside.FlowSets.{is_in};
ghost use Rattle.bm_connections.specs.Inside.Resets as kept;

use crate::flow_set::{FlowSet, Membership};
use bm_base::flags::RST;
use bm_base::{Flow, Segment, Taken, is_opening};
use bm_core::{Cause, Event, Stage, Verdict, What};
use std::alloc::{AllocError, Global};

/// Whether a server with this verdict gives the connection up.
fn ends(verdict: Verdict) -> bool
    ensures { result ≡ past.ends verdict }
{
    matches!(verdict, Verdict::Process(Taken::Ended))
}

/// The flow whose connection a segment with this verdict, at an arrival that is a break or not,
/// begins or ends, if it does.
fn reset_by(segment: Option<Segment>, verdict: Verdict, broke: bool) -> Option<Membership>
    ensures { result ≡ kept.reset_by segment verdict broke }
{
    let segment = segment?;
    if is_opening(&segment) {
        Some(Membership {
            flow: segment.flow,
            member: false,
        })
    } else if segment.has(RST) && ends(verdict) && !broke {
        Some(Membership {
            flow: segment.flow,
            member: true,
        })
    } else {
        None
    }
}

/// The flow whose connection the event, which is a break or not, begins or ends, if it does.
fn reset_of(stage: &Stage, what: What, broke: bool) -> Option<Membership>
    ensures { result ≡ kept.reset_of stage.now what broke }
{
    match what {
        What::Arrive {
            packet,
            verdict,
            ..
        } => reset_by(stage.segment(packet), verdict, broke),
        _ => None,
    }
}

/// The flows whose connections an RST has ended, after some events.
#[derive(Drop)]
pub(crate) struct Resets {
    ended: FlowSet,
}

impl Resets {
    /// Before the first event.
    pub(crate) fn new(alloc: Global) -> Resets
        ensures { (stage : Stage) → kept.KnowsResets stage [] result }
    {
        Resets {
            ended: FlowSet::new(alloc),
        }
    }

    /// Whether an RST has ended the connection of the flow.
    pub(crate) fn has(&self, flow: &Flow) -> bool
        ensures { result ≡ is_in self.now.ended flow.now }
    {
        self.ended.contains(flow)
    }

    /// Records the event that comes next, which has this cause.
    pub(crate) fn observe(
        &mut self,
        stage: &Stage,
        event: &Event,
        cause: Option<Cause>,
    ) -> Result<(), AllocError>
        ensures { (past : List Event) → kept.KnowsResets stage.now past self.old
            → is_some cause ≡ is_break stage.now past event.now.what
            → OnOk result (kept.KnowsResets stage.now (event.now ∷ past) self.new) }
    {
        self.ended
            .change(reset_of(stage, event.what, cause.is_some()))?;
        Ok(())
    }

    /// Whether the segment doesn't open its flow, and an RST has ended the flow's connection.
    fn follows_end(&self, segment: &Segment) -> bool
        ensures { result ≡ kept.follows_end self.now segment.now }
    {
        !is_opening(segment) && self.has(&segment.flow)
    }

    /// Whether the event that comes next is an arrival of such a segment.
    fn is_after_end(&self, stage: &Stage, what: What) -> bool
        ensures { (past : List Event) → kept.KnowsResets stage.now past self.now
            → result ≡ counting.is_after_end stage.now past what }
    {
        match what {
            What::Arrive { packet, .. } => match stage.segment(packet) {
                None => false,
                Some(segment) => self.follows_end(&segment),
            },
            _ => false,
        }
    }

    /// Whether the event that comes next, which has this cause, is a break that doesn't count.
    pub(crate) fn discount(&self, stage: &Stage, event: &Event, cause: Option<Cause>) -> bool
        ensures { (past : List Event) → kept.KnowsResets stage.now past self.now
            → is_some cause ≡ is_break stage.now past event.now.what
            → result ≡ counting.breaks_nothing stage.now past event.now.what }
    {
        cause.is_some() && self.is_after_end(stage, event.what)
    }

    /// The cause of the event that comes next, if it counts.
    pub(crate) fn counted(
        &self,
        stage: &Stage,
        event: &Event,
        cause: Option<Cause>,
    ) -> Option<Cause>
        ensures { (past : List Event) → kept.KnowsResets stage.now past self.now
            → cause ≡ causes.cause stage.now past event.now.clock.0 event.now.what
            → is_some cause ≡ is_break stage.now past event.now.what
            → result ≡ counting.counted_cause stage.now past event.now }
    {
        if self.discount(stage, event, cause) {
            None
        } else {
            cause
        }
    }
}

//! What is kept of labels, for the stamps in them.
ghost use Rattle.std.specs.Prelude.{◌≡◌, ◌+◌, nat_lt, [], ◌∷◌, List, IfOk, OnOk};
ghost use Rattle.bm_core.specs.Past.{label_of, timeout};
ghost use Rattle.bm_core.specs.declared.events.Event.{Event};
ghost use Rattle.bm_core.specs.declared.events.Stage.{Stage};
ghost use Rattle.bm_state.specs.Moves.{AreMoves};
ghost use Rattle.bm_trace.specs.Ranges.{HasRanges};
ghost use Rattle.bm_connections.specs.Late as late;
ghost use Rattle.bm_connections.specs.Waits.{stamp_of, wait_of};

use bm_base::{Hop, Label, Memory, Moment};
use bm_core::{Event, Stage, What};
use bm_state::{Labels, Moves, Versions};
use std::alloc::Global;

/// Whether the clock is past the stamp by more than the timeout.
fn is_past(stamp: Moment, stage: &Stage, clock: Moment) -> bool
    ensures { result ≡ nat_lt (stamp.0 + timeout stage.now) clock.0 }
{
    u128::from(stamp.0) + u128::from(stage.script.setting.timeout) < u128::from(clock.0)
}

/// The versions of the muxes and the labels of packets after some events.
#[derive(Drop)]
pub(crate) struct Stamps {
    versions: Versions,
    labels: Labels,
    moves: Moves,
}

impl Stamps {
    ghost use Rattle.bm_connections.specs.Inside.Stamps.{KnowsStamps};

    /// What is kept before the first event.
    pub(crate) fn new(alloc: Global, stage: &Stage) -> Result<Stamps, Memory>
        ensures { IfOk result (KnowsStamps stage.now []) }
    {
        Ok(Stamps {
            versions: Versions::new(alloc),
            labels: Labels::new(alloc, stage)?,
            moves: Moves::new(alloc, &stage.script.plan)?,
        })
    }

    /// The packet's label, if it was steered.
    pub(crate) fn label(&self, stage: &Stage, packet: u32) -> Option<Label>
        requires ranges { HasRanges stage.now }
        requires moves { AreMoves stage.now.script.plan self.now.moves }
        ensures { (past : List Event) → KnowsStamps stage.now past self.now
            → result ≡ label_of stage.now past packet }
    {
        self.labels.label(stage, &self.moves, packet)
    }

    /// The labels of all packets.
    pub(crate) fn labels(&self) -> &Labels
        ensures { result.now ≡ self.now.labels }
    {
        &self.labels
    }

    /// The moves of the stage's plan.
    pub(crate) fn moves(&self) -> &Moves
        ensures { result.now ≡ self.now.moves }
    {
        &self.moves
    }

    /// The stamp of the server to which a copy of this hop may be passed on by the packet's label,
    /// or 0.
    fn stamp(&self, stage: &Stage, packet: u32, hop: Hop) -> u64
        requires ranges { HasRanges stage.now }
        requires moves { AreMoves stage.now.script.plan self.now.moves }
        ensures { (past : List Event) → KnowsStamps stage.now past self.now
            → result ≡ stamp_of hop (label_of stage.now past packet) }
    {
        let Some(label) = self.labels.label(stage, &self.moves, packet) else {
            return 0;
        };
        match label.entry.onward(hop) {
            Some(past) => past.stamp.0,
            None => 0,
        }
    }

    /// Whether there is a label by which a copy of this hop comes too late at this clock.
    fn has_late_label(&self, stage: &Stage, packet: u32, hop: Hop, clock: Moment) -> bool
        requires ranges { HasRanges stage.now }
        requires moves { AreMoves stage.now.script.plan self.now.moves }
        ensures { (past : List Event) → KnowsStamps stage.now past self.now
            → result ≡ late.has_late_label (timeout stage.now) stage.now
            (label_of stage.now past packet) hop clock.0 }
    {
        let Some(label) = self.labels.label(stage, &self.moves, packet) else {
            return false;
        };
        match label.entry.onward(hop) {
            Some(past) => is_past(past.stamp, stage, clock),
            None => false,
        }
    }

    /// Whether the packet of the event that comes next arrives too late for the server to which the
    /// copy may be passed on.
    pub(crate) fn comes_late(&self, stage: &Stage, event: &Event) -> bool
        requires ranges { HasRanges stage.now }
        requires moves { AreMoves stage.now.script.plan self.now.moves }
        ensures { (past : List Event) → KnowsStamps stage.now past self.now
            → result ≡ late.comes_late (timeout stage.now) stage.now past event.now.clock.0
            event.now.what }
    {
        match event.what {
            What::Arrive { packet, hop, .. } => {
                self.has_late_label(stage, packet, hop, event.clock)
            }
            _ => false,
        }
    }

    /// Records what happens next.
    pub(crate) fn observe(&mut self, what: What) -> Result<(), Memory>
        ensures { (stage : Stage) (past : List Event) (e : Event) → e.what ≡ what
            → KnowsStamps stage past self.old → OnOk result (KnowsStamps stage (e ∷ past) self.new) }
    {
        self.labels.observe(&self.versions, what);
        self.versions.observe(what)?;
        Ok(())
    }

    /// How long the packet of the event that comes next arrives after its bucket left the server to
    /// which the copy may be passed on. If there is no such server it is the event's clock, and 0 if
    /// the event isn't an arrival.
    pub(crate) fn wait(&self, stage: &Stage, event: &Event) -> u64
        requires ranges { HasRanges stage.now }
        requires moves { AreMoves stage.now.script.plan self.now.moves }
        ensures { (past : List Event) → KnowsStamps stage.now past self.now
            → result ≡ wait_of stage.now past event.now.clock.0 event.now.what }
    {
        match event.what {
            What::Arrive { packet, hop, .. } => {
                let stamp = self.stamp(stage, packet, hop);
                event.clock.0.saturating_sub(stamp)
            }
            _ => 0,
        }
    }
}

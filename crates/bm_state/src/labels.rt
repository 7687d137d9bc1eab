//! The labels of packets after some events.
ghost use Rattle.std.specs.Prelude.{◌≡◌, ◌<◌, [], ◌∷◌, List, IfOk, if◌then◌else◌, Some, slice_set};
ghost use Rattle.bm_core.specs.Past.{label_of, segment_of, version_at};
ghost use Rattle.bm_core.specs.declared.events.Event.{Event};
ghost use Rattle.bm_core.specs.declared.events.Stage.{Stage};
ghost use Rattle.bm_table.specs.Settings.{IsWithin};
ghost use Rattle.bm_state.specs.Labels.{KeepsLabels, label_from, steering_in};
ghost use Rattle.bm_state.specs.Moves.{AreMoves};
ghost use Rattle.bm_state.specs.Versions.{KeepsVersions};

use crate::moves::Moves;
use crate::versions::Versions;
use bm_base::{Label, MuxId, Version};
use bm_core::{Stage, What};
use bm_hash::bucket_of;
use std::alloc::{AllocError, Global};
use std::marker::Model;

/// The mux and the version of its table that steered a packet.
#[derive(Clone, Copy)]
pub struct Steering {
    pub mux: MuxId,
    pub version: Version,
}

#[derive(Clone, Copy)]
enum Kept {
    Unsteered,
    Steered(MuxId, Version),
}

/// What is kept of a packet, which contracts see as an `Option<Steering>`. It takes 8 octets, where
/// an `Option<Steering>` would take 12.
#[derive(Clone, Drop)]
pub(crate) struct PackedSteering {
    kept: Kept,
}

impl Model for PackedSteering {
    ghost use Rattle.std.specs.Prelude.{Option};
    ghost use Rattle.bm_state.specs.declared.labels.Steering.{Steering};
    ghost use Rattle.bm_state.specs.Inside.Packed.{steering_of};

    ghost Value = { Option Steering };

    ghost view = { λ p. steering_of p.kept };
}

impl PackedSteering {
    fn new(steering: Option<Steering>) -> PackedSteering
        ensures { result ≡ steering }
    {
        let kept = match steering {
            None => Kept::Unsteered,
            Some(steering) => Kept::Steered(steering.mux, steering.version),
        };
        PackedSteering { kept }
    }

    fn steering(&self) -> Option<Steering>
        ensures { result ≡ self.now }
    {
        match self.kept {
            Kept::Unsteered => None,
            Kept::Steered(mux, version) => Some(Steering { mux, version }),
        }
    }
}

/// Which mux and which version steered each packet.
#[derive(Drop)]
pub struct Labels {
    /// By packet; the first counts for none.
    steerings: Vec<PackedSteering>,
}

impl Labels {
    /// Before the first event of the stage.
    pub fn new(alloc: Global, stage: &Stage) -> Result<Labels, AllocError>
        ensures { IfOk result (KeepsLabels stage.now []) }
    {
        let packets = stage.capture.records.items().len();
        Ok(Labels {
            steerings: vec![in alloc; PackedSteering::new(None); packets + 1]?,
        })
    }

    /// The mux and the version that steered the packet, if it was steered.
    pub fn steering(&self, packet: u32) -> Option<Steering>
        ensures kept { result ≡ steering_in self.now packet }
        ensures label { (stage : Stage) (past : List Event) → KeepsLabels stage past self.now
            → label_from stage (segment_of stage packet) result ≡ label_of stage past packet }
    {
        let place = packet as usize;
        if place < self.steerings.len() {
            self.steerings[place].steering()
        } else {
            None
        }
    }

    /// The packet's label, if it was steered.
    pub fn label(&self, stage: &Stage, moves: &Moves, packet: u32) -> Option<Label>
        requires buckets { IsWithin 1 65536 stage.now.script.setting.buckets }
        requires planned { stage.now.script.plan.buckets ≡ stage.now.script.setting.buckets }
        requires moves { AreMoves stage.now.script.plan moves.now }
        ensures { (past : List Event) → KeepsLabels stage.now past self.now
            → result ≡ label_of stage.now past packet }
    {
        let segment = stage.segment(packet)?;
        let steering = self.steering(packet)?;
        let bucket = bucket_of(&segment.flow, stage.script.setting.buckets);
        Some(Label {
            mux: steering.mux,
            version: steering.version,
            entry: moves.entry(&stage.script.plan, bucket, steering.version),
        })
    }

    fn put(&mut self, packet: u32, steering: Steering)
        ensures { self.new.steerings.items
            ≡ slice_set self.old.steerings.items packet (Some steering) }
    {
        let place = packet as usize;
        if place < self.steerings.len() {
            self.steerings[place] = PackedSteering::new(Some(steering));
        }
    }

    fn steer(&mut self, packet: u32, mux: MuxId, version: Version)
        ensures { (stage : Stage) (past : List Event) (e : Event) → e.what ≡ What.Steer packet mux
            → version ≡ version_at past mux → KeepsLabels stage past self.old
            → KeepsLabels stage (e ∷ past) self.new }
    {
        self.put(packet, Steering { mux, version })
    }

    /// Records what happens next, where these are the versions of the muxes before it.
    #[tactic(auto, using(crate::proofs::Labelling::labels_same))]
    pub fn observe(&mut self, versions: &Versions, what: What)
        ensures { (stage : Stage) (past : List Event) (e : Event) → e.what ≡ what
            → KeepsVersions past versions.now → KeepsLabels stage past self.old
            → KeepsLabels stage (e ∷ past) self.new }
    {
        if let What::Steer { packet, mux } = what {
            self.steer(packet, mux, versions.of(mux))
        }
    }
}

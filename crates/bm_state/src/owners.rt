//! Who owns flows and packets after some events.
ghost use Rattle.std.specs.Prelude.{◌≡◌, [], ◌∷◌, List, IfOk, OnOk, if◌then◌else◌, Some, None};
ghost use Rattle.std.specs.Prelude.{length, option_map, slice_set};
ghost use Rattle.bm_base.specs.declared.label.Hop.{Hop};
ghost use Rattle.bm_base.specs.declared.flow.Flow.{Flow};
ghost use Rattle.bm_base.specs.declared.ids.MuxId.{MuxId};
ghost use Rattle.bm_base.specs.Segments.{same_flow};
ghost use Rattle.bm_core.specs.Past.{accept_of, is_of, label_of, owner, version_of};
ghost use Rattle.bm_core.specs.declared.events.Event.{Event};
ghost use Rattle.bm_core.specs.declared.events.Stage.{Stage};
ghost use Rattle.bm_state.specs.Labels.{KeepsLabels};
ghost use Rattle.bm_state.specs.Owners.{KeepsOwners, accept_in, as_accepted, owner_in};
ghost use Rattle.bm_state.specs.Inside.Owners.{accept_for};

use crate::flow_key::FlowKey;
use crate::labels::Labels;
use bm_base::{Flow, Segment, ServerId};
use bm_core::{Stage, Verdict, What};
use std::alloc::{AllocError, Global};
use std::collections::HashMap;
use std::marker::Model;

/// An Accept: its server, the version that steered its packet, and how many events came before it.
#[derive(Clone, Copy)]
pub struct Owner {
    pub server: ServerId,
    pub version: u32,
    pub place: usize,
}

#[derive(Clone, Copy)]
enum Owned {
    Nobodys,
    By(ServerId, u32, usize),
}

/// What is kept of a packet, which contracts see as an `Option<Owner>`. It takes 16 octets, where an
/// `Option<Owner>` would take 24.
#[derive(Clone, Drop)]
pub(crate) struct PackedOwner {
    owned: Owned,
}

impl Model for PackedOwner {
    ghost use Rattle.std.specs.Prelude.{Option};
    ghost use Rattle.bm_state.specs.declared.owners.Owner.{Owner};
    ghost use Rattle.bm_state.specs.Inside.Packed.{owner_of};

    ghost Value = { Option Owner };

    ghost view = { λ p. owner_of p.owned };
}

impl PackedOwner {
    fn new(owner: Option<Owner>) -> PackedOwner
        ensures { result ≡ owner }
    {
        let owned = match owner {
            None => Owned::Nobodys,
            Some(owner) => Owned::By(owner.server, owner.version, owner.place),
        };
        PackedOwner { owned }
    }

    fn owner(&self) -> Option<Owner>
        ensures { result ≡ self.now }
    {
        match self.owned {
            Owned::Nobodys => None,
            Owned::By(server, version, place) => Some(Owner {
                server,
                version,
                place,
            }),
        }
    }
}

/// Each flow's last Accept.
#[derive(Drop)]
pub(crate) struct Accepts {
    accepts: HashMap<FlowKey, Owner>,
}

impl Accepts {
    fn new(alloc: Global) -> Accepts
        ensures { (f : Flow) → accept_in result f ≡ None }
    {
        Accepts {
            accepts: HashMap::new(alloc),
        }
    }

    fn get(&self, flow: &Flow) -> Option<Owner>
        ensures { result ≡ accept_in self.now flow.now }
    {
        self.accepts.get(&FlowKey::of(flow)).copied()
    }

    /// The last Accept of the segment's flow.
    fn get_for(&self, segment: Option<Segment>) -> Option<Owner>
        ensures { result ≡ accept_for (accept_in self.now) segment }
    {
        self.get(&segment?.flow)
    }

    fn put(&mut self, flow: Flow, owner: Owner) -> Result<(), AllocError>
        ensures { OnOk result ((q : Flow) → accept_in self.new q
            ≡ (if same_flow flow q then Some owner
            else accept_in self.old q)) }
    {
        self.accepts.insert(FlowKey::of(&flow), owner)?;
        Ok(())
    }

    /// Records an Accept of the segment's flow.
    fn put_for(&mut self, segment: Option<Segment>, owner: Owner) -> Result<(), AllocError>
        ensures { OnOk result ((q : Flow) → accept_in self.new q
            ≡ (if is_of segment q then Some owner
            else accept_in self.old q)) }
    {
        match segment {
            Some(segment) => self.put(segment.flow, owner),
            None => Ok(()),
        }
    }
}

/// The version that steered the packet, or 0.
fn version_sent(stage: &Stage, labels: &Labels, packet: u32) -> u32
    ensures { (past : List Event) → KeepsLabels stage.now past labels.now
        → result ≡ version_of (label_of stage.now past packet) }
{
    match (stage.segment(packet), labels.steering(packet)) {
        (Some(_), Some(steering)) => steering.version.0,
        _ => 0,
    }
}

/// Each flow's last Accept, and for each packet the last Accept of its flow before its Steer.
#[derive(Drop)]
pub struct Owners {
    accepts: Accepts,
    /// By packet; the first counts for none.
    owners: Vec<PackedOwner>,
}

impl Owners {
    /// Before the first event of the stage.
    pub fn new(alloc: Global, stage: &Stage) -> Result<Owners, AllocError>
        ensures { IfOk result (KeepsOwners stage.now []) }
    {
        let packets = stage.capture.records.items().len();
        Ok(Owners {
            accepts: Accepts::new(alloc),
            owners: vec![in alloc; PackedOwner::new(None); packets + 1]?,
        })
    }

    /// The packet's owner, if it was steered when its flow had one.
    pub fn owner(&self, packet: u32) -> Option<Owner>
        ensures kept { result ≡ owner_in self.now packet }
        ensures owner { (stage : Stage) (past : List Event) → KeepsOwners stage past self.now
            → option_map as_accepted result ≡ owner stage past packet }
    {
        let place = packet as usize;
        if place < self.owners.len() {
            self.owners[place].owner()
        } else {
            None
        }
    }

    fn put(&mut self, packet: u32, owner: Option<Owner>)
        ensures owners { self.new.owners.items ≡ slice_set self.old.owners.items packet owner }
        ensures accepts { self.new.accepts ≡ self.old.accepts }
    {
        let place = packet as usize;
        if place < self.owners.len() {
            self.owners[place] = PackedOwner::new(owner);
        }
    }

    fn observe_steer(&mut self, stage: &Stage, packet: u32)
        ensures { (past : List Event) (e : Event) (mux : MuxId)
            → e.what ≡ What.Steer packet mux → KeepsOwners stage.now past self.old
            → KeepsOwners stage.now (e ∷ past) self.new }
    {
        let owner = self.accepts.get_for(stage.segment(packet));
        self.put(packet, owner)
    }

    fn observe_accept(
        &mut self,
        stage: &Stage,
        labels: &Labels,
        place: usize,
        packet: u32,
        server: ServerId,
    ) -> Result<(), AllocError>
        ensures { (past : List Event) (e : Event) (hop : Hop)
            → e.what ≡ What.Arrive packet hop server Verdict.Accept → place ≡ length past
            → KeepsLabels stage.now past labels.now → KeepsOwners stage.now past self.old
            → OnOk result (KeepsOwners stage.now (e ∷ past) self.new) }
    {
        let owner = Owner {
            server,
            version: version_sent(stage, labels, packet),
            place,
        };
        self.accepts.put_for(stage.segment(packet), owner)?;
        Ok(())
    }

    #[tactic(auto, using(crate::proofs::Owning::owners_same))]
    fn observe_arrival(
        &mut self,
        stage: &Stage,
        labels: &Labels,
        place: usize,
        packet: u32,
        server: ServerId,
        verdict: Verdict,
    ) -> Result<(), AllocError>
        ensures { (past : List Event) (e : Event) (hop : Hop) → e.what ≡ What.Arrive packet hop server verdict
            → place ≡ length past
            → KeepsLabels stage.now past labels.now → KeepsOwners stage.now past self.old
            → OnOk result (KeepsOwners stage.now (e ∷ past) self.new) }
    {
        match verdict {
            Verdict::Accept => self.observe_accept(stage, labels, place, packet, server),
            _ => Ok(()),
        }
    }

    /// Records what happens next, after this many events, where these are the labels before it.
    #[tactic(auto, using(crate::proofs::Owning::owners_same))]
    pub fn observe(
        &mut self,
        stage: &Stage,
        labels: &Labels,
        place: usize,
        what: What,
    ) -> Result<(), AllocError>
        ensures { (past : List Event) (e : Event) → e.what ≡ what → place ≡ length past
            → KeepsLabels stage.now past labels.now → KeepsOwners stage.now past self.old
            → OnOk result (KeepsOwners stage.now (e ∷ past) self.new) }
    {
        match what {
            What::Steer { packet, .. } => {
                self.observe_steer(stage, packet);
                Ok(())
            }
            What::Arrive {
                packet,
                server,
                verdict,
                ..
            } => self.observe_arrival(stage, labels, place, packet, server, verdict),
            _ => Ok(()),
        }
    }
}

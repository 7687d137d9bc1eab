//! The packets of each Accept.
ghost use Rattle.std.specs.Prelude.{◌≡◌, ◌==◌, ◌&&◌, if◌then◌else◌, ℕ, List, [], ◌∷◌, ◌++◌, length};
ghost use Rattle.std.specs.Prelude.{OnOk, Option, Some, None};
ghost use Rattle.bm_base.specs.declared.label.Hop.{Hop};
ghost use Rattle.bm_base.specs.declared.flow.Flow.{Flow};
ghost use Rattle.bm_base.specs.declared.ids.ServerId.{ServerId};
ghost use Rattle.bm_base.specs.Segments.{same_flow};
ghost use Rattle.bm_core.specs.declared.events.Event.{Event};
ghost use Rattle.bm_core.specs.declared.events.Stage.{Stage};
ghost use Rattle.bm_core.specs.Runs.{MayCome};
ghost use Rattle.bm_stream.specs.Accepts as accepts;
ghost use Rattle.bm_stream.specs.Inside.Keys.{key_of};
ghost use Rattle.bm_table.specs.Tables.{same_server};

use bm_base::{Flow, Memory, ServerId, Taken};
use bm_core::{Event, Stage, Verdict, What};
use std::alloc::Global;
use std::collections::{BTreeMap, HashMap};

/// A flow at a server, as a key. The ports come first, since they distinguish most flows.
#[derive(Clone, Copy, PartialEq, Eq, Hash)]
pub(crate) struct Key {
    sport: u16,
    dport: u16,
    server: u16,
    src: u32,
    dst: u32,
}

impl Key {
    fn of(server: ServerId, flow: &Flow) -> Key
        ensures { result ≡ key_of server flow.now }
    {
        Key {
            sport: flow.sport,
            dport: flow.dport,
            server: server.0,
            src: flow.src,
            dst: flow.dst,
        }
    }
}

/// Where each server last accepted each flow.
#[derive(Drop)]
pub(crate) struct Accepts {
    places: HashMap<Key, usize>,
}

impl Accepts {
    ghost use Rattle.bm_stream.specs.Inside.Found.{place_in};

    fn new(alloc: Global) -> Accepts
        ensures { (s : ServerId) (f : Flow) → place_in result s f ≡ None }
    {
        Accepts {
            places: HashMap::new(alloc),
        }
    }

    fn get(&self, server: ServerId, flow: &Flow) -> Option<usize>
        ensures { result ≡ place_in self.now server flow.now }
    {
        self.places.get(&Key::of(server, flow)).copied()
    }

    fn put(&mut self, server: ServerId, flow: &Flow, place: usize) -> Result<(), Memory>
        ensures { OnOk result ((s : ServerId) (f : Flow) → place_in self.new s f
            ≡ (if same_server server s && same_flow flow.now f then Some place
            else place_in self.old s f)) }
    {
        self.places.insert(Key::of(server, flow), place)?;
        Ok(())
    }
}

/// The packets of each Accept, by its place.
#[derive(Drop)]
pub(crate) struct Packets {
    lists: BTreeMap<usize, Vec<u32>>,
}

impl Packets {
    ghost use Rattle.bm_stream.specs.Inside.Found.{list_in};

    fn new(alloc: Global) -> Packets
        ensures { (place : ℕ) → list_in result place ≡ [] }
    {
        Packets {
            lists: BTreeMap::new(alloc),
        }
    }

    /// Adds the packet to those of the Accept at this place.
    fn add(&mut self, alloc: Global, place: usize, packet: u32) -> Result<(), Memory>
        ensures { OnOk result ((q : ℕ) → list_in self.new q
            ≡ (if place == q then list_in self.old q ++ packet ∷ [] else list_in self.old q)) }
    {
        self.lists
            .entry(place)?
            .or_insert_with(|| Vec::new(alloc))
            .push(packet)?;
        Ok(())
    }

    /// The packets of the Accept at this place.
    pub(crate) fn get(&self, place: usize) -> &[u32]
        ensures { result.now ≡ list_in self.now place }
    {
        match self.lists.get(&place) {
            Some(list) => list.as_slice(),
            None => &[],
        }
    }
}

/// Whether a segment that is taken so is a piece.
fn is_piece(taken: Taken) -> bool
    ensures { result ≡ accepts.is_piece taken }
{
    matches!(taken, Taken::Advance | Taken::Ahead | Taken::Duplicate)
}

/// What is known of a first part of the events: where each server last accepted each flow, and the
/// packets of each Accept.
#[derive(Drop)]
pub(crate) struct Found {
    accepts: Accepts,
    pub(crate) packets: Packets,
}

impl Found {
    ghost use Rattle.bm_stream.specs.Inside.Found.{HasFound, list_in, place_in};

    /// What is known before the first event.
    pub(crate) fn new(alloc: Global) -> Found
        ensures { (stage : Stage) → HasFound stage [] result }
    {
        Found {
            accepts: Accepts::new(alloc),
            packets: Packets::new(alloc),
        }
    }

    /// The server accepts the packet's flow at this place.
    fn accept(
        &mut self,
        alloc: Global,
        place: usize,
        packet: u32,
        server: ServerId,
        flow: &Flow,
    ) -> Result<(), Memory>
        ensures accepts { OnOk result ((s : ServerId) (f : Flow) → place_in self.new.accepts s f
            ≡ (if same_server server s && same_flow flow.now f then Some place
            else place_in self.old.accepts s f)) }
        ensures packets { OnOk result ((q : ℕ) → list_in self.new.packets q
            ≡ (if place == q then list_in self.old.packets q ++ packet ∷ []
            else list_in self.old.packets q)) }
    {
        self.accepts.put(server, flow, place)?;
        self.packets.add(alloc, place, packet)
    }

    /// The server takes the packet as a piece of the Accept of its flow.
    fn piece(
        &mut self,
        alloc: Global,
        packet: u32,
        server: ServerId,
        flow: &Flow,
    ) -> Result<(), Memory>
        ensures accepts { OnOk result (self.new.accepts ≡ self.old.accepts) }
        ensures packets { OnOk result ((q : ℕ) → list_in self.new.packets q
            ≡ (if accepts.is_at (place_in self.old.accepts server flow.now) q
            then list_in self.old.packets q ++ packet ∷ []
            else list_in self.old.packets q)) }
    {
        match self.accepts.get(server, flow) {
            Some(place) => self.packets.add(alloc, place, packet),
            None => Ok(()),
        }
    }

    /// Records an arrival.
    fn observe_arrival(
        &mut self,
        alloc: Global,
        stage: &Stage,
        place: usize,
        packet: u32,
        server: ServerId,
        verdict: Verdict,
    ) -> Result<(), Memory>
        ensures { (past : List Event) (e : Event) (hop : Hop) → e.what ≡ What.Arrive packet hop server verdict
            → place ≡ length past → MayCome stage.now past e.clock.0 e.what
            → HasFound stage.now past self.old
            → OnOk result (HasFound stage.now (e ∷ past) self.new) }
    {
        let Some(segment) = stage.segment(packet) else {
            return Ok(());
        };
        match verdict {
            Verdict::Accept => self.accept(alloc, place, packet, server, &segment.flow),
            Verdict::Process(taken) => {
                if is_piece(taken) {
                    self.piece(alloc, packet, server, &segment.flow)?;
                    return Ok(());
                }
                Ok(())
            }
            Verdict::Forward(_) | Verdict::Reset(_) | Verdict::Drop(_) => Ok(()),
        }
    }

    /// Records the event that comes after `place` others.
    pub(crate) fn observe(
        &mut self,
        alloc: Global,
        stage: &Stage,
        place: usize,
        event: &Event,
    ) -> Result<(), Memory>
        ensures { (past : List Event) → place ≡ length past
            → MayCome stage.now past event.now.clock.0 event.now.what
            → HasFound stage.now past self.old
            → OnOk result (HasFound stage.now (event.now ∷ past) self.new) }
    {
        match event.what {
            What::Arrive {
                packet,
                server,
                verdict,
                ..
            } => self.observe_arrival(alloc, stage, place, packet, server, verdict),
            What::Publish(_)
            | What::Switch { .. }
            | What::Steer { .. }
            | What::Lose { .. }
            | What::Close { .. }
            | What::Retire { .. }
            | What::Sync => Ok(()),
        }
    }
}

//! What all workers of a run share.
ghost use Rattle.std.specs.Prelude.{◌≡◌, ◌+◌, ◌*◌, ◌^◌, ◌<◌, ◌≤◌, Some, length};
ghost use Rattle.bm_core.specs.Past.{segment_of};
ghost use Rattle.bm_fault.specs.Faults.{Gives, IsRule};
ghost use Rattle.bm_tcp.specs.Packets.{ReadsAs};
ghost use Rattle.bm_worker.specs.Assigned.{is_mux, assigned_mux};
ghost use Rattle.bm_worker.specs.Environments.{IsRunnable, IsSetUp};

use bm_base::{Fate, Hop, MuxId, Octets};
use bm_core::Stage;
use bm_fault::Faults;
use bm_io::Gate;
use bm_server::Server;
use std::alloc::Global;
use std::marker::Model;

/// What all workers of a run share. Place i of `octets` and of `routes` is for the record of packet
/// i + 1: its packet, and its mux if it is steerable.
#[derive(Drop)]
pub struct Shared<'a, F, G> {
    alloc: Global,
    stage: &'a Stage,
    octets: &'a Octets,
    routes: &'a [Option<MuxId>],
    servers: &'a [Server],
    faults: &'a Faults<F>,
    gate: &'a G,
}

impl<'a, F, G> Model for Shared<'a, F, G> {
    ghost use Rattle.bm_worker.specs.Environments.{Environment, IsRunnable};

    ghost Value = { Environment F };

    ghost view = { λ a. record {
      stage = a.stage.now;
      routes = a.routes.now;
      servers = a.servers.now;
      rule = a.faults.now.rule;
    } };

    ghost invariant = { λ a. IsRunnable a.stage.now a.octets.now a.routes.now a.servers.now };
}

impl<'a, F, G> Shared<'a, F, G> {
    /// Takes no memory.
    pub fn new(
        alloc: Global,
        stage: &'a Stage,
        octets: &'a Octets,
        routes: &'a [Option<MuxId>],
        servers: &'a [Server],
        faults: &'a Faults<F>,
        gate: &'a G,
    ) -> Shared<'a, F, G>
        requires { IsRunnable stage.now octets.now routes.now servers.now }
        ensures { result ≡ record {
          stage = stage.now;
          routes = routes.now;
          servers = servers.now;
          rule = faults.now.rule;
        } }
    {
        Shared {
            alloc,
            stage,
            octets,
            routes,
            servers,
            faults,
            gate,
        }
    }

    /// Where the workers take their memory.
    pub fn alloc(&self) -> Global
        ensures { IsSetUp self.now }
    {
        self.alloc
    }

    /// Takes no memory.
    pub fn stage(&self) -> &'a Stage
        ensures value { result.now ≡ self.now.stage }
        ensures set_up { IsSetUp self.now }
    {
        self.stage
    }

    /// Takes no memory.
    pub fn servers(&self) -> &'a [Server]
        ensures value { result.now ≡ self.now.servers }
        ensures set_up { IsSetUp self.now }
    {
        self.servers
    }

    /// Whether the packet of the record at this place is the mux's.
    pub(crate) fn is_assigned_to(&self, at: u32, mux: MuxId) -> bool
        requires { at < length self.now.stage.capture.records }
        ensures { result ≡ is_mux (assigned_mux self.now.routes (at + 1)) mux.0 }
    {
        match self.routes[at as usize] {
            Some(of) => of.0 == mux.0,
            None => false,
        }
    }

    /// The octets of the packet of the record at this place.
    pub(crate) fn octets_at(&self, at: u32) -> &'a [u8]
        requires { at < length self.now.stage.capture.records }
        ensures { (segment : _) → segment_of self.now.stage (at + 1) ≡ Some segment
            → (length result.now ≤ 65479) × ReadsAs result.now segment }
    {
        self.octets.get(at)
    }
}

impl<'a, F: Fn(u32, Hop) -> Fate, G> Shared<'a, F, G> {
    /// What becomes of a sending of this packet with this hop.
    pub(crate) fn fate(&self, packet: u32, hop: Hop) -> Fate
        requires { IsRule F.Fn self.now.rule }
        ensures gives { Gives F.Fn self.now.rule packet hop result }
        ensures copies { result.copies ≤ 3 }
        ensures delay { result.delay ≤ 60 * 10 ^ 9 }
    {
        self.faults.fate(packet, hop)
    }
}

impl<'a, F, G: Gate> Shared<'a, F, G> {
    /// A worker comes to the gate, before its step of this number. It may wait there.
    pub fn come_to_gate(&self, worker: u16, step: u32) {
        self.gate.at(worker, step);
    }
}
